//! Both calculators on examples: the worked cases, and what lies outside a kind, a way, a list or a table.

use super::cards;
use super::cards::{CardFault, CardFigure, Cards};
use super::quantities::{Kind, Quantities, QuantityFault};
use meaning::{Calculator, Fault};

/// The numbers of two kinds.
const SUM: u8 = Kind::Sum as u8;

const PACK: u8 = cards::Kind::Pack as u8;

/// The answer over a table whose cells 0, 1 and 2 are the places a, b and c.
fn over(kind: Kind, way: u8, p: i64, table: [i64; 3]) -> Result<i64, Fault> {
    Quantities.work_out(u8::from(kind), way, p, &table, &[0, 1, 2], 0)
}

fn faults(number: u8) -> Result<i64, Fault> {
    Err(Fault { number })
}

#[test]
fn kinds_go_by_their_numbers(rt: HostRuntime) {
    let kinds = [Kind::Entry, Kind::Sum, Kind::Product, Kind::Limit];
    assert_eq!(rt; kinds.map(u8::from), [0, 1, 2, 3]);
    assert_eq!(rt; u8::from(cards::Kind::Entry), 0);
    assert_eq!(rt; Kind::try_from(2u8), Ok(Kind::Product));
    assert_eq!(rt; Kind::try_from(4u8), Err(QuantityFault::NoSuchWay));
    assert_eq!(rt; u8::from(cards::Kind::Pack), 1);
    assert_eq!(rt; cards::Kind::try_from(1u8), Ok(cards::Kind::Pack));
    assert_eq!(rt; cards::Kind::try_from(2u8), Err(CardFault::NoSuchWay));
}

#[test]
fn quantities_answer_the_worked_cases(rt: HostRuntime) {
    let cases = [
        (Kind::Product, 0, 2, [-7, 1, 0], Ok(-3)),
        (Kind::Sum, 0, 0, [999_999_999, 1, 0], Ok(1_000_000_000)),
        (Kind::Sum, 0, 0, [999_999_999, 2, 0], faults(1)),
        (Kind::Sum, 1, 1, [0, 999_999_999, 0], Ok(-1_000_000_000)),
        (Kind::Sum, 2, 2, [999_999_999, 0, 0], faults(1)),
        (Kind::Product, 1, 1, [0, 0, 5], faults(2)),
        (Kind::Product, 1, 0, [0, 0, 5], faults(3)),
        (Kind::Product, 0, 7, [0, 5, 0], Ok(0)),
        (Kind::Product, 0, 10_000, [796, 6_030, 0], Ok(479)),
        (Kind::Product, 2, 10_000, [796, 0, 480], Ok(6_030)),
        (Kind::Product, 2, 1_000, [1_200, 0, 6_030], Ok(5_025)),
        (Kind::Limit, 0, 800, [796, 0, 0], Ok(1)),
        (Kind::Limit, 0, 796, [796, 0, 0], Ok(0)),
        (Kind::Entry, 0, -12, [0, 0, 0], Ok(-12)),
    ];
    for (kind, way, p, table, due) in cases {
        assert_eq!(rt; over(kind, way, p, table), due);
    }
}

#[test]
fn quantities_are_safe_outside_their_kinds_and_range(rt: HostRuntime) {
    let far = i64::MAX;
    assert_eq!(rt;
        Quantities.work_out(4, 0, 1, &[1, 2, 3], &[0, 1, 2], 0),
        faults(255),
        "no such kind"
    );
    assert_eq!(rt;
        over(Kind::Sum, 3, 1, [1, 2, 3]),
        faults(255),
        "no such way"
    );
    assert_eq!(rt; over(Kind::Product, 255, 1, [1, 2, 3]), faults(255));
    assert_eq!(rt;
        over(Kind::Product, 0, 1, [far, far, 0]),
        faults(1),
        "figures that are not taken"
    );
    assert_eq!(rt;
        over(Kind::Product, 0, 1, [i64::MIN, i64::MIN, 0]),
        faults(1)
    );
    assert_eq!(rt; over(Kind::Sum, 1, far, [0, far, i64::MIN]), faults(1));
    assert_eq!(rt; over(Kind::Entry, 0, i64::MIN, [0, 0, 0]), faults(1));
    assert_eq!(rt;
        Quantities.work_out(SUM, 0, 4, &[3], &[0, 9], 2),
        Ok(7),
        "a short table reads as 0"
    );
    assert_eq!(rt;
        Quantities.work_out(SUM, 0, 4, &[], &[], 200),
        Ok(4),
        "a short list, and no such output"
    );
    assert!(rt;
        !Quantities.is_output(SUM, 0, 8)
            && !Quantities.is_output(9, 0, 0)
            && !Quantities.is_output(SUM, 9, 0)
    );
    assert!(rt; Quantities.takes(-1_000_000_000) && Quantities.takes(1_000_000_000));
    assert!(rt; !Quantities.takes(-1_000_000_001) && !Quantities.takes(1_000_000_001));
}

#[test]
fn cards_pack_and_unpack(rt: HostRuntime) {
    let code = CardFigure::Code(0);
    let card = CardFigure::Card {
        furnish: 12,
        coat: 34,
        core: 999,
    };
    let parts = [
        card,
        CardFigure::Code(12),
        CardFigure::Code(34),
        CardFigure::Code(999),
    ];
    let places = [0, 1, 2, 3];
    for (place, part) in (0..4u8).zip(parts).skip(1) {
        assert_eq!(rt;
            Cards.work_out(PACK, 0, code, &parts, &places, place),
            Ok(part)
        );
    }
    assert_eq!(rt; Cards.work_out(PACK, 1, code, &parts, &places, 0), Ok(card));
    assert_eq!(rt;
        Cards.work_out(0, 0, card, &[], &[], 0),
        Ok(card),
        "an entry"
    );
    let mismatch = Err(Fault { number: 1 });
    assert_eq!(rt; Cards.work_out(PACK, 0, code, &[code], &[0], 1), mismatch);
    assert_eq!(rt;
        Cards.work_out(PACK, 1, code, &[card], &[0, 0, 0, 0], 0),
        mismatch
    );
    assert_eq!(rt;
        Cards.work_out(PACK, 0, code, &[], &[], 1),
        mismatch,
        "a short table reads as code 0"
    );
    assert_eq!(rt;
        Cards.work_out(PACK, 2, code, &parts, &places, 0),
        Err(Fault { number: 255 })
    );
    assert!(rt; Cards.takes(card) && !Cards.takes(CardFigure::Code(1000)));
}
