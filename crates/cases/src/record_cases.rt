//! Records of rules: lists that are short, full and too long.

use calculators::cards;
use calculators::cards::Cards;
use calculators::quantities::{Kind, Quantities};
use rankings::Class;
use records::record::Record;
use records::refusal::Refusal;
use records::row::Row;

/// The byte of a strong rule.
const STRONG: u8 = Class::Strong as u8;

#[test]
fn a_short_list_is_filled_up(rt: HostRuntime) {
    let record = Record::new(7, 2, &[3, 2, 4], &[0, 2], STRONG, 10_000i64);
    assert_eq!(rt; record.number, 7);
    assert_eq!(rt; record.kind, 2);
    assert_eq!(rt; record.places, [3, 2, 4, 0, 0, 0]);
    assert_eq!(rt; record.place_count, 3);
    assert_eq!(rt; record.ways, [0, 2, 0, 0]);
    assert_eq!(rt; record.way_count, 2);
    assert_eq!(rt; record.strength, STRONG);
    assert_eq!(rt; record.parameter, 10_000);
}

#[test]
fn a_long_list_keeps_its_first_entries_and_its_count(rt: HostRuntime) {
    let record = Record::new(0, 0, &[9; 300], &[1, 2, 3, 4, 5], STRONG, 0i64);
    assert_eq!(rt; record.places, [9; 6]);
    assert_eq!(rt; record.place_count, 255, "the count stops at 255");
    assert_eq!(rt; record.ways, [1, 2, 3, 4]);
    assert_eq!(rt; record.way_count, 5);
}

#[test]
fn refusals_have_their_numbers(rt: HostRuntime) {
    assert_eq!(rt; Refusal::CellCount.number(), 1);
    assert_eq!(rt; Refusal::Parameter.number(), 12);
    assert_eq!(rt; Refusal::NoSuchCell.number(), 20);
}

// Rule 1 of the reel: the weight in cell 4 from grammage and area, or the area in cell 2 from grammage and weight.
#[test]
fn a_product_lists_its_two_ways(rt: HostRuntime) {
    let kind = Kind::Product.into();
    let record = Record::new(1, kind, &[3, 2, 4], &[0, 2], STRONG, 10_000i64);
    let rule = record.rule(&Quantities);
    let [weight, area, ..] = rule.ways;
    assert_eq!(rt; rule.count, 2);
    assert_eq!(rt; (weight.number, weight.count, weight.mask), (0, 1, 0b10000));
    assert_eq!(rt; weight.outputs, [4, 0, 0, 0, 0, 0]);
    assert_eq!(rt; (area.number, area.count, area.mask), (2, 1, 0b00100));
    assert_eq!(rt; area.outputs, [2, 0, 0, 0, 0, 0]);
    let selected = Row::from(&record).selected(&area);
    assert_eq!(rt;
        (selected.kind, selected.way, selected.outputs),
        (kind, 2, 0b010)
    );
    assert_eq!(rt; selected.places(), [3, 2, 4].as_slice());
}

// A card in cell 7 is unpacked into cells 6, 5 and 64; a cell from 64 on is in no set.
#[test]
fn a_pack_lists_the_places_that_it_gives(rt: HostRuntime) {
    let record = Record::new(
        0,
        cards::Kind::Pack.into(),
        &[7, 6, 5, 64],
        &[0],
        STRONG,
        cards::START,
    );
    let [unpacked, ..] = record.rule(&Cards).ways;
    assert_eq!(rt; (unpacked.count, unpacked.mask), (3, 0b1100000));
    assert_eq!(rt; unpacked.outputs, [6, 5, 64, 0, 0, 0]);
    assert_eq!(rt; Row::from(&record).selected(&unpacked).outputs, 0b0110);
}
