//! Figures brought up to date: faults and blanks, free cells, short lists and tables, at both calculators.

use calculators::cards;
use calculators::cards::{CardFigure, Cards};
use calculators::quantities::{Kind, Quantities};
use figures::blanks::{Blanks, Cause};
use figures::update::update;
use figures::ways::{PLACES, SelectedWay, flows};
use meaning::{Calculator, Fault, RULES, read_or};
use planning::plan::Plan;
use std::array;
use std::process::Abort;

/// Why a cell is blank whose giver is held.
const HELD: Option<Cause> = Some(Cause::GiverHeld);

/// Why a cell is blank that comes behind a blank one.
const BEHIND: Option<Cause> = Some(Cause::InputBlank);

/// Why a cell is blank whose giver faulted.
fn faulted(number: u8) -> Option<Cause> {
    Some(Cause::Faulted(Fault { number }))
}

/// A way of a kind on the cells that its places name; its outputs are those that the calculator says.
fn by<C: Calculator, K: Into<u8>>(calculator: &C, kind: K, way: u8, places: &[u8]) -> SelectedWay {
    let kind = kind.into();
    SelectedWay {
        kind,
        way,
        cells: array::from_fn(|place| read_or(places, place, 0)),
        count: places.len().min(PLACES) as u8,
        outputs: (0..6u8)
            .filter(|place| calculator.is_output(kind, way, *place))
            .fold(0, |outputs, place| outputs | 1 << place),
    }
}

/// Plans the rules, numbered from 0, and brings the figures up to date.
fn work_out<C: Calculator>(
    calculator: &C,
    ways: &[SelectedWay],
    parameters: &[C::Figure],
    figures: &mut [C::Figure],
) -> Blanks {
    let rows: [Option<SelectedWay>; RULES] = array::from_fn(|r| ways.get(r).copied());
    let plan = Plan::new(&flows(&rows));
    update(calculator, &rows, &plan, parameters, figures)
}

/// Asserts that the cells from 0 on are blank for these causes.
fn are_blank(rt: &impl Abort, blanks: &Blanks, due: &[Option<Cause>]) {
    for (cell, cause) in (0..64u8).zip(due) {
        assert_eq!(rt; blanks.cause(cell), *cause);
    }
}

// Each way gives cell 2.
#[test]
fn a_fault_leaves_the_old_entry(rt: HostRuntime) {
    let sum = by(&Quantities, Kind::Sum, 0, &[0, 1, 2]);
    let unknown = SelectedWay { kind: 9, ..sum };
    let cases = [
        (sum, 0, [999_999_999, 2, 7], 1),
        (
            by(&Quantities, Kind::Product, 1, &[2, 0, 1]),
            1,
            [0, 5, 7],
            2,
        ),
        (
            by(&Quantities, Kind::Product, 0, &[0, 1, 2]),
            0,
            [3, 4, 7],
            3,
        ),
        (unknown, 0, [3, 4, 7], 255),
    ];
    for (way, p, before, fault) in cases {
        let mut figures = before;
        let blanks = work_out(&Quantities, &[way], &[p], &mut figures);
        assert_eq!(rt; figures, before);
        are_blank(&rt, &blanks, &[None, None, faulted(fault), None]);
    }
}

// Rule 0 faults, since its P is 0; rules 1, 2 and 3 are fed from it one after another, and rule 4 is not.
#[test]
fn a_blank_spreads(rt: HostRuntime) {
    let ways = [
        by(&Quantities, Kind::Product, 0, &[0, 1, 2]),
        by(&Quantities, Kind::Sum, 0, &[2, 0, 3]),
        by(&Quantities, Kind::Sum, 2, &[0, 4, 3]),
        by(&Quantities, Kind::Limit, 0, &[4, 5]),
        by(&Quantities, Kind::Sum, 0, &[0, 1, 6]),
    ];
    let mut figures = [1, 2, 3, 4, 5, 6, 7];
    let blanks = work_out(&Quantities, &ways, &[0, 0, 0, 0, 9], &mut figures);
    assert_eq!(rt; figures, [1, 2, 3, 4, 5, 6, 12]);
    are_blank(
        &rt,
        &blanks,
        &[None, None, faulted(3), BEHIND, BEHIND, BEHIND, None],
    );
}

// Rules 0 and 1 feed each other, and rule 2 feeds rule 0.
#[test]
fn held_rules_leave_blanks(rt: HostRuntime) {
    let ways = [
        by(&Quantities, Kind::Sum, 0, &[0, 1, 2]),
        by(&Quantities, Kind::Sum, 0, &[2, 3, 1]),
        by(&Quantities, Kind::Entry, 0, &[0]),
    ];
    let mut figures = [5, 6, 7, 8];
    let blanks = work_out(&Quantities, &ways, &[0, 0, 9], &mut figures);
    assert_eq!(rt; figures, [9, 6, 7, 8]);
    are_blank(&rt, &blanks, &[None, HELD, HELD, None]);
}

// The first rule faults and the second gives 3; without rules both cells show what they hold.
#[test]
fn a_cell_without_a_giver_keeps_its_entry(rt: HostRuntime) {
    let ways = [
        by(&Quantities, Kind::Product, 0, &[0, 0, 1]),
        by(&Quantities, Kind::Sum, 0, &[0, 0, 2]),
    ];
    let mut figures = [1, 77, 88, 99];
    let blanks = work_out(&Quantities, &ways, &[0, 1], &mut figures);
    assert_eq!(rt; figures, [1, 77, 3, 99], "cell 3 is free from the start");
    are_blank(&rt, &blanks, &[None, faulted(3), None, None]);
    let blanks = work_out(&Quantities, &[], &[0, 1], &mut figures);
    assert_eq!(rt; figures, [1, 77, 3, 99]);
    are_blank(&rt, &blanks, &[None, None, None, None]);
}

#[test]
fn a_missing_parameter_is_the_start(rt: HostRuntime) {
    let ways = [
        by(&Quantities, Kind::Sum, 0, &[0, 0, 1]),
        by(&Quantities, Kind::Sum, 0, &[0, 0, 2]),
        by(&Quantities, Kind::Product, 0, &[0, 0, 3]),
    ];
    let mut figures = [4, 0, 0, 9];
    let blanks = work_out(&Quantities, &ways, &[1], &mut figures);
    assert_eq!(rt; figures, [4, 9, 8, 9]);
    are_blank(&rt, &blanks, &[None, None, None, faulted(3)]);
}

// The table has two cells: rule 0 gives a third, and rule 1 reads it, as the start.
#[test]
fn a_short_table_is_safe(rt: HostRuntime) {
    let ways = [
        by(&Quantities, Kind::Sum, 0, &[0, 0, 2]),
        by(&Quantities, Kind::Sum, 0, &[2, 0, 1]),
    ];
    let mut figures = [4, 5];
    let blanks = work_out(&Quantities, &ways, &[0, 10], &mut figures);
    assert_eq!(rt; figures, [4, 14]);
    are_blank(&rt, &blanks, &[None, None, None]);
    let blanks = work_out(&Quantities, &ways, &[0, 10], &mut []);
    are_blank(&rt, &blanks, &[None, None, None]);
}

// Rules 0 and 1 give cells that there cannot be, rule 1 by a fault; rule 2 reads such a cell, as the start.
#[test]
fn a_cell_from_64_on_is_safe(rt: HostRuntime) {
    let ways = [
        by(&Quantities, Kind::Sum, 0, &[0, 0, 64]),
        by(&Quantities, Kind::Product, 0, &[0, 0, 255]),
        by(&Quantities, Kind::Sum, 0, &[64, 0, 1]),
    ];
    let mut figures = [4, 5];
    let blanks = work_out(&Quantities, &ways, &[0, 0, 10], &mut figures);
    assert_eq!(rt; figures, [4, 14]);
    are_blank(&rt, &blanks, &[None, None]);
    assert_eq!(rt; blanks.cause(64), None);
    assert_eq!(rt; blanks.cause(255), None);
}

// Rule 0 enters a card, rule 1 unpacks it, and rule 2 packs the three codes again.
#[test]
fn a_card_is_unpacked_and_packed(rt: HostRuntime) {
    let ways = [
        by(&Cards, cards::Kind::Entry, 0, &[0]),
        by(&Cards, cards::Kind::Pack, 0, &[0, 1, 2, 3]),
        by(&Cards, cards::Kind::Pack, 1, &[4, 1, 2, 3]),
    ];
    let entered = CardFigure::Card {
        furnish: 12,
        coat: 340,
        core: 999,
    };
    let mut figures = [cards::START; 5];
    let blanks = work_out(&Cards, &ways, &[entered], &mut figures);
    let furnish = CardFigure::Code(12);
    let coat = CardFigure::Code(340);
    let core = CardFigure::Code(999);
    assert_eq!(rt; figures, [entered, furnish, coat, core, entered]);
    are_blank(&rt, &blanks, &[None; 5]);
}

// Rule 0 finds a code where it needs a card; rule 1 is fed from it.
#[test]
fn a_code_for_a_card_faults(rt: HostRuntime) {
    let ways = [
        by(&Cards, cards::Kind::Pack, 0, &[0, 1, 2, 3]),
        by(&Cards, cards::Kind::Pack, 1, &[4, 1, 2, 3]),
    ];
    let before = [CardFigure::Code(8); 5];
    let mut figures = before;
    let blanks = work_out(&Cards, &ways, &[], &mut figures);
    assert_eq!(rt; figures, before);
    let mismatch = faulted(1);
    are_blank(&rt, &blanks, &[None, mismatch, mismatch, mismatch, BEHIND]);
}
