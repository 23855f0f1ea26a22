//! Rank numbers: strengths first, then numbers; and tables that are short or hold unknown strengths.

use rankings::{Class, Classes, Dated, DatedStrength};
use ranks::Ranks;
use std::process::Abort;

/// The bytes of the four classes.
const REQUIRED: u8 = Class::Required as u8;

const STRONG: u8 = Class::Strong as u8;

const MEDIUM: u8 = Class::Medium as u8;

const WEAK: u8 = Class::Weak as u8;

/// Asserts that the rules from 0 on have these ranks.
fn are(rt: &impl Abort, ranks: &Ranks, due: &[u8]) {
    for (rank, wanted) in ranks.numbers().iter().zip(due) {
        assert_eq!(rt; *rank, *wanted);
    }
}

#[test]
fn level_rules_go_by_number(rt: HostRuntime) {
    let classes = [STRONG, REQUIRED, STRONG, WEAK, MEDIUM];
    are(
        &rt,
        &Ranks::new(&Classes, &classes, 0b11111),
        &[1, 0, 2, 4, 3, 5],
    );
}

#[test]
fn unknown_absent_and_missing_come_last(rt: HostRuntime) {
    are(
        &rt,
        &Ranks::new(&Classes, &[WEAK, 9, REQUIRED], 0b111),
        &[1, 2, 0, 3],
    );
    are(
        &rt,
        &Ranks::new(&Classes, &[WEAK, WEAK, REQUIRED], 0b011),
        &[0, 1, 2, 3],
    );
    are(&rt, &Ranks::new(&Classes, &[], u64::MAX), &[0, 1, 2, 3, 4]);
}

#[test]
fn an_earlier_day_ranks_before_a_stronger_class(rt: HostRuntime) {
    let late = DatedStrength {
        day: 9,
        class: REQUIRED,
    };
    let early = DatedStrength {
        day: 8,
        class: WEAK,
    };
    are(
        &rt,
        &Ranks::new(&Dated, &[late, early, late], 0b111),
        &[1, 0, 2],
    );
}
