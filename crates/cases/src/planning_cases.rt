//! Plans of a few rules: their order, and who is held.

use figures::ways::cell_bit;
use meaning::{RULES, write_at};
use planning::flows::Flow;
use planning::plan::Plan;
use std::process::Abort;

/// The mask of some cells.
fn mask_of(cells: &[u8]) -> u64 {
    cells.iter().fold(0, |mask, cell| mask | cell_bit(*cell))
}

/// A rule that reads some cells and gives one.
fn flow(inputs: &[u8], output: u8) -> Flow {
    Flow {
        inputs: mask_of(inputs),
        outputs: mask_of(&[output]),
    }
}

/// Asserts that the rules of these numbers have this plan and these held ones.
fn plans(rt: &impl Abort, rules: &[(u8, Flow)], order: &[u8], held: &[u8]) {
    let mut rows = [None; RULES];
    for (r, flow) in rules {
        write_at(&mut rows, usize::from(*r), Some(*flow));
    }
    let plan = Plan::new(&rows);
    assert_eq!(rt; plan.order.as_slice(), order);
    assert_eq!(rt; plan.held.as_slice(), held);
}

#[test]
fn no_rule_has_an_empty_plan(rt: HostRuntime) {
    plans(&rt, &[], &[], &[]);
}

#[test]
fn the_lowest_ready_rule_comes_first(rt: HostRuntime) {
    plans(
        &rt,
        &[(9, flow(&[], 2)), (5, flow(&[], 1)), (2, flow(&[], 0))],
        &[2, 5, 9],
        &[],
    );
    // rule 1 is ready behind rule 2, before rule 3
    plans(
        &rt,
        &[(1, flow(&[0], 1)), (2, flow(&[], 0)), (3, flow(&[], 7))],
        &[2, 1, 3],
        &[],
    );
}

#[test]
fn a_chain_goes_against_its_numbers(rt: HostRuntime) {
    let chain = [
        (0, flow(&[2], 3)),
        (1, flow(&[1], 2)),
        (2, flow(&[0], 1)),
        (63, flow(&[], 0)),
    ];
    plans(&rt, &chain, &[63, 2, 1, 0], &[]);
}

// Rules 1 and 2 feed each other; rule 3 is fed from them, and rule 4 only feeds them.
#[test]
fn a_ring_and_what_it_feeds_are_held(rt: HostRuntime) {
    let ring = [
        (1, flow(&[0, 2], 1)),
        (2, flow(&[1], 2)),
        (3, flow(&[2], 3)),
        (4, flow(&[], 0)),
    ];
    plans(&rt, &ring, &[4], &[1, 2, 3]);
}

#[test]
fn a_rule_that_feeds_itself_is_held(rt: HostRuntime) {
    plans(&rt, &[(0, flow(&[0], 0)), (1, flow(&[5], 1))], &[1], &[0]);
}
