//! Placing on small boards: the order of the pile, the method's own published examples, and refusals.

use figures::ways::cell_bit;
use meaning::{read_or, write_at};
use placing::board::{Added, Board, Refused};
use placing::rules::{NO_WAY, RULES, Rule, State, Way};
use rankings::{Class, Classes};
use ranks::Ranks;
use std::array;
use std::process::Abort;

/// A board with the strengths of its rules.
// A board is handed ranks, and its caller keeps the strengths that they are made of.
#[derive(Drop)]
struct Desk {
    board: Board,
    classes: [u8; RULES],
    standing: u64,
}

/// A way that gives some cells, in this order.
fn giving(cells: &[u8]) -> Way {
    Way {
        number: 0,
        outputs: array::from_fn(|i| read_or(cells, i, 0)),
        count: cells.len().min(6) as u8,
        mask: cells.iter().fold(0, |mask, cell| mask | cell_bit(*cell)),
    }
}

/// A way that gives one cell.
fn one(cell: u8) -> Way {
    giving(&[cell])
}

/// A rule that lists some ways, four at most.
fn listing(ways: &[Way]) -> Rule {
    Rule {
        ways: array::from_fn(|i| read_or(ways, i, NO_WAY)),
        count: ways.len().min(4) as u8,
    }
}

impl Desk {
    fn new() -> Desk {
        Desk {
            board: Board::empty(),
            classes: [Class::Weak.into(); RULES],
            standing: 0,
        }
    }

    fn ranks(&self) -> Ranks {
        Ranks::new(&Classes, &self.classes, self.standing)
    }

    fn add(&mut self, r: u8, class: Class, rule: Rule) -> Result<Added, Refused> {
        write_at(&mut self.classes, usize::from(r), class.into());
        self.standing |= self.board.standing_with(r);
        let ranks = self.ranks();
        self.board.add(&ranks, r, rule)
    }

    fn remove(&mut self, r: u8) -> Result<u8, Refused> {
        let ranks = self.ranks();
        self.board.remove(&ranks, r)
    }

    /// Asserts that the rules from the first on are in force by these ways.
    fn is_by(&self, rt: &impl Abort, first: u8, ways: &[u8]) {
        for (r, way) in (first..64).zip(ways) {
            assert_eq!(rt; self.board.state(r), State::InForce(*way));
        }
    }
}

fn came(changed: u8) -> Result<Added, Refused> {
    Ok(Added {
        in_force: true,
        changed,
    })
}

const WAITS: Result<Added, Refused> = Ok(Added {
    in_force: false,
    changed: 0,
});

// The last output's giver is on top of the pile, so rule 1 takes cell 2 before rule 0 can.
#[test]
fn the_last_giver_is_on_top(rt: HostRuntime) {
    let mut desk = Desk::new();
    assert_eq!(rt;
        desk.add(0, Class::Strong, listing(&[one(0), one(2), one(3)])),
        came(0)
    );
    assert_eq!(rt;
        desk.add(1, Class::Strong, listing(&[one(1), one(2), one(4)])),
        came(0)
    );
    assert_eq!(rt;
        desk.add(2, Class::Strong, listing(&[giving(&[0, 1])])),
        came(2)
    );
    desk.is_by(&rt, 0, &[2, 1, 0]);
}

// A chain of two relations between two entries. The report calls both outcomes as good; the tie rule decides: of the two
// weak entries the one with the lower number holds, whatever the order of keying.
#[test]
fn of_level_entries_the_lower_number_holds(rt: HostRuntime) {
    let mut desk = Desk::new();
    assert_eq!(rt; desk.add(1, Class::Weak, listing(&[one(0)])), came(0));
    assert_eq!(rt;
        desk.add(3, Class::Medium, listing(&[one(1), one(2)])),
        came(0)
    );
    assert_eq!(rt; desk.add(4, Class::Weak, listing(&[one(2)])), came(0));
    assert_eq!(rt;
        desk.add(2, Class::Strong, listing(&[one(0), one(1)])),
        came(2)
    );
    desk.is_by(&rt, 1, &[0, 1, 1]);
    assert_eq!(rt; desk.board.state(4), State::Waiting);
}

#[test]
fn keyed_backward_the_same_rules_hold(rt: HostRuntime) {
    let mut desk = Desk::new();
    assert_eq!(rt; desk.add(4, Class::Weak, listing(&[one(2)])), came(0));
    assert_eq!(rt;
        desk.add(3, Class::Medium, listing(&[one(1), one(2)])),
        came(0)
    );
    assert_eq!(rt;
        desk.add(2, Class::Strong, listing(&[one(0), one(1)])),
        came(0)
    );
    assert_eq!(rt; desk.add(1, Class::Weak, listing(&[one(0)])), came(3));
    desk.is_by(&rt, 1, &[0, 1, 1]);
    assert_eq!(rt; desk.board.state(4), State::Waiting);
}

// One of the two entries made stronger: now it holds, though its number is the higher.
#[test]
fn a_stronger_entry_holds(rt: HostRuntime) {
    let mut desk = Desk::new();
    assert_eq!(rt; desk.add(4, Class::Weak, listing(&[one(2)])), came(0));
    assert_eq!(rt;
        desk.add(3, Class::Medium, listing(&[one(1), one(2)])),
        came(0)
    );
    assert_eq!(rt;
        desk.add(2, Class::Strong, listing(&[one(0), one(1)])),
        came(0)
    );
    assert_eq!(rt; desk.add(5, Class::Medium, listing(&[one(0)])), came(3));
    assert_eq!(rt; desk.board.state(4), State::Waiting);
    assert_eq!(rt; desk.board.state(5), State::InForce(0));
}

// A method vine that branches: a way with two outputs displaces two rules, one of which displaces a weaker one.
#[test]
fn a_vine_branches_and_puts_out_a_weaker_rule(rt: HostRuntime) {
    let mut desk = Desk::new();
    assert_eq!(rt;
        desk.add(2, Class::Strong, listing(&[one(0), giving(&[1, 2])])),
        came(0)
    );
    assert_eq!(rt;
        desk.add(3, Class::Strong, listing(&[one(2), one(1), one(3)])),
        came(0)
    );
    assert_eq!(rt;
        desk.add(4, Class::Strong, listing(&[one(1), one(4)])),
        came(0)
    );
    assert_eq!(rt; desk.add(5, Class::Weak, listing(&[one(3)])), came(0));
    assert_eq!(rt; desk.add(1, Class::Strong, listing(&[one(0)])), came(4));
    desk.is_by(&rt, 1, &[0, 1, 2, 1]);
    assert_eq!(rt; desk.board.state(5), State::Waiting);
}

// A vine that has to go back: the first other way of rule 3 leaves none for rule 5.
#[test]
fn a_vine_goes_back(rt: HostRuntime) {
    let mut desk = Desk::new();
    assert_eq!(rt;
        desk.add(2, Class::Required, listing(&[one(0), one(2)])),
        came(0)
    );
    assert_eq!(rt;
        desk.add(3, Class::Required, listing(&[one(2), one(3), one(4)])),
        came(0)
    );
    assert_eq!(rt;
        desk.add(4, Class::Required, listing(&[one(1), one(5)])),
        came(0)
    );
    assert_eq!(rt;
        desk.add(5, Class::Required, listing(&[one(5), one(3)])),
        came(0)
    );
    assert_eq!(rt;
        desk.add(1, Class::Required, listing(&[giving(&[1, 0])])),
        came(4)
    );
    desk.is_by(&rt, 1, &[0, 1, 2, 1, 1]);
}

// Of two required rules that clash one waits, and comes in force once the other is removed.
#[test]
fn a_waiting_rule_comes_back(rt: HostRuntime) {
    let mut desk = Desk::new();
    assert_eq!(rt; desk.add(0, Class::Required, listing(&[one(7)])), came(0));
    assert_eq!(rt; desk.add(1, Class::Required, listing(&[one(7)])), WAITS);
    assert_eq!(rt; desk.remove(0), Ok(1));
    assert_eq!(rt; desk.board.state(0), State::Absent);
    assert_eq!(rt; desk.board.state(1), State::InForce(0));
    assert_eq!(rt; desk.remove(1), Ok(0));
}

// The seven rules of a reel: with the weight entered the length is worked out; without the entered width, the width.
#[test]
fn seven_rules_of_a_reel(rt: HostRuntime) {
    let mut desk = Desk::new();
    assert_eq!(rt;
        desk.add(0, Class::Required, listing(&[one(2), one(0), one(1)])),
        came(0)
    );
    assert_eq!(rt;
        desk.add(1, Class::Required, listing(&[one(4), one(2)])),
        came(0)
    );
    assert_eq!(rt; desk.add(2, Class::Required, listing(&[one(5)])), came(0));
    assert_eq!(rt; desk.add(3, Class::Strong, listing(&[one(3)])), came(0));
    assert_eq!(rt; desk.add(4, Class::Strong, listing(&[one(0)])), came(0));
    assert_eq!(rt; desk.add(5, Class::Medium, listing(&[one(1)])), came(0));
    assert_eq!(rt; desk.add(6, Class::Strong, listing(&[one(4)])), came(3));
    desk.is_by(&rt, 0, &[2, 1, 0, 0, 0]);
    assert_eq!(rt; desk.board.state(5), State::Waiting);
    assert_eq!(rt; desk.remove(4), Ok(2));
    assert_eq!(rt; desk.board.state(0), State::InForce(1));
    assert_eq!(rt; desk.board.state(5), State::InForce(0));
}

#[test]
fn calls_refuse_in_order(rt: HostRuntime) {
    let mut desk = Desk::new();
    let bad = Way { mask: 1, ..one(5) };
    assert_eq!(rt;
        desk.add(64, Class::Strong, listing(&[bad])),
        Err(Refused::Number)
    );
    assert_eq!(rt;
        desk.add(0, Class::Strong, listing(&[bad])),
        Err(Refused::Ways)
    );
    assert_eq!(rt;
        desk.add(
            0,
            Class::Strong,
            Rule {
                ways: [NO_WAY; 4],
                count: 0
            }
        ),
        Err(Refused::Ways)
    );
    assert_eq!(rt;
        desk.add(
            0,
            Class::Strong,
            Rule {
                ways: [one(5); 4],
                count: 5
            }
        ),
        Err(Refused::Ways)
    );
    assert_eq!(rt;
        desk.add(0, Class::Strong, listing(&[one(64)])),
        Err(Refused::Ways)
    );
    assert_eq!(rt; desk.board.state(0), State::Absent);
    assert_eq!(rt; desk.add(0, Class::Strong, listing(&[one(5)])), came(0));
    assert_eq!(rt;
        desk.add(0, Class::Strong, listing(&[bad])),
        Err(Refused::Stands)
    );
    assert_eq!(rt; desk.remove(64), Err(Refused::Number));
    assert_eq!(rt; desk.remove(1), Err(Refused::Absent));
    assert_eq!(rt; desk.board.state(0), State::InForce(0));
}
