//! What the questions answer.

use figures::blanks::Cause;

/// What a rule is on a sheet: absent, waiting, or in force by the way of a number.
// Not a board's state, which has the way's index on the rule's list.
#[derive(Clone, Copy, PartialEq, Eq, Debug)]
pub enum RuleAnswer {
    Absent,
    Waits,
    InForceBy(u8),
}

/// What a cell shows: its figure, with the rule that gives it if there is one, or why it is blank.
#[derive(Clone, Copy, PartialEq, Eq, Debug)]
pub enum CellAnswer<F> {
    Shows { figure: F, giver: Option<u8> },
    Blank(Cause),
}
