//! The board: the rules, and who is in force.

ghost use Rattle.std.specs.Prelude.{◌≡◌, length, Some};
ghost use Rattle.placing.specs.Board.{LawfulRules, NoTwoGivers, SelectedListed};
ghost use Rattle.placing.specs.RefusalText.{refusal_text};

use crate::rules::{RULES, Rule, State};
use std::error::Error;
use std::fmt;

/// Sixty-four rules by number, each absent, waiting, or in force by one of its listed ways. No cell has two givers.
// Two tables: a placing changes the states alone, and the laws compare states over the same rules.
#[derive(Drop)]
pub struct Board {
    pub(crate) rules: [Rule; RULES],
    pub(crate) states: [State; RULES],
    ghost sized: { length rules ≡ 64 },
    ghost stated: { length states ≡ 64 },
    ghost lawful: { LawfulRules rules },
    ghost apart: { NoTwoGivers rules states },
    ghost chosen: { SelectedListed rules states },
}

/// The answer to an addition: whether the rule is in force, and how many other rules changed on balance.
// No Option: what is promised of the number holds of a rule that waits too.
#[derive(Clone, Copy, PartialEq, Eq, Debug)]
pub struct Added {
    pub in_force: bool,
    pub changed: u8,
}

/// Why a board refuses a call, in the order of the checks.
#[derive(Clone, Copy, PartialEq, Eq, Debug)]
pub enum Refused {
    /// The rule's number is over 63.
    Number,
    /// A rule of this number stands already.
    Stands,
    /// No rule of this number stands.
    Absent,
    /// The rule lists no way or more than 4, or a way has more than 6 outputs, an output over 63, or another mask than
    /// that of its outputs.
    Ways,
}

/// A refusal prints as the reason in words.
impl fmt::Display for Refused {
    ghost output = { λ refused. Some (refusal_text refused) };

    fn fmt<W: fmt::Write>(&self, f: &mut fmt::Formatter<W>) -> fmt::Result {
        match *self {
            Refused::Number => write!(f, "the rule's number is over 63"),
            Refused::Stands => write!(f, "a rule of this number stands already"),
            Refused::Absent => write!(f, "no rule of this number stands"),
            Refused::Ways => write!(f, "the rule's ways are not lawful"),
        }
    }
}

impl Error for Refused {}
