//! How the answer to an addition and a board are shown.

ghost use Rattle.std.specs.Prelude.{Some};
ghost use Rattle.placing.specs.Showing.{added_text, rule_text_on, board_text};

use crate::board::{Added, Board};
use crate::rules::State;
use std::fmt;

/// As in `in force, 3 changed` or `waits, 0 changed`.
impl fmt::Display for Added {
    ghost output = { λ added. Some (added_text added) };

    fn fmt<W: fmt::Write>(&self, f: &mut fmt::Formatter<W>) -> fmt::Result {
        let word = if self.in_force { "in force" } else { "waits" };
        write!(f, "{word}, {} changed", self.changed)
    }
}

/// One rule of a board.
#[derive(Clone, Copy)]
struct RuleOn<'a> {
    board: &'a Board,
    x: u8,
}

/// As in `; 0 by way 2` or `; 5 waits`; of an absent rule nothing.
impl fmt::Display for RuleOn<'_> {
    ghost output = { λ shown. Some (rule_text_on shown.board.now.rules shown.board.now.states shown.x) };

    fn fmt<W: fmt::Write>(&self, f: &mut fmt::Formatter<W>) -> fmt::Result {
        match (self.board.way(self.x), self.board.state(self.x)) {
            (Some(way), _) => write!(f, "; {} by way {}", self.x, way.number),
            (None, State::Waiting) => write!(f, "; {} waits", self.x),
            (None, _) => Ok(()),
        }
    }
}

/// The standing rules by rising number, as in `; 0 by way 2; 5 waits`.
impl fmt::Display for Board {
    ghost output = { λ board. Some (board_text board.rules board.states) };

    #[tactic(auto, using(crate::proofs::Shown::more_written, crate::proofs::Shown::board_written))]
    fn fmt<W: fmt::Write>(&self, f: &mut fmt::Formatter<W>) -> fmt::Result {
        for x in 0..64u8 {
            write!(f, "{}", RuleOn { board: self, x })?;
        }
        Ok(())
    }
}
