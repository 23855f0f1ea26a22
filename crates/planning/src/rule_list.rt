//! A list of rule numbers, at most sixty-four.

ghost use Rattle.std.specs.Prelude.{◌≡◌, ◌<◌, ◌≤◌, Some, [], ◌∷◌, ◌++◌, length};
ghost use Rattle.planning.specs.Showing.{numbers_text};

use meaning::RULES;
use std::fmt;
use std::marker::Model;

/// At most sixty-four rule numbers: the first `count` of the numbers, with zeros behind them.
// An array and a count, since a plan is plain Copy data of a fixed size and takes no memory; arrayvec's ArrayVec is not Copy.
#[derive(Clone, Copy)]
pub struct RuleList {
    numbers: [u8; RULES],
    count: usize,
}

impl Model for RuleList {
    ghost use Rattle.std.specs.Prelude.{ℕ, List, length, take};
    ghost use Rattle.planning.specs.RuleLists.{IsPadded, padded, length-padded, padded_again};

    ghost Value = { List ℕ };

    ghost view = { λ list. take list.count list.numbers };

    ghost invariant = { λ list. IsPadded list.numbers list.count };

    ghost inverse = { λ xs. record { numbers = padded xs; count = length xs } };

    ghost inverse_ok = { λ list is i. record {
      numbers = padded_again list.numbers list.count is i;
      count = length-padded list.numbers list.count is i;
    } };
}

impl RuleList {
    /// A list without numbers.
    pub(crate) fn new() -> RuleList
        ensures { result ≡ [] }
    {
        RuleList {
            numbers: [0; RULES],
            count: 0,
        }
    }

    /// Puts one number more on the list, at its end.
    // The count is the list's own, and only here does it rise.
    pub(crate) fn push(&mut self, x: u8)
        requires { length self.old < 64 }
        ensures { self.new ≡ self.old ++ x ∷ [] }
    {
        self.numbers[self.count] = x;
        self.count += 1;
    }

    /// The numbers, in their order.
    pub fn as_slice(&self) -> &[u8]
        ensures value { result.now ≡ self.now }
        ensures few { length result.now ≤ 64 }
    {
        &self.numbers[0..self.count]
    }
}

/// The numbers in their order, each with one space before it, as in ` 3 2 4`; of an empty list nothing.
impl fmt::Display for RuleList {
    ghost output = { λ list. Some (numbers_text list) };

    #[tactic(auto, using(crate::proofs::Shown::more_written, crate::proofs::Shown::all_written))]
    fn fmt<W: fmt::Write>(&self, f: &mut fmt::Formatter<W>) -> fmt::Result {
        for x in self.as_slice() {
            write!(f, " {x}")?;
        }
        Ok(())
    }
}
