//! The calls of a run, and their answers.

use placing::board::Added;
use records::record::Record;
use records::refusal::Refusal;

/// A call on a sheet.
#[derive(Clone, Copy)]
pub enum Call<S, F> {
    /// Adds the rule of a record.
    Add(Record<S, F>),
    /// Removes the rule of a number.
    Remove(u8),
    /// Replaces the parameter of a rule.
    Enter { number: u8, parameter: F },
    /// Hands the open sheet over for a frozen one.
    Freeze,
    /// Hands the frozen sheet back for an open one.
    Release,
}

/// What an accepted call answers. The answer to a call is this, or its refusal.
#[derive(Clone, Copy, PartialEq, Eq, Debug)]
pub enum Done {
    Added(Added),
    Removed(u8),
    Accepted,
    Frozen,
    Released,
}

/// Why a list of calls is not carried out.
#[derive(Clone, Copy, PartialEq, Eq, Debug)]
pub enum Unperformed {
    /// The list of answers is shorter than that of the calls.
    ShortAnswers,
    /// The call at this place, counted from 0, is none that the sheet takes then: adding, removing or freezing on a frozen one,
    /// releasing an open one.
    Misplaced(usize),
    /// The opening is refused.
    NotOpened(Refusal),
}
