//! The rules of a board: their listed ways, whether each is in force, and the marks of a search.

ghost use Rattle.std.specs.Prelude.{◌≡◌, ◌<◌, ◌≤◌, length, slice_index_or, slice_set};
ghost use Rattle.placing.specs.Board.{no_way, cells_of, ways_of, is_standing, is_waiting, given};
ghost use Rattle.placing.specs.Search.{marked};

use meaning::{front, write_at};
pub use ranks::RULES;

/// One listed way of a rule: its number, and its outputs in place order and as a mask of cells.
// The count stands beside the outputs: a way is plain Copy data of fixed size, and `Refused::Ways` refuses a count over 6.
#[derive(Clone, Copy)]
pub struct Way {
    pub number: u8,
    pub outputs: [u8; 6],
    pub count: u8,
    pub mask: u64,
}

/// A way that gives nothing.
pub const NO_WAY: Way = Way {
    number: 0,
    outputs: [0; 6],
    count: 0,
    mask: 0,
};

/// A rule that lists no way.
pub const NO_RULE: Rule = Rule {
    ways: [NO_WAY; 4],
    count: 0,
};

/// The listed ways of a rule, in their order.
// The count stands beside the ways: a rule is plain Copy data of fixed size, and `Refused::Ways` refuses a count over 4.
#[derive(Clone, Copy)]
pub struct Rule {
    pub ways: [Way; 4],
    pub count: u8,
}

impl Way {
    /// The outputs, in place order: the first `count` of the six.
    pub(crate) fn cells(&self) -> &[u8]
        ensures value { result.now ≡ cells_of self.now }
        ensures few { length result.now ≤ 6 }
    {
        front(&self.outputs, self.count)
    }
}

impl Rule {
    /// The listed ways: the first `count` of the four.
    pub(crate) fn listed(&self) -> &[Way]
        ensures value { result.now ≡ ways_of self.now }
        ensures few { length result.now ≤ 255 }
    {
        front(&self.ways, self.count)
    }

    /// The listed way at an index, or one that gives nothing.
    pub(crate) fn way(&self, i: u8) -> Way
        ensures { result ≡ slice_index_or (ways_of self.now) i no_way }
    {
        self.listed().get(usize::from(i)).copied().unwrap_or(NO_WAY)
    }

    /// The cells that the rule gives in a state.
    pub(crate) fn given(&self, state: State) -> u64
        ensures { result ≡ given self.now state }
    {
        match state {
            State::Absent | State::Waiting => 0,
            State::InForce(i) => self.way(i).mask,
        }
    }
}

/// What a rule is on the board: not there, waiting, or in force by the listed way at an index.
#[derive(Clone, Copy, PartialEq, Eq, Debug)]
pub enum State {
    Absent,
    Waiting,
    InForce(u8),
}

// The first two are one `matches!` each, under the names that clauses use.
impl State {
    /// Whether the rule is on the board.
    pub(crate) fn is_standing(self) -> bool
        ensures { result ≡ is_standing self }
    {
        !matches!(self, State::Absent)
    }

    /// Whether the rule waits.
    pub(crate) fn is_waiting(self) -> bool
        ensures { result ≡ is_waiting self }
    {
        matches!(self, State::Waiting)
    }

    /// What a mark makes of the rule.
    pub(crate) fn marked(self, mark: Mark) -> State
        ensures { result ≡ marked self mark }
    {
        match mark {
            Mark::PutOut => State::Waiting,
            Mark::Fresh => self,
            Mark::Tried(i) => State::InForce(i),
        }
    }
}

/// What a search has done with a rule: put it out of force, nothing, or tried the listed way at an index.
#[derive(Clone, Copy)]
pub enum Mark {
    PutOut,
    Fresh,
    Tried(u8),
}

/// A table by rule with one entry written; past the table none is.
pub(crate) fn written<T: Copy>(items: &[T; RULES], x: u8, item: T) -> [T; RULES]
    ensures { result ≡ slice_set items.now x item }
{
    let mut after = *items;
    write_at(&mut after, usize::from(x), item);
    after
}
