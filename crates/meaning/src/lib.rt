//! What a ranking and a calculator are, for code that serves every one of them.

#![tactic(auto)]

ghost use Rattle.std.specs.Prelude.{◌≡◌, ◌≤◌, length, take, slice_index_or, slice_set};
ghost use Rattle.meaning.specs.Ranks.{Ranks, RankLaws};
ghost use Rattle.meaning.specs.Calc.{Calc, CalcLaws, figure_at, tells};

pub mod masks;

use std::cmp::Ordering;

/// The number of rule numbers, from 0.
pub const RULES: usize = 64;

/// The most cells that there can be, numbered from 0.
pub const CELLS: usize = 64;

/// The most places that a kind has.
pub const PLACES: usize = 6;

/// The most ways that a kind has.
pub const WAYS: usize = 4;

/// Why a way gives no figures: a number from 1, whose sense each calculator fixes.
// A number and no enum: each calculator has its own faults, and what shows a fault knows its number alone.
#[derive(Clone, Copy, PartialEq, Eq, Debug)]
pub struct Fault {
    pub number: u8,
}

/// A ranking of strengths. Every method tells its part of the one meaning, and changes nothing.
pub trait Ranking {
    type Strength: Copy;

    ghost meaning: { Self → Ranks Self.Strength };

    /// Whether the ranking knows the strength.
    fn knows(&self, strength: Self::Strength) -> bool
        ensures { result ≡ (meaning self.now).known strength };

    /// How the first strength ranks beside the second: less is before it, equal is level with it, greater is after it.
    fn compare(&self, first: Self::Strength, second: Self::Strength) -> Ordering
        ensures { result ≡ (meaning self.now).order first second };

    ghost lawful: { (r : Self) → RankLaws (meaning r) };
}

/// A calculator. Every method tells its part of the one meaning, and changes nothing.
// Kinds and ways are bytes: a rule can name any, and what is answered of those that there are not is promised too. They are two
// parameters: a method asks for both or for one, and a struct would be taken apart in every implementation.
pub trait Calculator {
    type Figure: Copy;

    const KINDS: u8;

    ghost meaning: { Self → Calc Self.Figure };

    /// The figure that each cell of a new sheet has.
    fn start(&self) -> Self::Figure
        ensures { result ≡ (meaning self.now).start };

    /// Whether the calculator takes the figure.
    fn takes(&self, figure: Self::Figure) -> bool
        ensures { result ≡ (meaning self.now).takes figure };

    /// The number of kinds. An implementation answers its `KINDS`; what is promised is the meaning's number.
    fn kind_count(&self) -> u8
        ensures { result ≡ (meaning self.now).kinds };

    fn place_count(&self, kind: u8) -> u8
        ensures { result ≡ (meaning self.now).places kind };

    fn way_count(&self, kind: u8) -> u8
        ensures { result ≡ (meaning self.now).ways kind };

    /// Whether the place is an output of the way.
    fn is_output(&self, kind: u8, way: u8, place: u8) -> bool
        ensures { result ≡ (meaning self.now).output kind way place };

    /// The figure of one output, or the fault of the whole way. The inputs are read from the table at the cells that
    /// the places name.
    fn work_out(
        &self,
        kind: u8,
        way: u8,
        p: Self::Figure,
        table: &[Self::Figure],
        places: &[u8],
        output: u8,
    ) -> Result<Self::Figure, Fault>
        ensures { result ≡ tells (meaning self.now) kind way p table.now places.now output };

    ghost lawful: { (c : Self) → CalcLaws (meaning c) };
}

/// The element at an index, or the default past the end.
pub fn read_or<T: Copy>(items: &[T], i: usize, default: T) -> T
    ensures { result ≡ slice_index_or items.now i default }
{
    items.get(i).copied().unwrap_or(default)
}

/// Writes the element at an index; past the end nothing is written.
// By index: of a write through a slice's `get_mut` a proof knows the length alone.
pub fn write_at<T: Copy>(items: &mut [T], at: usize, item: T)
    ensures { items.new ≡ slice_set items.old at item }
{
    if at < items.len() {
        items[at] = item;
    }
}

/// The first `count` of the items, or all of them where there are fewer.
pub fn front<T>(items: &[T], count: u8) -> &[T]
    ensures value { result.now ≡ take count items.now }
    ensures few { length result.now ≤ 255 }
{
    items.get(..usize::from(count)).unwrap_or(items)
}

/// The figure at a place of a rule: that of the cell which the place names, or `start` where the list of places or the
/// table is too short.
pub fn figure_at<F: Copy>(start: F, table: &[F], places: &[u8], place: u8) -> F
    ensures { result ≡ figure_at start table.now places.now place }
{
    places
        .get(usize::from(place))
        .map_or(start, |cell| read_or(table, usize::from(*cell), start))
}

#[cfg(test)]
mod tests;
