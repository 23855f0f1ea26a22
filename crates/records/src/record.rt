//! A rule record as the caller hands it.

ghost use Rattle.std.specs.Prelude.{◌≡◌, ◌≤◌, length, min};
ghost use Rattle.records.specs.Records.{padded, recorded, places_in, ways_in};

use meaning::{PLACES, WAYS, front, read_or};
use std::array;

/// A rule record: the rule's number, its kind, the cells that its places name (the first `place_count`), the ways that it
/// lists, in their order (the first `way_count`), its strength and its parameter. A count over 6, or over 4, says that
/// there were more than any kind has.
// Counts beside arrays: a record is plain Copy data of a fixed size, and what a count says beyond it is refused. The kind is a
// byte, since one that the calculator does not have is refused too.
#[derive(Clone, Copy)]
pub struct Record<S, F> {
    pub number: u8,
    pub kind: u8,
    pub places: [u8; PLACES],
    pub place_count: u8,
    pub ways: [u8; WAYS],
    pub way_count: u8,
    pub strength: S,
    pub parameter: F,
}

impl<S: Copy, F: Copy> Record<S, F> {
    /// The record of a rule on lists of any length. Of more than six places, or four ways, the first ones are kept with the
    /// count, at most 255.
    pub fn new(
        number: u8,
        kind: u8,
        places: &[u8],
        ways: &[u8],
        strength: S,
        parameter: F,
    ) -> Record<S, F>
        ensures { result ≡ recorded number kind places.now ways.now strength parameter }
    {
        Record {
            number,
            kind,
            places: kept(places),
            place_count: count_of(places),
            ways: kept(ways),
            way_count: count_of(ways),
            strength,
            parameter,
        }
    }

    /// The cells that the places name, in place order.
    pub fn places(&self) -> &[u8]
        ensures value { result.now ≡ places_in self.now }
        ensures few { length result.now ≤ 6 }
    {
        front(&self.places, self.place_count)
    }

    /// The ways that the record lists, in their order.
    pub fn ways(&self) -> &[u8]
        ensures value { result.now ≡ ways_in self.now }
        ensures few { length result.now ≤ 4 }
    {
        front(&self.ways, self.way_count)
    }
}

/// The first N numbers of a list, filled up with 0 where there are fewer.
fn kept<const N: usize>(items: &[u8]) -> [u8; N]
    ensures { result ≡ padded N 0 items.now }
{
    array::from_fn(|i| read_or(items, i, 0))
}

/// The length of a list, at most 255.
fn count_of(items: &[u8]) -> u8
    ensures { result ≡ min (length items.now) 255 }
{
    items.len().min(255) as u8
}
