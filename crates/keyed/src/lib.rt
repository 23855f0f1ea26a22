//! Rules as they are keyed, for the programs: the reel's seven, three sums of which two feed each other, and a card that is
//! unpacked.

#![tactic(auto)]

ghost use Rattle.std.specs.Prelude.{◌≡◌};
ghost use Rattle.rankings.specs.Strengths.{class_byte};
ghost use Rattle.records.specs.Records.{recorded};

pub mod cards;
pub mod ring;
pub mod seven;

use rankings::Class;
use records::record::Record;

/// A rule as it is keyed: its kind, its class, its parameter P, the cells that its places name, and the ways that it lists.
// The kind is a byte, as the record has it: with the kinds of each calculator by type, the promise of `record` would have to say
// which byte they convert to.
#[derive(Clone, Copy)]
pub struct Keyed<F> {
    pub kind: u8,
    pub class: Class,
    pub p: F,
    pub places: &'static [u8],
    pub ways: &'static [u8],
}

impl<F: Copy> Keyed<F> {
    /// The record of the rule under a number.
    pub fn record(&self, number: u8) -> Record<u8, F>
        ensures { result ≡ recorded number self.now.kind self.now.places.now self.now.ways.now (class_byte self.now.class) self.now.p }
    {
        Record::new(
            number,
            self.kind,
            self.places,
            self.ways,
            self.class.into(),
            self.p,
        )
    }
}
