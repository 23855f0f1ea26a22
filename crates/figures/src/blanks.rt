//! Which cells are blank, and why.

ghost use Rattle.std.specs.Prelude.{◌≡◌, not, ◌&&◌, length, replicate, Some, None, slice_set};
ghost use Rattle.meaning.specs.Masks.{bit};
ghost use Rattle.figures.specs.Blanks.{cause_number, cause_fault, cause_text, cause_at, is_blank};
ghost use Rattle.figures.specs.Update.{blanked, holds, has_blank_input};

use crate::ways::SelectedWay;
use meaning::{CELLS, Fault, RULES, read_or, write_at};
use std::fmt;

/// Why a cell is blank.
#[derive(Clone, Copy, PartialEq, Eq, Debug)]
pub enum Cause {
    /// Its giver is held.
    GiverHeld,
    /// The calculator told this fault of its giver.
    Faulted(Fault),
    /// An input of its giver is blank.
    InputBlank,
}

impl Cause {
    /// The number of the cause.
    // A variant with a fault has no discriminant to read by `as`.
    pub fn number(self) -> u8
        ensures { result ≡ cause_number self }
    {
        match self {
            Cause::GiverHeld => 1,
            Cause::Faulted(_) => 2,
            Cause::InputBlank => 3,
        }
    }

    /// The fault that is told with the cause, or 0.
    // A number and no Option: 0 is what a listing shows where there is no fault.
    pub fn fault(self) -> u8
        ensures { result ≡ cause_fault self }
    {
        match self {
            Cause::Faulted(fault) => fault.number,
            Cause::GiverHeld | Cause::InputBlank => 0,
        }
    }
}

/// A cause prints as its number and the fault, or 0, as in `2 1`.
impl fmt::Display for Cause {
    ghost output = { λ cause. Some (cause_text cause) };

    fn fmt<W: fmt::Write>(&self, f: &mut fmt::Formatter<W>) -> fmt::Result {
        write!(f, "{} {}", self.number(), self.fault())
    }
}

/// Why each blank cell is blank.
#[derive(Clone, Copy)]
pub struct Blanks {
    causes: [Option<Cause>; CELLS],
    ghost sized: { length causes ≡ 64 },
}

impl Blanks {
    /// No cell is blank.
    pub fn none() -> Blanks
        ensures { result.causes ≡ replicate 64 None }
    {
        Blanks {
            causes: [None; CELLS],
        }
    }

    /// Why a cell is blank, if it is; a cell from 64 on is not.
    pub fn cause(&self, cell: u8) -> Option<Cause>
        ensures { result ≡ cause_at self.now.causes cell }
    {
        read_or(&self.causes, usize::from(cell), None)
    }

    /// Writes why a cell is blank, or that it is not; a cell from 64 on is left out.
    pub(crate) fn set(&mut self, cell: u8, cause: Option<Cause>)
        ensures { self.new.causes ≡ slice_set self.old.causes cell cause }
    {
        write_at(&mut self.causes, usize::from(cell), cause);
    }

    /// Whether a place of a way is an input and its cell is blank.
    fn is_blank_input(&self, way: &SelectedWay, place: u8, cell: u8) -> bool
        ensures { result ≡ (not (bit way.now.outputs place) && is_blank self.now.causes cell) }
    {
        !way.is_output(place) && self.cause(cell).is_some()
    }

    /// Whether an input of a way is blank.
    pub(crate) fn has_blank_input(&self, way: &SelectedWay) -> bool
        ensures { result ≡ has_blank_input way.now self.now.causes }
    {
        (0..u8::MAX)
            .zip(way.places())
            .any(|(place, cell)| self.is_blank_input(way, place, *cell))
    }

    /// Blanks every output of a way.
    pub(crate) fn blank_outputs(&mut self, why: Cause, way: &SelectedWay)
        ensures { self.new.causes ≡ blanked why way.now self.old.causes }
    {
        for (place, cell) in (0..u8::MAX).zip(way.places()) {
            if way.is_output(place) {
                self.set(*cell, Some(why));
            }
        }
    }

    /// Blanks the outputs of the held rules.
    pub(crate) fn hold_all(&mut self, rows: &[Option<SelectedWay>; RULES], held: &[u8])
        ensures { self.new.causes ≡ holds rows.now held.now self.old.causes }
    {
        for x in held {
            if let Some(way) = read_or(rows, usize::from(*x), None) {
                self.blank_outputs(Cause::GiverHeld, &way);
            }
        }
    }
}
