//! A sheet's own copy of a rule's kind and places.

ghost use Rattle.std.specs.Prelude.{◌≡◌, ◌≤◌, length};
ghost use Rattle.records.specs.Records.{row_of, cells_in};

use crate::record::Record;
use meaning::{PLACES, front};

/// The kind of a rule and the cells that its places name, the first `count`. Its listed ways, with their outputs, stand on the
/// board.
// Plain Copy data of a fixed size, changed by value and written whole; the kind is the byte of the record.
#[derive(Clone, Copy)]
pub struct Row {
    pub kind: u8,
    pub cells: [u8; PLACES],
    pub count: u8,
}

/// A row without places.
pub const NO_ROW: Row = Row {
    kind: 0,
    cells: [0; PLACES],
    count: 0,
};

impl Row {
    /// The cells that the places name, in place order.
    pub fn places(&self) -> &[u8]
        ensures value { result.now ≡ cells_in self.now }
        ensures few { length result.now ≤ 6 }
    {
        front(&self.cells, self.count)
    }
}

/// The row of a record.
impl<S: Copy, F: Copy> From<&Record<S, F>> for Row {
    ghost from_gives = { λ rec row. row ≡ row_of rec.now };

    fn from(rec: &Record<S, F>) -> Row {
        Row {
            kind: rec.kind,
            cells: rec.places,
            count: rec.place_count,
        }
    }
}
