//! The inside of a sheet, and the two forms in which a caller holds it.

ghost use Rattle.std.specs.Prelude.{◌≡◌, ℕ, ◌≤◌, true, length};
ghost use Rattle.sheets.specs.Placed.{is_placed};

use figures::blanks::Blanks;
use meaning::RULES;
use placing::board::Board;
use records::row::Row;

/// A sheet: the number of its cells, the kind and places of each rule, the rules' listed ways and who is in force, and which
/// cells are blank as of the last update. Each place names a cell of the sheet; the board sees to it that no cell has two
/// givers and that each selected way is on its rule's list.
// Rows beside the board: a board knows ways and outputs, and neither kinds nor places.
#[derive(Drop)]
pub struct Sheet {
    pub(crate) cells: u8,
    pub(crate) rows: [Row; RULES],
    pub(crate) board: Board,
    pub(crate) blanks: Blanks,
    ghost some: { 1 ≤ cells },
    ghost few: { cells ≤ 64 },
    ghost sized: { length rows ≡ 64 },
    ghost placed: { (x : ℕ) → is_placed cells rows x ≡ true },
}

/// A sheet that takes every call.
// A type of its own beside the frozen one, so that a frozen sheet cannot be handed to a call that it does not take.
#[derive(Drop)]
pub struct OpenSheet {
    pub(crate) sheet: Sheet,
}

/// A sheet that takes entries, questions and a release.
#[derive(Drop)]
pub struct FrozenSheet {
    pub(crate) sheet: Sheet,
}
