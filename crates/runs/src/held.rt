//! A sheet as a run holds it: open or frozen.

use sheets::sheet::{FrozenSheet, OpenSheet, Sheet};

/// The open sheet, or the frozen one.
#[derive(Drop)]
pub enum Held {
    Open(OpenSheet),
    Frozen(FrozenSheet),
}
