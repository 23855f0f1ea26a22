//! A rule in force, as far as planning sees it.

/// The selected way of a rule in force: the cells that it reads and the cells that it gives, as masks.
#[derive(Clone, Copy, PartialEq, Eq, Debug)]
pub struct Flow {
    pub inputs: u64,
    pub outputs: u64,
}
