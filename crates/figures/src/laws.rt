//! The law of updates, on the contract of a function that does nothing else than carry it.

ghost use Rattle.figures.specs.Laws.{UpdateIsLawful};

/// For every calculator, what an update over a plan leaves.
pub fn updates_are_lawful<F>()
    ensures { UpdateIsLawful F }
{}
