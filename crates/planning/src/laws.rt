//! The laws of the plan, each on the contract of a function that does nothing else than carry it.

ghost use Rattle.planning.specs.Laws.{PlansAreLawful, PlansAreSingle, HeldAreRings, ReadyIsByCells};

/// A plan lists rules in force, each once, after the givers of its inputs, and leaves out exactly the rules on a ring or fed
/// from one.
#[tactic(auto, using(crate::proofs::Lawful::plans_are_lawful))]
pub fn plans_are_lawful()
    ensures { PlansAreLawful }
{}

/// The rules in force have one plan.
#[tactic(auto, using(crate::proofs::Lawful::plans_are_single))]
pub fn plans_are_single()
    ensures { PlansAreSingle }
{}

/// The held rules are the rules on a ring or fed from one, by rising number.
#[tactic(auto, using(crate::proofs::Held::held_are_rings))]
pub fn held_are_rings()
    ensures { HeldAreRings }
{}

/// Where no cell has two givers, a rule is ready exactly if its every input has a planned giver or no giver.
#[tactic(auto, using(crate::proofs::Supplying::ready_is_by_cells))]
pub fn ready_is_by_cells()
    ensures { ReadyIsByCells }
{}
