//! The laws of placing, each on the contract of a function that does nothing else than carry it.

ghost use Rattle.placing.specs.Laws.{PlacingIsLawful, CallsAreSingle, CallsSettle, EmptyIsSettled, OneResult};

/// Placing has one answer, is sound and is complete.
#[tactic(auto, using(crate::proofs::Placing::placing_is_lawful))]
pub fn placing_is_lawful()
    ensures { PlacingIsLawful }
{}

/// What adding and removing do is one thing: from one start there is one answer and one board after it.
#[tactic(auto, using(crate::proofs::Single::calls_are_single))]
pub fn calls_are_single()
    ensures { CallsAreSingle }
{}

/// A board without rules is settled, and adding and removing keep a board settled.
#[tactic(auto, using(crate::proofs::Settling::empty_settled, crate::proofs::Writing::calls_settle))]
pub fn calls_settle()
    ensures empty { EmptyIsSettled }
    ensures calls { CallsSettle }
{}

/// Two settled boards with the same rules have the same rules in force.
#[tactic(auto, using(crate::proofs::OneResult::one_result))]
pub fn settled_boards_agree()
    ensures { OneResult }
{}
