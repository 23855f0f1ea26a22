//! The laws of this crate, each on the contract of a function that does nothing else than carry it.

ghost use Rattle.meaning.specs.Calc.{CalcLaws};
ghost use Rattle.calculators.specs.Quantities.{quantities};
ghost use Rattle.calculators.specs.Cards.{cards};
ghost use Rattle.calculators.specs.WorkedCases.{CasesHold};

/// Both calculators keep the laws of a calculator.
pub fn calculators_are_lawful()
    ensures quantities { CalcLaws quantities }
    ensures cards { CalcLaws cards }
{}

/// The worked cases come out of the definition of the quantity calculator.
pub fn worked_cases_hold()
    ensures { CasesHold }
{}
