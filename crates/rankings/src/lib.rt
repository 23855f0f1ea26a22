//! The two rankings of the mill: by class, and by delivery day and then class.

#![tactic(auto)]

ghost use Rattle.std.specs.Prelude.{◌≡◌};
ghost use Rattle.meaning.specs.Ranks.{RankLaws};
ghost use Rattle.rankings.specs.Strengths.{class_byte, Reads, class_ranks, dated_ranks};
ghost use Rattle.std.proofs.Common.{rules};

use meaning::Ranking;
use std::cmp::Ordering;

/// The classes, from the strongest to the weakest.
#[derive(Clone, Copy, PartialEq, Eq, Debug)]
pub enum Class {
    Required,
    Strong,
    Medium,
    Weak,
}

/// A byte that is none of the classes.
#[derive(Clone, Copy, PartialEq, Eq, Debug)]
pub struct UnknownClass(pub u8);

impl TryFrom<u8> for Class {
    type Error = UnknownClass;

    ghost try_from_gives = { Reads };

    fn try_from(byte: u8) -> Result<Class, UnknownClass> {
        match byte {
            0 => Ok(Class::Required),
            1 => Ok(Class::Strong),
            2 => Ok(Class::Medium),
            3 => Ok(Class::Weak),
            _ => Err(UnknownClass(byte)),
        }
    }
}

impl From<Class> for u8 {
    ghost from_gives = { λ class byte. byte ≡ class_byte class };

    fn from(class: Class) -> u8 {
        class as u8
    }
}

/// A delivery day and a class. The earlier day is before, and on one day the lower class. A class is kept as the byte that
/// was keyed, so that the ranking can refuse one that is unknown.
#[derive(Clone, Copy, PartialEq, Eq, PartialOrd, Ord, Debug)]
pub struct DatedStrength {
    pub day: u16,
    pub class: u8,
}

/// Ranks by class alone: the lower class is before. It knows the four classes and nothing else.
// A strength is the byte of its class: one that is unknown reaches the ranking, and is refused by what it knows.
#[derive(Clone, Copy, Debug)]
pub struct Classes;

impl Ranking for Classes {
    type Strength = u8;

    ghost meaning = { λ _. class_ranks };

    ghost lawful = { Prim.search rules };

    fn knows(&self, strength: u8) -> bool {
        Class::try_from(strength).is_ok()
    }

    fn compare(&self, first: u8, second: u8) -> Ordering {
        first.cmp(&second)
    }
}

/// Ranks by delivery day, the earlier before, and on one day by class. It knows every day with one of the four classes.
#[derive(Clone, Copy, Debug)]
pub struct Dated;

impl Ranking for Dated {
    type Strength = DatedStrength;

    ghost meaning = { λ _. dated_ranks };

    ghost lawful = { Prim.search rules };

    fn knows(&self, strength: DatedStrength) -> bool {
        Class::try_from(strength.class).is_ok()
    }

    fn compare(&self, first: DatedStrength, second: DatedStrength) -> Ordering {
        first.cmp(&second)
    }
}

/// Carries the law that both rankings keep the laws of a ranking. It does nothing.
pub fn rankings_are_lawful()
    ensures classes { RankLaws class_ranks }
    ensures dated { RankLaws dated_ranks }
{}

#[cfg(test)]
mod tests;
