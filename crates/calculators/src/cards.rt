//! The card calculator: codes, and cards of three codes; entry and pack.

ghost use Rattle.std.specs.Prelude.{◌≡◌, ℕ, true, Some};
ghost use Rattle.meaning.specs.Calc.{told};
ghost use Rattle.calculators.specs.Forms.{lawful_forms};
ghost use Rattle.calculators.specs.Cards.{card_kind_number, numbered_card_kind, is_code, card_fault_number, unpack, pack, card_forms, cards};
ghost use Rattle.calculators.specs.CardText.{card_text};
ghost use Rattle.calculators.specs.CardLaws.{cards_lawful};

use crate::forms::{Form, Forms};
use meaning::{Calculator, Fault, figure_at};
use std::fmt;

/// The kinds of rules, by their numbers.
#[derive(Clone, Copy, PartialEq, Eq, Debug)]
pub enum Kind {
    /// The one place gets P.
    Entry = 0,
    /// A card and its three codes.
    Pack = 1,
}

/// The number by which a rule names the kind.
impl From<Kind> for u8 {
    ghost from_gives = { λ kind number. number ≡ card_kind_number kind };

    fn from(kind: Kind) -> u8 {
        kind as u8
    }
}

/// The kind that has the number, if one does.
impl TryFrom<u8> for Kind {
    type Error = CardFault;

    ghost try_from_gives = { λ number result. result ≡ numbered_card_kind number };

    fn try_from(number: u8) -> Result<Self, CardFault> {
        match number {
            0 => Ok(Kind::Entry),
            1 => Ok(Kind::Pack),
            _ => Err(CardFault::NoSuchWay),
        }
    }
}

/// The greatest code.
pub const GREATEST_CODE: u16 = 999;

/// Kind by way: places, ways and output masks. Bit 0 of a mask is the card, bits 1 to 3 are furnish, coat and core.
const FORMS: Forms<2> = Forms {
    by_kind: [
        Form {
            places: 1,
            ways: 1,
            outputs: [0b0001, 0, 0, 0],
        },
        Form {
            places: 4,
            ways: 2,
            outputs: [0b1110, 0b0001, 0, 0],
        },
    ],
};

/// A code, or a card of three codes.
#[derive(Clone, Copy, PartialEq, Eq, Debug)]
pub enum CardFigure {
    Code(u16),
    Card { furnish: u16, coat: u16, core: u16 },
}

/// A code prints as `code 7`, a card as `card 1 2 3`: furnish, coat and core.
impl fmt::Display for CardFigure {
    ghost output = { λ figure. Some (card_text figure) };

    fn fmt<W: fmt::Write>(&self, f: &mut fmt::Formatter<W>) -> fmt::Result {
        match *self {
            CardFigure::Code(code) => write!(f, "code {code}"),
            CardFigure::Card {
                furnish,
                coat,
                core,
            } => write!(f, "card {furnish} {coat} {core}"),
        }
    }
}

/// The starting figure.
pub const START: CardFigure = CardFigure::Code(0);

/// Why a card way gives no figures.
#[derive(Clone, Copy, PartialEq, Eq, Debug)]
pub enum CardFault {
    /// Pack met a card for a code, or a code for a card.
    Mismatch = 1,
    /// There is no such kind, or no such way of the kind.
    NoSuchWay = 255,
}

impl CardFault {
    /// The number by which a sheet tells the fault.
    // Beside `From`: who shows a fault asks for the number alone, and it is one `as`.
    pub fn number(self) -> u8
        ensures { result ≡ card_fault_number self }
    {
        self as u8
    }
}

/// A calculator tells a fault by its number.
// As in `quantities`: each fault enum has its own numbers, and one conversion over both would need a trait for them.
impl From<CardFault> for Fault {
    ghost from_gives = { λ fault told. told.number ≡ card_fault_number fault };

    fn from(fault: CardFault) -> Fault {
        Fault {
            number: fault.number(),
        }
    }
}

/// The table of the kinds' forms. It passes the test of a lawful table.
// A function for each calculator: each promises its own table.
pub fn card_forms() -> [Form; 2]
    ensures value { result ≡ card_forms }
    ensures lawful { lawful_forms result ≡ true }
{
    FORMS.by_kind
}

/// Whether a number is a code.
fn is_code(code: u16) -> bool
    ensures { result ≡ is_code code }
{
    code <= GREATEST_CODE
}

/// One of the codes of a card: furnish at place 1, coat at 2, core at 3.
fn unpacked(card: CardFigure, output: u8) -> Result<CardFigure, Fault>
    ensures { result ≡ told (unpack card) output }
{
    match card {
        CardFigure::Card {
            furnish,
            coat,
            core,
        } => Ok(CardFigure::Code(match output {
            1 => furnish,
            2 => coat,
            _ => core,
        })),
        CardFigure::Code(_) => Err(CardFault::Mismatch.into()),
    }
}

/// The card of three codes.
fn packed(furnish: CardFigure, coat: CardFigure, core: CardFigure) -> Result<CardFigure, Fault>
    ensures { (output : ℕ) → result ≡ told (pack furnish coat core) output }
{
    match (furnish, coat, core) {
        (CardFigure::Code(furnish), CardFigure::Code(coat), CardFigure::Code(core)) => Ok(
            CardFigure::Card {
                furnish,
                coat,
                core,
            },
        ),
        _ => Err(CardFault::Mismatch.into()),
    }
}

/// The card calculator.
#[derive(Clone, Copy, Debug)]
pub struct Cards;

impl Calculator for Cards {
    type Figure = CardFigure;

    const KINDS: u8 = 2;

    ghost meaning = { λ _. cards };

    ghost lawful = { λ c. cards_lawful };

    fn start(&self) -> CardFigure {
        START
    }

    fn takes(&self, figure: CardFigure) -> bool {
        match figure {
            CardFigure::Code(code) => is_code(code),
            CardFigure::Card {
                furnish,
                coat,
                core,
            } => is_code(furnish) && is_code(coat) && is_code(core),
        }
    }

    // The same lines as in `Quantities`: the trait asks for each number by itself, and the table answers.
    fn kind_count(&self) -> u8 {
        Self::KINDS
    }

    fn place_count(&self, kind: u8) -> u8 {
        FORMS.place_count(kind)
    }

    fn way_count(&self, kind: u8) -> u8 {
        FORMS.way_count(kind)
    }

    fn is_output(&self, kind: u8, way: u8, place: u8) -> bool {
        FORMS.is_output(kind, way, place)
    }

    // The kind is any byte, as the trait has it.
    fn work_out(
        &self,
        kind: u8,
        way: u8,
        p: CardFigure,
        table: &[CardFigure],
        places: &[u8],
        output: u8,
    ) -> Result<CardFigure, Fault> {
        let at = |place: u8| figure_at(START, table, places, place);
        // Ways stay numbers, as in `quantities`: the trait asks for any byte.
        match (Kind::try_from(kind)?, way) {
            (Kind::Entry, 0) => Ok(p),
            (Kind::Pack, 0) => unpacked(at(0), output),
            (Kind::Pack, 1) => packed(at(1), at(2), at(3)),
            _ => Err(CardFault::NoSuchWay.into()),
        }
    }
}
