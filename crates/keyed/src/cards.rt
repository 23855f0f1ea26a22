//! A card that is entered and unpacked: card, furnish, coat and core are cells 0 to 3.

use crate::Keyed;
use calculators::cards::{CardFigure, Kind, START};
use rankings::Class;

/// The number of cells.
pub const CELLS: usize = 4;

/// The rules, by number.
pub const RULES: [Keyed<CardFigure>; 2] = [
    Keyed {
        kind: Kind::Entry as u8,
        class: Class::Required,
        p: CardFigure::Card {
            furnish: 12,
            coat: 340,
            core: 999,
        },
        places: &[0],
        ways: &[0],
    },
    Keyed {
        kind: Kind::Pack as u8,
        class: Class::Required,
        p: START,
        places: &[0, 1, 2, 3],
        ways: &[0],
    },
];
