//! The seven rules of the reel. Width, length, area, grammage, weight and light mark are cells 0 to 5.

use crate::Keyed;
use calculators::quantities::Kind;
use rankings::Class;

/// The number of cells.
pub const CELLS: usize = 6;

/// The rules, by number.
pub const RULES: [Keyed<i64>; 7] = [
    Keyed {
        kind: Kind::Product as u8,
        class: Class::Required,
        p: 1_000,
        places: &[0, 1, 2],
        ways: &[0, 1, 2],
    },
    Keyed {
        kind: Kind::Product as u8,
        class: Class::Required,
        p: 10_000,
        places: &[3, 2, 4],
        ways: &[0, 2],
    },
    Keyed {
        kind: Kind::Limit as u8,
        class: Class::Required,
        p: 796,
        places: &[3, 5],
        ways: &[0],
    },
    Keyed {
        kind: Kind::Entry as u8,
        class: Class::Strong,
        p: 796,
        places: &[3],
        ways: &[0],
    },
    Keyed {
        kind: Kind::Entry as u8,
        class: Class::Strong,
        p: 1_200,
        places: &[0],
        ways: &[0],
    },
    Keyed {
        kind: Kind::Entry as u8,
        class: Class::Medium,
        p: 5_000,
        places: &[1],
        ways: &[0],
    },
    Keyed {
        kind: Kind::Entry as u8,
        class: Class::Strong,
        p: 480,
        places: &[4],
        ways: &[0],
    },
];
