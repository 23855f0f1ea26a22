//! Three sums, of which the first two feed each other and the third is fed from the first.

use crate::Keyed;
use calculators::quantities::Kind;
use rankings::Class;

/// The number of cells.
pub const CELLS: usize = 5;

/// The rules, by number.
pub const RULES: [Keyed<i64>; 3] = [
    Keyed {
        kind: Kind::Sum as u8,
        class: Class::Required,
        p: 0,
        places: &[0, 1, 2],
        ways: &[0],
    },
    Keyed {
        kind: Kind::Sum as u8,
        class: Class::Required,
        p: 0,
        places: &[2, 3, 1],
        ways: &[0],
    },
    Keyed {
        kind: Kind::Sum as u8,
        class: Class::Required,
        p: 0,
        places: &[2, 0, 4],
        ways: &[0],
    },
];
