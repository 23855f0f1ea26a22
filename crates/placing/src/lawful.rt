//! The test of a rule that is to be put on a board.

ghost use Rattle.std.specs.Prelude.{◌≡◌, true, nat_lt};
ghost use Rattle.std.specs.List.{list_all};
ghost use Rattle.placing.specs.Board.{mask_of, lawful_way, lawful_rule};

use crate::rules::{Rule, Way};

/// Whether each cell is below 64.
fn are_small(cells: &[u8]) -> bool
    ensures { result ≡ list_all (λ c. nat_lt c 64) cells.now }
{
    cells.iter().all(|cell| *cell < 64)
}

/// The set of some cells below 64, as a mask.
fn mask_of(cells: &[u8]) -> u64
    requires { list_all (λ c. nat_lt c 64) cells.now ≡ true }
    ensures { result ≡ mask_of cells.now }
{
    let mut mask = 0;
    for cell in cells {
        mask |= 1 << *cell;
    }
    mask
}

/// Whether a way has at most 6 outputs, each a cell below 64, and the mask is theirs.
fn is_lawful_way(way: &Way) -> bool
    ensures { result ≡ lawful_way way.now }
{
    let cells = way.cells();
    way.count <= 6 && are_small(cells) && way.mask == mask_of(cells)
}

/// Whether each way is lawful.
fn are_lawful(ways: &[Way]) -> bool
    ensures { result ≡ list_all lawful_way ways.now }
{
    ways.iter().all(|way| is_lawful_way(way))
}

/// Whether a rule has at most 4 ways, each lawful.
pub(crate) fn is_lawful(rule: &Rule) -> bool
    ensures { result ≡ lawful_rule rule.now }
{
    rule.count <= 4 && are_lawful(rule.listed())
}
