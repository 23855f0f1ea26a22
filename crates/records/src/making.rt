//! What a board and working out see of a record under a calculator.

ghost use Rattle.std.specs.Prelude.{◌≡◌, slice_index_or};
ghost use Rattle.placing.specs.Board.{no_way};
ghost use Rattle.records.specs.Records.{padded, places_in, cells_in};
ghost use Rattle.records.specs.Making.{rule_of, listed_ways, way_on, with_output as with_output_of, places_among as places_among_of, selected_by};

use crate::record::Record;
use crate::row::Row;
use figures::ways::{SelectedWay, cell_bit};
use meaning::masks::has_bit;
use meaning::{Calculator, PLACES, WAYS};
use placing::rules::{NO_WAY, Rule, Way};
use std::array;

impl<S: Copy, F: Copy> Record<S, F> {
    /// What a board sees of the record: its listed ways with their outputs, the first four, and the record's count of ways.
    pub fn rule<C: Calculator<Figure = F>>(&self, calculator: &C) -> Rule
        ensures { result ≡ rule_of (C.meaning calculator.now) self.now }
    {
        Rule {
            ways: self.four_ways(calculator),
            count: self.way_count,
        }
    }

    /// The listed ways, the first four, filled up with ways that give nothing.
    fn four_ways<C: Calculator<Figure = F>>(&self, calculator: &C) -> [Way; WAYS]
        ensures { result ≡ padded 4 no_way (listed_ways (C.meaning calculator.now) self.now) }
    {
        array::from_fn(|i| self.listed_way(calculator, i))
    }

    /// The listed way at an index, or one that gives nothing past the end.
    fn listed_way<C: Calculator<Figure = F>>(&self, calculator: &C, i: usize) -> Way
        ensures { result ≡ slice_index_or (listed_ways (C.meaning calculator.now) self.now) i no_way }
    {
        self.ways()
            .get(i)
            .map_or(NO_WAY, |number| self.way(calculator, *number))
    }

    /// A way of the record's kind: the cells at its output places, in place order, and their set.
    fn way<C: Calculator<Figure = F>>(&self, calculator: &C, number: u8) -> Way
        ensures { result ≡ way_on (C.meaning calculator.now) self.now.kind (places_in self.now) number }
    {
        (0..PLACES as u8)
            .zip(self.places())
            .filter(|(place, _)| calculator.is_output(self.kind, number, *place))
            .fold(Way { number, ..NO_WAY }, |way, (_, cell)| {
                with_output(way, *cell)
            })
    }
}

impl Row {
    /// The rule of the row, in force by a listed way: a place is an output if the way gives its cell.
    pub fn selected(&self, way: &Way) -> SelectedWay
        ensures { result ≡ selected_by self.now way.now }
    {
        SelectedWay {
            kind: self.kind,
            way: way.number,
            cells: self.cells,
            count: self.count,
            outputs: self.places_among(way.mask),
        }
    }

    /// The mask of the places whose cells are in a set.
    fn places_among(&self, cells: u64) -> u8
        ensures { result ≡ places_among_of cells 0 (cells_in self.now) }
    {
        (0..PLACES as u8)
            .map(|place| 1 << place)
            .zip(self.places())
            .filter(|(_, cell)| has_bit(cells, **cell))
            .fold(0, |among, (place, _)| among | place)
    }
}

/// A way with one output more, if it has fewer than six; a cell from 64 on is in no set.
fn with_output(way: Way, cell: u8) -> Way
    ensures { result ≡ with_output_of way cell }
{
    if usize::from(way.count) >= PLACES {
        return way;
    }
    // A way is plain Copy data of fixed size, so an output is added by a write at the count.
    let mut outputs = way.outputs;
    outputs[usize::from(way.count)] = cell;
    Way {
        number: way.number,
        outputs,
        count: way.count + 1,
        mask: way.mask | cell_bit(cell),
    }
}
