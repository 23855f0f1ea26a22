//! The selected way of a rule in force, as working out sees it.

ghost use Rattle.std.specs.Prelude.{◌≡◌, ◌<◌, ◌≤◌, length, None, slice_index_or};
ghost use Rattle.std.specs.Option.{option_map};
ghost use Rattle.meaning.specs.Masks.{bit};
ghost use Rattle.figures.specs.Ways.{places_of, cell_bit, with_cell, flow_of, flows_of};

pub use meaning::PLACES;
use meaning::masks::has_bit;
use meaning::{RULES, front};
use planning::flows::Flow;
use std::array;

/// The selected way of a rule in force: the kind, the way's number, the cells that the places name (the first `count`),
/// and the mask of the outputs, in which bit i stands for place i.
// Not a record's row with a way, since updates know no records.
// Rows are plain `Copy` data of a fixed size, so the cells stand in an array beside their number.
// The kind and the way are bytes, since a rule can name any number for them.
#[derive(Clone, Copy)]
pub struct SelectedWay {
    pub kind: u8,
    pub way: u8,
    pub cells: [u8; PLACES],
    pub count: u8,
    pub outputs: u8,
}

impl SelectedWay {
    /// The cells that the places name, in place order.
    pub fn places(&self) -> &[u8]
        ensures value { result.now ≡ places_of self.now }
        ensures few { length result.now ≤ 6 }
    {
        front(&self.cells, self.count)
    }

    /// Whether a place is an output of the way.
    pub fn is_output(&self, place: u8) -> bool
        ensures { result ≡ bit self.now.outputs place }
    {
        has_bit(u64::from(self.outputs), place)
    }

    /// The cells that the way reads and gives. A cell from 64 on is left out.
    pub fn flow(&self) -> Flow
        ensures { result ≡ flow_of self.now }
    {
        let mut flow = Flow {
            inputs: 0,
            outputs: 0,
        };
        for (place, cell) in (0..u8::MAX).zip(self.places()) {
            flow = with_cell(flow, self.is_output(place), *cell);
        }
        flow
    }
}

/// The set of one cell; a cell from 64 on is in no set.
pub fn cell_bit(cell: u8) -> u64
    ensures { result ≡ cell_bit cell }
{
    1u64.checked_shl(u32::from(cell)).unwrap_or(0)
}

/// One cell more, given or read.
fn with_cell(flow: Flow, is_output: bool, cell: u8) -> Flow
    ensures { result ≡ with_cell is_output cell flow }
{
    if is_output {
        Flow {
            outputs: cell_bit(cell) | flow.outputs,
            ..flow
        }
    } else {
        Flow {
            inputs: cell_bit(cell) | flow.inputs,
            ..flow
        }
    }
}

/// What planning sees of the rules in force.
pub fn flows(rows: &[Option<SelectedWay>; RULES]) -> [Option<Flow>; RULES]
    ensures { result ≡ flows_of rows.now }
{
    array::from_fn(
        |x|
            requires { x < 64 }
            ensures { result ≡ option_map flow_of (slice_index_or rows.entry.now x None) }
        { rows[x].map(|way| way.flow()) },
    )
}
