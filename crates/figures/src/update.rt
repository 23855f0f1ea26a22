//! Bringing the figures up to date: one text for every sort of figure.

ghost use Rattle.std.specs.Prelude.{◌≡◌, ℕ, ◌≤◌, length};
ghost use Rattle.figures.specs.Update.{table, told_to, asked_at, asked, worked_out, turns, updated};
ghost use Rattle.figures.specs.Working.{StepsBy};
ghost use Rattle.figures.specs.Laws.{Planned, UpdateLaws};

use crate::blanks::{Blanks, Cause};
use crate::ways::SelectedWay;
use meaning::{Calculator, Fault, RULES, read_or, write_at};
use planning::plan::Plan;

/// The table that an update works on: the figures by cell, and why each blank cell is blank.
// The figures are the caller's own slice, written in place, so each step promises (`StepsBy`) that it stays that slice.
#[derive(Drop)]
struct Working<'a, F> {
    figures: &'a mut [F],
    blanks: Blanks,
}

impl<F: Copy> Working<'_, F> {
    /// Writes what is told of an output to its cell: a figure, or a blank with the fault, and then the figure's entry stays.
    fn write_told(&mut self, told: Result<F, Fault>, cell: u8)
        ensures { StepsBy (told_to told cell) self.old self.new }
    {
        match told {
            Ok(figure) => {
                write_at(self.figures, usize::from(cell), figure);
                self.blanks.set(cell, None);
            }
            Err(fault) => self.blanks.set(cell, Some(Cause::Faulted(fault))),
        }
    }
}

/// A rule's turn: its way, with the calculator and the parameter that it is worked out with.
#[derive(Drop)]
struct Turn<'a, C: Calculator> {
    calculator: &'a C,
    way: SelectedWay,
    p: C::Figure,
}

impl<C: Calculator> Turn<'_, C> {
    /// Asks the calculator for the output at a place, and writes what it tells to the place's cell.
    fn ask_output(&self, place: u8, cell: u8, table: &mut Working<C::Figure>)
        ensures { StepsBy (asked_at (C.meaning self.now.calculator.now) self.now.way self.now.p place cell) table.old table.new }
    {
        let Turn { calculator, way, p } = self;
        // The proof does not close where the slice is lent straight from the field.
        let figures = &mut *table.figures;
        let told = calculator.work_out(way.kind, way.way, *p, figures, way.places(), place);
        table.write_told(told, cell);
    }

    /// Asks the calculator for each output of the way, in place order, over the table as it then is.
    fn ask_outputs(&self, table: &mut Working<C::Figure>)
        ensures { StepsBy (asked (C.meaning self.now.calculator.now) self.now.way self.now.p) table.old table.new }
    {
        for (place, cell) in (0..u8::MAX).zip(self.way.places()) {
            if self.way.is_output(place) {
                self.ask_output(place, *cell, table);
            }
        }
    }

    /// Works the way out: with a blank input its outputs are blank, otherwise the calculator is asked.
    fn work_out(&self, table: &mut Working<C::Figure>)
        ensures { StepsBy (worked_out (C.meaning self.now.calculator.now) self.now.way self.now.p) table.old table.new }
    {
        if table.blanks.has_blank_input(&self.way) {
            table.blanks.blank_outputs(Cause::InputBlank, &self.way);
        } else {
            self.ask_outputs(table);
        }
    }
}

/// Takes the rules' turns in their order.
fn take_turns<C: Calculator>(
    calculator: &C,
    rows: &[Option<SelectedWay>; RULES],
    parameters: &[C::Figure],
    order: &[u8],
    table: &mut Working<C::Figure>,
)
    ensures { StepsBy (turns (C.meaning calculator.now) rows.now parameters.now order.now) table.old table.new }
{
    for x in order {
        let n = usize::from(*x);
        if let Some(way) = read_or(rows, n, None) {
            let p = read_or(parameters, n, calculator.start());
            let turn = Turn { calculator, way, p };
            turn.work_out(table);
        }
    }
}

/// Brings the figures up to date: the outputs of the held rules are blank, and the ways of the planned ones are worked out in
/// plan order, each over what the ones before it left. With a blank input, or where the calculator faults, a way's
/// outputs are blank and their entries stay. No entry but those of outputs is written. A parameter that the list lacks is
/// the starting figure; a cell that the table lacks is left out.
pub fn update<C: Calculator>(
    calculator: &C,
    rows: &[Option<SelectedWay>; RULES],
    plan: &Plan,
    parameters: &[C::Figure],
    figures: &mut [C::Figure],
) -> Blanks
    ensures value { table figures.new result.causes ≡ updated (C.meaning calculator.now) rows.now parameters.now plan.now.order plan.now.held figures.old }
    ensures lawful { (n : ℕ) → Planned (C.meaning calculator.now) n rows.now plan.now.order plan.now.held → n ≤ length figures.old → UpdateLaws (C.meaning calculator.now) n rows.now parameters.now plan.now.order plan.now.held figures.old (table figures.new result.causes) }
{
    let mut blanks = Blanks::none();
    blanks.hold_all(rows, plan.held.as_slice());
    let mut table = Working { figures, blanks };
    take_turns(
        calculator,
        rows,
        parameters,
        plan.order.as_slice(),
        &mut table,
    );
    table.blanks
}
