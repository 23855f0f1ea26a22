//! A reel of 480 kilos, 1,200 wide. First it is worked out step by step by the quantity calculator alone, at its true
//! grammage of 79.6 and at the rounded 80.0; then its seven rules are put on a board one by one.

#![tactic(auto)]

ghost use Rattle.std.specs.Prelude.{◌≡◌};
ghost use Rattle.meaning.specs.Calc.{tells};
ghost use Rattle.calculators.specs.Quantities.{kind_number, quantities};

mod seven;

use calculators::quantities::{Kind, Quantities};
use meaning::{Calculator, Fault, figure_at, write_at};
use std::io;

/// The cells of the reel. Grammage is kept in tenths of a gram.
const NAMES: [&str; 6] = [
    "width",
    "length",
    "area",
    "grammage",
    "weight",
    "light mark",
];

/// A rule of the reel, the way by which it is worked out, and the place that this way gives.
// Beside the seven rules as they are keyed: a step names its way and its output, and one is tried under another P.
#[derive(Clone, Copy)]
struct Rule {
    kind: Kind,
    way: u8,
    p: i64,
    places: &'static [u8],
    output: u8,
}

/// Grammage × area ÷ 10,000 is the weight: here the area comes from the other two.
const AREA: Rule = Rule {
    kind: Kind::Product,
    way: 2,
    p: 10_000,
    places: &[3, 2, 4],
    output: 1,
};

/// Width × length ÷ 1,000 is the area: here the length comes from the other two.
const LENGTH: Rule = Rule {
    kind: Kind::Product,
    way: 2,
    p: 1_000,
    places: &[0, 1, 2],
    output: 1,
};

/// The light mark is 1 if the grammage is under P.
const MARK: Rule = Rule {
    kind: Kind::Limit,
    way: 0,
    p: 796,
    places: &[3, 5],
    output: 1,
};

impl Rule {
    /// What the rule makes of the figures in the table.
    fn worked_out(&self, table: &[i64]) -> Result<i64, Fault>
        ensures { result ≡ tells quantities (kind_number self.now.kind) self.now.way self.now.p table.now self.now.places.now self.now.output }
    {
        Quantities.work_out(
            self.kind.into(),
            self.way,
            self.p,
            table,
            self.places,
            self.output,
        )
    }

    /// The cell at a place, if the rule has the place.
    fn cell_at(&self, place: u8) -> Option<usize> {
        let cell = self.places.get(usize::from(place))?;
        Some(usize::from(*cell))
    }

    /// The name of the cell at a place.
    fn name_at(&self, place: u8) -> &'static str {
        let Some(cell) = self.cell_at(place) else {
            return "no cell";
        };
        NAMES.get(cell).copied().unwrap_or("no cell")
    }
}

/// Prints the kind, the way, P and the inputs of a rule.
// By hand, as the step below: the line is put together from a rule and a table, and one program prints it.
fn print_question(rt: &HostRuntime, rule: &Rule, table: &[i64]) -> io::Result<()> {
    let kind = u8::from(rule.kind);
    print!(rt; "  {} way {}, P {}:", rule.kind, rule.way, rule.p)?;
    for place in 0..Quantities.place_count(kind) {
        if !Quantities.is_output(kind, rule.way, place) {
            let cell = rule.name_at(place);
            let figure = figure_at(Quantities.start(), table, rule.places, place);
            print!(rt; " {cell} {figure},")?;
        }
    }
    Ok(())
}

/// Works a rule out over the table, prints the step, and writes the figure that it gives.
fn step(rt: &HostRuntime, rule: &Rule, table: &mut [i64]) -> io::Result<()> {
    print_question(rt, rule, table)?;
    let name = rule.name_at(rule.output);
    match rule.worked_out(table) {
        Ok(figure) => {
            if let Some(cell) = rule.cell_at(rule.output) {
                write_at(table, cell, figure);
            }
            println!(rt; " so {name} {figure}")
        }
        Err(fault) => println!(rt; " so no {name}, by fault {}", fault.number),
    }
}

/// Prints how the area and the length of the reel come about at a grammage, and answers the length.
fn length_at(rt: &HostRuntime, grammage: i64) -> io::Result<i64> {
    let mut table = [1200, 0, 0, grammage, 480, 0];
    step(rt, &AREA, &mut table)?;
    step(rt, &LENGTH, &mut table)?;
    Ok(table[1])
}

/// Prints how the light mark of the true grammage comes about under a limit, and answers the mark.
fn mark_under(rt: &HostRuntime, limit: i64) -> io::Result<i64> {
    let mut table = [0, 0, 0, 796, 0, 0];
    step(rt, &Rule { p: limit, ..MARK }, &mut table)?;
    Ok(table[5])
}

fn main(rt: HostRuntime) -> io::Result<()> {
    println!(rt; "480 kg, 1200 mm wide, at the true 79.6 g:")?;
    let length = length_at(&rt, 796)?;
    println!(rt; "at 80.0 g, rounded:")?;
    let rounded = length_at(&rt, 800)?;
    println!(rt; "length {length} m against {rounded} m")?;
    println!(rt; "79.6 g under the true limit of 79.6 g:")?;
    let mark = mark_under(&rt, 796)?;
    println!(rt; "under 80.0 g, rounded:")?;
    let wrong = mark_under(&rt, 800)?;
    println!(rt; "light mark {mark} against {wrong}")?;
    seven::print_board(&rt)
}
