//! A desk: rules on a board under a calculator, and the figures of the cells, up to date after each call.

use figures::blanks::Blanks;
use figures::update::update;
use figures::ways::{SelectedWay, flows};
use keyed::Keyed;
use meaning::{Calculator, RULES, write_at};
use placing::board::{Added, Board, Refused};
use planning::plan::Plan;
use rankings::Classes;
use ranks::Ranks;
use records::row::Row;
use std::array;

/// Tables by rule number of what was keyed; the board and the plan; and by cell number the figures of the N cells, and why some
/// are blank.
// Tables side by side: ranks take the classes as a slice by rule number, and an update the parameters.
#[derive(Drop)]
pub struct Desk<C: Calculator, const N: usize> {
    calculator: C,
    rows: [Option<Row>; RULES],
    classes: [u8; RULES],
    parameters: [C::Figure; RULES],
    pub board: Board,
    pub plan: Plan,
    pub figures: [C::Figure; N],
    pub blanks: Blanks,
}

impl<C: Calculator, const N: usize> Desk<C, N> {
    /// A desk without rules, on which each cell has the starting figure.
    pub fn new(calculator: C) -> Desk<C, N> {
        let parameters = [calculator.start(); RULES];
        let mut figures = [calculator.start(); N];
        let ways = [None; RULES];
        let plan = Plan::new(&flows(&ways));
        let blanks = update(&calculator, &ways, &plan, &parameters, &mut figures);
        Desk {
            calculator,
            rows: [None; RULES],
            classes: [0; RULES],
            parameters,
            board: Board::empty(),
            plan,
            figures,
            blanks,
        }
    }

    /// Adds a rule and brings the figures up to date. A refusal changes nothing.
    // A board is handed ranks, and its caller keeps the strengths that they are made of.
    pub fn add(&mut self, r: u8, rule: &Keyed<C::Figure>) -> Result<Added, Refused> {
        let n = usize::from(r);
        let record = rule.record(r);
        let mut classes = self.classes;
        write_at(&mut classes, n, record.strength);
        let ranks = Ranks::new(&Classes, &classes, self.board.standing_with(r));
        let added = self.board.add(&ranks, r, record.rule(&self.calculator))?;
        self.classes = classes;
        write_at(&mut self.rows, n, Some(Row::from(&record)));
        write_at(&mut self.parameters, n, record.parameter);
        self.work_out();
        Ok(added)
    }

    /// Plans the rules in force and brings the figures up to date.
    fn work_out(&mut self) {
        let ways = self.selected_ways();
        self.plan = Plan::new(&flows(&ways));
        self.blanks = update(
            &self.calculator,
            &ways,
            &self.plan,
            &self.parameters,
            &mut self.figures,
        );
    }

    /// The selected ways of the rules in force.
    fn selected_ways(&self) -> [Option<SelectedWay>; RULES] {
        array::from_fn(|r| self.selected(r))
    }

    /// The selected way of a rule, if it is in force.
    fn selected(&self, r: usize) -> Option<SelectedWay> {
        let row = self.rows.get(r).copied().flatten()?;
        let way = self.board.way(u8::try_from(r).ok()?)?;
        Some(row.selected(&way))
    }
}
