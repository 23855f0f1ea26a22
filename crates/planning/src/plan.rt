//! The plan: again and again the lowest-numbered rule that is ready.

ghost use Rattle.std.specs.Prelude.{◌≡◌};
ghost use Rattle.planning.specs.Plan.{IsPlan, held_rules, rules_where};
ghost use Rattle.planning.specs.Laws.{PlanLaws, HeldLaws};
ghost use Rattle.planning.specs.Flows.{rule_in_force, outputs_by};
ghost use Rattle.planning.specs.Left.{outputs_of, is_ready as is_ready_among, first_ready};

use crate::flows::Flow;
use crate::rule_list::RuleList;
use meaning::RULES;

/// The planned rules in their order, and the rules in force that are held, by rising number.
#[derive(Clone, Copy)]
pub struct Plan {
    pub order: RuleList,
    pub held: RuleList,
}

impl Plan {
    /// The plan of the rules in force: again and again the lowest-numbered one that is not yet planned and whose every input
    /// has a planned giver or no giver. The rules in force that are left over are held.
    #[tactic(auto, using(crate::proofs::Turns::planning_turns))]
    pub fn new(rows: &[Option<Flow>; RULES]) -> Plan
        ensures order { IsPlan rows.now result.order }
        ensures held { result.held ≡ held_rules rows.now result.order }
        ensures lawful { PlanLaws rows.now result.order }
        ensures rings { HeldLaws rows.now result.order }
    {
        let mut left = *rows;
        let mut order = RuleList::new();
        while let Some(x) = first_ready(&left) {
            order.push(x as u8);
            left[x] = None;
        }
        Plan {
            order,
            held: rules_in_force(&left),
        }
    }
}

/// The cells that the rules give, all together.
fn outputs_of(rows: &[Option<Flow>; RULES]) -> u64
    ensures { result ≡ outputs_of rows.now }
{
    rows.iter().fold(0, |outputs, row| outputs | given_by(*row))
}

/// The cells that a rule gives: none if it is not in force.
fn given_by(row: Option<Flow>) -> u64
    ensures { result ≡ outputs_by row }
{
    row.map_or(0, |flow| flow.outputs)
}

/// Whether a rule is in force and reads none of the pending cells, whose givers are not yet planned.
fn is_ready(row: Option<Flow>, pending: u64) -> bool
    ensures { result ≡ is_ready_among row pending }
{
    row.is_some_and(|flow| flow.inputs & pending == 0)
}

/// The lowest-numbered rule that is in force and reads no cell that the rules give.
fn first_ready(rows: &[Option<Flow>; RULES]) -> Option<usize>
    ensures { result ≡ first_ready rows.now }
{
    let pending = outputs_of(rows);
    rows.iter().position(|row| is_ready(*row, pending))
}

/// The rules in force, by rising number.
fn rules_in_force(rows: &[Option<Flow>; RULES]) -> RuleList
    ensures { result ≡ rules_where (rule_in_force rows.now) }
{
    let mut list = RuleList::new();
    for (x, row) in (0..RULES as u8).zip(rows) {
        if row.is_some() {
            list.push(x);
        }
    }
    list
}
