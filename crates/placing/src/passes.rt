//! Placing one rule, and the pass down the ranks.

ghost use Rattle.std.specs.Prelude.{◌≡◌, ◌-◌, ◌<◌, true, not, ◌&&◌, ◌==◌, is_some, unwrap_or, slice_set};
ghost use Rattle.placing.specs.declared.rules.State.TheVariants.{Waiting};
ghost use Rattle.placing.specs.Board.{state_of, is_standing, is_waiting};
ghost use Rattle.placing.specs.Search.{applied as applied_to, Places};
ghost use Rattle.ranks.specs.Numbers.{rank_in};
ghost use Rattle.placing.specs.Calls.{Passes, PassesBehind, Adds, Removes, WaitsAt, same_state, changed as changed_by};

use crate::rules::{Mark, RULES, Rule, State, written};
use crate::search::{Placing, Search, rank_of};
use std::array;

/// The states as the marks make them.
fn applied(states: &[State; RULES], marks: &[Mark; RULES]) -> [State; RULES]
    ensures { result ≡ applied_to states.now marks.now }
{
    array::from_fn(|x| states[x].marked(marks[x]))
}

/// The rules as a pass places them, one after another, and their ranks.
// The states are no field: they change from one placing to the next.
#[derive(Clone, Copy)]
pub(crate) struct Pass<'a> {
    pub rules: &'a [Rule; RULES],
    pub ranks: &'a [u8; RULES],
}

impl Pass<'_> {
    /// Places a waiting rule: the states after a success. Without one it goes on waiting, and nothing changes.
    fn place(self, states: &[State; RULES], r: u8) -> Option<[State; RULES]>
        ensures { Places self.entry.rules.now states.now (rank_in self.entry.ranks.now) r (is_some result) (unwrap_or result states.now) }
    {
        let placing = Placing {
            rules: self.rules,
            states,
            ranks: self.ranks,
            r,
        };
        let found = placing.take_off(Search::start(r))?;
        Some(applied(states, &found))
    }

    /// The waiting rule of a rank, if there is one.
    fn waiting_at(self, states: &[State; RULES], rank: usize) -> Option<u8>
        ensures { WaitsAt states.now (rank_in self.entry.ranks.now) rank result }
    {
        states
            .iter()
            .zip(self.ranks)
            .position(|(state, own)| usize::from(*own) == rank && state.is_waiting())
            .map(|x| x as u8)
    }

    /// Goes down the ranks from one on, and places each rule that waits when it is reached.
    fn down(self, states: &[State; RULES], from: usize) -> [State; RULES]
        ensures { Passes self.entry.rules.now (rank_in self.entry.ranks.now) from (64 - from) states.now result }
    {
        let mut after = *states;
        for rank in from..RULES {
            if let Some(x) = self.waiting_at(&after, rank) {
                after = self.place(&after, x).unwrap_or(after);
            }
        }
        after
    }

    /// Goes down the ranks behind a rule.
    fn behind(self, states: &[State; RULES], r: u8) -> [State; RULES]
        ensures { PassesBehind self.entry.rules.now (rank_in self.entry.ranks.now) r states.now result }
    {
        let from = usize::from(rank_of(self.ranks, r)) + 1;
        self.down(states, from)
    }

    /// Places a rule that is added and waits, and on success goes down behind it. Without success nothing changes.
    pub(crate) fn add(self, waiting: &[State; RULES], r: u8) -> Option<[State; RULES]>
        ensures { (rules : _) (states : _) (rule : _) → self.entry.rules.now ≡ slice_set rules r rule → waiting.now ≡ slice_set states r Waiting → Adds rules states (rank_in self.entry.ranks.now) r rule (is_some result) (unwrap_or result waiting.now) }
    {
        let placed = self.place(waiting, r)?;
        Some(self.behind(&placed, r))
    }

    /// Takes a rule off: behind one in force the pass goes down, a waiting one changes no other.
    pub(crate) fn remove(self, states: &[State; RULES], r: u8) -> [State; RULES]
        requires { (r < 64) × (is_standing (state_of states.now r) ≡ true) }
        ensures { Removes self.entry.rules.now states.now (rank_in self.entry.ranks.now) r result }
    {
        let after = written(states, r, State::Absent);
        if states[usize::from(r)].is_waiting() {
            return after;
        }
        self.behind(&after, r)
    }
}

/// The number of rules other than r whose way or waiting is different.
pub(crate) fn changed(r: u8, before: &[State; RULES], after: &[State; RULES]) -> u8
    ensures { result ≡ changed_by r before.now after.now }
{
    (0..64u8)
        .zip(before.iter().zip(after))
        .filter(
            |(x, (was, is))|
                ensures { result ≡ (not (x.entry.now == r) && not (same_state was.entry.now.now is.entry.now.now)) }
            { *x != r && was != is },
        )
        .count() as u8
}
