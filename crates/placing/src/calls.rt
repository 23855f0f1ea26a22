//! What can be done with a board: adding a rule, removing one, and asking.

ghost use Rattle.std.specs.Prelude.{◌≡◌, ◌^◌, ◌<◌, if◌then◌else◌, replicate, slice_index_or, slice_set};
ghost use Rattle.placing.specs.declared.rules.State.TheVariants.{Absent, Waiting};
ghost use Rattle.placing.specs.Board.{state_of, is_standing, no_rule, way_by, empty_rule, standing_mask};
ghost use Rattle.placing.specs.Search.{giver as giver_of, one_of};
ghost use Rattle.placing.specs.Choice.{Settled};
ghost use Rattle.ranks.specs.Numbers.{rank_in};
ghost use Rattle.placing.specs.Answers.{AddsTo, RemovesFrom, is_rule};
ghost use Rattle.placing.specs.Laws.{IsBoard};

use crate::board::{Added, Board, Refused};
use crate::lawful::is_lawful;
use crate::passes::{Pass, changed};
use crate::rules::{NO_RULE, RULES, Rule, State, Way, written};
use crate::search::giver;
use meaning::write_at;
use ranks::Ranks;

impl Board {
    /// A board on which no rule stands.
    #[tactic(auto, using(crate::proofs::Empty::empty_board))]
    pub fn empty() -> Board
        ensures rules { result.rules ≡ replicate 64 empty_rule }
        ensures states { result.states ≡ replicate 64 Absent }
    {
        Board::of([NO_RULE; RULES], [State::Absent; RULES])
    }

    /// A board of these rules in these states.
    fn of(rules: [Rule; RULES], states: [State; RULES]) -> Board
        requires { IsBoard rules states }
        ensures rules { result.rules ≡ rules }
        ensures states { result.states ≡ states }
    {
        Board { rules, states }
    }

    /// What a rule is on the board; a number over 63 is absent.
    pub fn state(&self, x: u8) -> State
        ensures { result ≡ state_of self.now.states x }
    {
        meaning::read_or(&self.states, usize::from(x), State::Absent)
    }

    /// The way by which a rule is in force, if it is.
    pub fn way(&self, x: u8) -> Option<Way>
        ensures { result ≡ way_by (slice_index_or self.now.rules x no_rule) (state_of self.now.states x) }
    {
        let rule = self.rules.get(usize::from(x))?;
        match self.state(x) {
            State::Absent | State::Waiting => None,
            State::InForce(i) => Some(rule.way(i)),
        }
    }

    /// The rule that gives a cell, if there is one.
    pub fn giver(&self, cell: u8) -> Option<u8>
        ensures { one_of result ≡ giver_of self.now.rules self.now.states cell }
    {
        giver(&self.rules, &self.states, cell)
    }

    /// The rules that stand, as a mask.
    pub fn standing(&self) -> u64
        ensures { result ≡ standing_mask self.now.states }
    {
        standing_in(&self.states)
    }

    /// The rules that stand once a rule waits that is to be added, as a mask.
    pub fn standing_with(&self, x: u8) -> u64
        ensures { result ≡ standing_mask (slice_set self.now.states x Waiting) }
    {
        let mut states = self.states;
        write_at(&mut states, usize::from(x), State::Waiting);
        standing_in(&states)
    }

    /// Adds a rule that lists its ways: places it, and on success goes down the ranks behind it. A refusal changes nothing.
    pub fn add(&mut self, ranks: &Ranks, r: u8, rule: Rule) -> Result<Added, Refused>
        ensures does { AddsTo self.old.rules self.old.states (rank_in ranks.now.of) r rule result self.new.rules self.new.states }
        ensures settles { Settled self.old.rules self.old.states (rank_in ranks.now.of) → Settled self.new.rules self.new.states (rank_in ranks.now.of) }
    {
        let n = usize::from(r);
        if n >= RULES {
            return Err(Refused::Number);
        }
        if self.states[n].is_standing() {
            return Err(Refused::Stands);
        }
        if !is_rule(&rule) {
            return Err(Refused::Ways);
        }
        let rules = written(&self.rules, r, rule);
        let waiting = written(&self.states, r, State::Waiting);
        let pass = Pass {
            rules: &rules,
            ranks: ranks.numbers(),
        };
        let placed = pass.add(&waiting, r);
        let states = placed.unwrap_or(waiting);
        let changed = changed(r, &self.states, &states);
        *self = Board::of(rules, states);
        Ok(Added {
            in_force: placed.is_some(),
            changed,
        })
    }

    /// Removes a rule: behind one that is in force the pass goes down the ranks, a waiting one changes no other. It answers
    /// the number of other rules changed on balance. A refusal changes nothing.
    pub fn remove(&mut self, ranks: &Ranks, r: u8) -> Result<u8, Refused>
        ensures does { RemovesFrom self.old.rules self.old.states (rank_in ranks.now.of) r result self.new.rules self.new.states }
        ensures settles { Settled self.old.rules self.old.states (rank_in ranks.now.of) → Settled self.new.rules self.new.states (rank_in ranks.now.of) }
    {
        let n = usize::from(r);
        if n >= RULES {
            return Err(Refused::Number);
        }
        if !self.states[n].is_standing() {
            return Err(Refused::Absent);
        }
        let pass = Pass {
            rules: &self.rules,
            ranks: ranks.numbers(),
        };
        let after = pass.remove(&self.states, r);
        let changed = changed(r, &self.states, &after);
        *self = Board::of(self.rules, after);
        Ok(changed)
    }
}

/// The set of one rule that stands; of another, the empty set.
fn standing_bit(state: State, x: usize) -> u64
    requires { x < 64 }
    ensures { result ≡ (if is_standing state then 2 ^ x else 0) }
{
    if state.is_standing() { 1 << x } else { 0 }
}

/// The rules that stand, as a mask.
fn standing_in(states: &[State; RULES]) -> u64
    ensures { result ≡ standing_mask states.now }
{
    let mut mask = 0;
    for (x, state) in states.iter().enumerate() {
        mask |= standing_bit(*state, x);
    }
    mask
}

/// Whether a rule can be put on a board.
fn is_rule(rule: &Rule) -> bool
    ensures { result ≡ is_rule rule.now }
{
    rule.count > 0 && is_lawful(rule)
}
