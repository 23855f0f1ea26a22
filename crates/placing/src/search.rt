//! The placing search: taking off, putting out and trying, which lead into one another.

ghost use Rattle.std.specs.Prelude.{◌≡◌, ◌+◌, ◌*◌, ◌<◌, ◌≤◌, true, [], ◌∷◌, length, replicate, ◌==◌, bit_and, nat_lt, slice_set};
ghost use Rattle.placing.specs.declared.rules.Mark.TheVariants.{PutOut, Fresh};
ghost use Rattle.placing.specs.Board.{listed};
ghost use Rattle.placing.specs.Search.{fresh_at, giver as giver_of, piled, one_of, fresh_count, Leads, Tries};
ghost use Rattle.placing.specs.Piles.{pile_list};
ghost use Rattle.ranks.specs.Numbers.{rank_in};

use crate::pile::Pile;
use crate::rules::{Mark, RULES, Rule, State, Way, written};
use meaning::masks::has_bit;
use meaning::read_or;

/// The rule that gives a cell, if there is one.
pub(crate) fn giver(rules: &[Rule; RULES], states: &[State; RULES], cell: u8) -> Option<u8>
    ensures { one_of result ≡ giver_of rules.now states.now cell }
{
    rules
        .iter()
        .zip(states)
        .position(|(rule, state)| has_bit(rule.given(*state), cell))
        .map(|x| x as u8)
}

/// Whether a rule is still fresh; past the marks none is.
fn is_fresh(marks: &[Mark; RULES], x: u8) -> bool
    ensures value { result ≡ fresh_at marks.now x }
    ensures within { result ≡ true → x < 64 }
{
    matches!(marks.get(usize::from(x)), Some(Mark::Fresh))
}

/// The rank of a rule; 0 past the ranks.
pub(crate) fn rank_of(ranks: &[u8; RULES], x: u8) -> u8
    ensures { result ≡ rank_in ranks.now x }
{
    read_or(ranks, usize::from(x), 0)
}

/// Whether none of a way's outputs is taken.
fn is_free(taken: u64, way: &Way) -> bool
    ensures { result ≡ (bit_and taken way.now.mask == 0) }
{
    taken & way.mask == 0
}

/// What a search holds: the pile, the marks and the taken cells. The pile has room for six givers of each fresh rule.
#[derive(Clone, Copy)]
pub(crate) struct Search {
    pile: Pile,
    marks: [Mark; RULES],
    taken: u64,
    ghost room: { 6 * fresh_count marks ≤ pile.top },
}

impl Search {
    /// The start of placing a rule: it alone is on the pile, no rule is done and no cell taken.
    pub(crate) fn start(r: u8) -> Search
        ensures pile { pile_list result.pile ≡ r ∷ [] }
        ensures top { result.pile.top ≡ 384 }
        ensures marks { result.marks ≡ replicate 64 Fresh }
        ensures taken { result.taken ≡ 0 }
    {
        Search {
            pile: Pile::of(r),
            marks: [Mark::Fresh; RULES],
            taken: 0,
        }
    }
}

/// What a search reads: the rules and their states before the placing, the ranks, and the placed rule r.
#[derive(Clone, Copy)]
pub(crate) struct Placing<'a> {
    pub rules: &'a [Rule; RULES],
    pub states: &'a [State; RULES],
    pub ranks: &'a [u8; RULES],
    pub r: u8,
}

impl Placing<'_> {
    /// Whether a rule ranks after the placed one.
    fn ranks_after(self, x: u8) -> bool
        ensures { result ≡ nat_lt (rank_in self.entry.ranks.now self.entry.r) (rank_in self.entry.ranks.now x) }
    {
        rank_of(self.ranks, self.r) < rank_of(self.ranks, x)
    }

    /// The pile with the giver of each cell on it, in the cells' order.
    fn with_givers(self, cells: &[u8], pile: Pile) -> Pile
        requires { length cells.now ≤ pile.top }
        ensures value { pile_list result ≡ piled self.entry.rules.now self.entry.states.now cells.now (pile_list pile) }
        ensures room { pile.top ≤ result.top + length cells.now }
    {
        let mut higher = pile;
        for cell in cells {
            if let Some(x) = giver(self.rules, self.states, *cell) {
                higher = higher.with(x);
            }
        }
        higher
    }

    /// Takes the top rule off the pile: an empty pile is success, a rule that is done is passed over, one that ranks
    /// after the placed rule is put out, and of any other the ways are tried.
    #[cycle(put_out_take_off_try_ways)]
    pub(crate) fn take_off(self, search: Search) -> Option<[Mark; RULES]>
        ensures { Leads self.entry.rules.now self.entry.states.now (rank_in self.entry.ranks.now) self.entry.r (pile_list search.pile) search.marks search.taken result }
    {
        let mut rest = search;
        let Some(x) = rest.pile.pop() else {
            return Some(search.marks);
        };
        if !is_fresh(&rest.marks, x) {
            return self.take_off(rest);
        }
        if self.ranks_after(x) {
            return self.put_out(x, rest);
        }
        self.try_ways(x, rest)
    }

    /// Puts a fresh rule out of force, and goes on.
    #[cycle(put_out_take_off_try_ways)]
    fn put_out(self, x: u8, search: Search) -> Option<[Mark; RULES]>
        requires { (fresh_at search.marks x ≡ true) × (x < 64) }
        ensures { Leads self.entry.rules.now self.entry.states.now (rank_in self.entry.ranks.now) self.entry.r (pile_list search.pile) (slice_set search.marks x PutOut) search.taken result }
    {
        let marks = written(&search.marks, x, Mark::PutOut);
        let rest = Search {
            pile: search.pile,
            marks,
            taken: search.taken,
        };
        self.take_off(rest)
    }

    /// Tries the listed ways of a fresh rule in their order, each only if none of its outputs is taken.
    // By index: the search reads a listed way as the board does, so that one planted error turns the order in both.
    #[cycle(put_out_take_off_try_ways)]
    fn try_ways(self, x: u8, search: Search) -> Option<[Mark; RULES]>
        requires { (fresh_at search.marks x ≡ true) × (x < 64) }
        ensures { Tries self.entry.rules.now self.entry.states.now (rank_in self.entry.ranks.now) self.entry.r x (pile_list search.pile) search.marks search.taken (listed self.entry.rules.now x) 0 result }
    {
        let rule = &self.rules[usize::from(x)];
        for i in 0..rule.listed().len() as u8 {
            let way = rule.way(i);
            if is_free(search.taken, &way) {
                let tried = Search {
                    pile: self.with_givers(way.cells(), search.pile),
                    marks: written(&search.marks, x, Mark::Tried(i)),
                    taken: search.taken | way.mask,
                };
                if let Some(found) = self.take_off(tried) {
                    return Some(found);
                }
            }
        }
        None
    }
}
