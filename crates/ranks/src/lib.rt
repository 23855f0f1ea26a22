//! Rank numbers: one for each rule, all different.

#![tactic(auto)]

ghost use Rattle.std.specs.Prelude.{◌≡◌, ℕ, ◌<◌, false, length};
ghost use Rattle.ranks.specs.Numbers.{rank_in, share_rank};
ghost use Rattle.ranks.specs.RankOrder.{strength_of, precedes as precedes_by, ranks_before, rank_number, rank_list, Orders};

pub use meaning::RULES;
use meaning::Ranking;
use meaning::masks::has_bit;
use std::array;
use std::cmp::Ordering;

/// A rank number below 64 for each of the sixty-four rules, no two the same.
#[derive(Clone, Copy)]
pub struct Ranks {
    of: [u8; RULES],
    ghost sized: { length of ≡ 64 },
    ghost below: { (x : ℕ) → x < 64 → rank_in of x < 64 },
    ghost distinct: { (x y : ℕ) → share_rank (rank_in of) x y ≡ false },
}

impl Ranks {
    /// The rank numbers of the standing rules, which `standing` has as a mask, under a ranking: rule x ranks before rule y
    /// if its strength is before, or is level and x has the lower number. A rule that does not stand, or whose strength the
    /// table lacks or the ranking does not know, comes behind all others, by number.
    // Put into its callers: they know the table's length, and without this it is left out of them.
    #[inline(always)]
    pub fn new<R: Ranking>(ranking: &R, strengths: &[R::Strength], standing: u64) -> Ranks
        ensures value { result.of ≡ rank_list (R.meaning ranking.now) strengths.now standing }
        ensures orders { Orders (R.meaning ranking.now) strengths.now standing (rank_in result.of) }
    {
        let order = RankOrder {
            ranking,
            strengths,
            standing,
        };
        Ranks {
            of: array::from_fn(|x| order.rank_number(x as u8)),
        }
    }

    /// The rank numbers, by rule.
    pub fn numbers(&self) -> &[u8; RULES]
        ensures { result.now ≡ self.now.of }
    {
        &self.of
    }
}

/// What orders the rules: a ranking, the table of their strengths, and the mask of those that stand.
#[derive(Drop)]
struct RankOrder<'a, R: Ranking> {
    ranking: &'a R,
    strengths: &'a [R::Strength],
    standing: u64,
}

impl<R: Ranking> RankOrder<'_, R> {
    /// The strength by which a rule ranks.
    fn strength(&self, x: u8) -> Option<R::Strength>
        ensures { result ≡ strength_of (R.meaning self.now.ranking.now) self.now.strengths.now self.now.standing x }
    {
        if !has_bit(self.standing, x) {
            return None;
        }
        self.strengths
            .get(usize::from(x))
            .copied()
            .filter(|strength| self.ranking.knows(*strength))
    }

    /// Whether rule x, of the first strength, ranks before rule y, of the second.
    fn precedes(
        &self,
        first: Option<R::Strength>,
        x: u8,
        second: Option<R::Strength>,
        y: u8,
    ) -> bool
        ensures { result ≡ precedes_by (R.meaning self.now.ranking.now) first x second y }
    {
        match (first, second) {
            (Some(a), Some(b)) => match self.ranking.compare(a, b) {
                Ordering::Less => true,
                Ordering::Equal => x < y,
                Ordering::Greater => false,
            },
            (Some(_), None) => true,
            (None, Some(_)) => false,
            (None, None) => x < y,
        }
    }

    /// Whether rule x ranks before rule y.
    fn ranks_before(&self, x: u8, y: u8) -> bool
        ensures { result ≡ ranks_before (R.meaning self.now.ranking.now) self.now.strengths.now self.now.standing x y }
    {
        self.precedes(self.strength(x), x, self.strength(y), y)
    }

    /// The rank number of a rule: how many rules rank before it.
    // By a loop: `filter` with `count` takes half as long again.
    fn rank_number(&self, x: u8) -> u8
        ensures { result ≡ rank_number (R.meaning self.now.ranking.now) self.now.strengths.now self.now.standing x }
    {
        let mut count = 0;
        for y in 0..64u8 {
            count += u8::from(self.ranks_before(y, x));
        }
        count
    }
}
