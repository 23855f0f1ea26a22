//! The pile of a search.

ghost use Rattle.std.specs.Prelude.{◌≡◌, ◌+◌, ◌<◌, ◌≤◌, [], ◌∷◌, length, MatchOption};

/// A pile has room for the placed rule and for six givers of each rule.
const PILE: usize = 385;

/// A pile of rules, filled from the back, the top one at `top`.
// Not a library's vector: each try has a pile of its own by copy, and an `ArrayVec` is no Copy and its clone can fail.
#[derive(Clone, Copy)]
pub(crate) struct Pile {
    at: [u8; PILE],
    top: usize,
    ghost room: { length at ≡ 385 },
    ghost within: { top ≤ 385 },
}

impl Pile {
    ghost use Rattle.placing.specs.Piles.{pile_list};

    /// A pile of one rule.
    pub(crate) fn of(x: u8) -> Pile
        ensures value { pile_list result ≡ x ∷ [] }
        ensures top { result.top ≡ 384 }
    {
        let mut at = [0; PILE];
        at[PILE - 1] = x;
        Pile { at, top: PILE - 1 }
    }

    /// One rule more on top.
    pub(crate) fn with(self, x: u8) -> Pile
        requires { 0 < self.top }
        ensures value { pile_list result ≡ x ∷ pile_list self }
        ensures top { result.top + 1 ≡ self.top }
    {
        let mut at = self.at;
        let top = self.top - 1;
        at[top] = x;
        Pile { at, top }
    }

    /// Takes the top rule off, unless the pile is empty.
    pub(crate) fn pop(&mut self) -> Option<u8>
        ensures { MatchOption result ((pile_list self.old ≡ []) × (self.new ≡ self.old)) (λ x. (pile_list self.old ≡ x ∷ pile_list self.new) × (self.new.top ≡ self.old.top + 1)) }
    {
        let x = *self.at.get(self.top)?;
        self.top += 1;
        Some(x)
    }
}
