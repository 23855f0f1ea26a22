//! Why a call is refused.

ghost use Rattle.std.specs.Prelude.{◌≡◌};
ghost use Rattle.records.specs.Refusals.{refusal_number};

/// Why a call on a sheet is refused, in the order of the checks.
#[derive(Clone, Copy, PartialEq, Eq, Debug)]
pub enum Refusal {
    /// The cell count is 0 or over 64.
    CellCount = 1,
    /// A table is too short, or holds what the ranking does not know or the calculator does not take.
    Tables = 2,
    /// The rule's number is over 63.
    RuleNumber = 3,
    /// A rule of this number stands already.
    Stands = 4,
    /// No rule of this number stands.
    NoSuchRule = 5,
    /// The calculator has no such kind.
    Kind = 6,
    /// The number of places is not the kind's.
    PlaceCount = 7,
    /// A place names a cell that the sheet lacks.
    MissingCell = 8,
    /// One cell stands in two places.
    RepeatedCell = 9,
    /// The list of ways is empty, or has a way twice or one that is not of the kind.
    Ways = 10,
    /// The ranking does not know the strength.
    Strength = 11,
    /// The calculator does not take the parameter.
    Parameter = 12,
    /// There is no such cell.
    NoSuchCell = 20,
}

impl Refusal {
    /// The number of the refusal.
    // Public under this name, and one `as`.
    pub fn number(self) -> u8
        ensures { result ≡ refusal_number self }
    {
        self as u8
    }
}
