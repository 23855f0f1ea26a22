//! Generic code is proved from the meaning alone: for every ranking, and for every calculator.

ghost use Rattle.std.specs.Prelude.{◌≡◌, true};
ghost use Rattle.std.specs.List.{AllByRecursion};
ghost use Rattle.std.specs.Ordering.{is_le};
ghost use Rattle.meaning.specs.Extremes.{all_level, always_faulting};
ghost use Rattle.std.proofs.Common.{rules};

use super::*;

/// Of two strengths that the ranking knows, one that is after neither.
fn first_of<R: Ranking>(ranking: &R, a: R::Strength, b: R::Strength) -> R::Strength
    requires known { ((R.meaning ranking.now).known a ≡ true) × ((R.meaning ranking.now).known b ≡ true) }
    ensures not_after_a { is_le ((R.meaning ranking.now).order result a) ≡ true }
    ensures not_after_b { is_le ((R.meaning ranking.now).order result b) ≡ true }
{
    match ranking.compare(a, b) {
        Ordering::Less | Ordering::Equal => a,
        Ordering::Greater => b,
    }
}

/// What the calculator works out of a table of figures that it takes, or its start where it works out nothing: a figure
/// that it takes.
// Kind and way are bytes, as the trait has them.
fn worked_out_or_start<C: Calculator>(
    calculator: &C,
    kind: u8,
    way: u8,
    p: C::Figure,
    table: &[C::Figure],
    places: &[u8],
    output: u8,
) -> C::Figure
    requires { AllByRecursion (λ x. (C.meaning calculator.now).takes x ≡ true) table.now }
    ensures { (C.meaning calculator.now).takes result ≡ true }
{
    if kind >= calculator.kind_count() || way >= calculator.way_count(kind) {
        return calculator.start();
    }
    if !calculator.takes(p) || !calculator.is_output(kind, way, output) {
        return calculator.start();
    }
    calculator
        .work_out(kind, way, p, table, places, output)
        .unwrap_or(calculator.start())
}

/// A ranking that calls all strengths level.
struct AllLevel;

impl Ranking for AllLevel {
    type Strength = u8;

    ghost meaning = { λ _. all_level };

    ghost lawful = { Prim.search rules };

    fn knows(&self, _strength: u8) -> bool {
        true
    }

    fn compare(&self, _first: u8, _second: u8) -> Ordering {
        Ordering::Equal
    }
}

/// A calculator of one kind, one place and one way, that always faults.
struct AlwaysFaulting;

impl Calculator for AlwaysFaulting {
    type Figure = u8;

    const KINDS: u8 = 1;

    ghost meaning = { λ _. always_faulting };

    ghost lawful = { Prim.search rules };

    fn start(&self) -> u8 {
        7
    }

    fn takes(&self, figure: u8) -> bool {
        figure == 7
    }

    fn kind_count(&self) -> u8 {
        Self::KINDS
    }

    fn place_count(&self, _kind: u8) -> u8 {
        1
    }

    fn way_count(&self, _kind: u8) -> u8 {
        1
    }

    fn is_output(&self, _kind: u8, _way: u8, place: u8) -> bool {
        place == 0
    }

    fn work_out(
        &self,
        _kind: u8,
        _way: u8,
        _p: u8,
        _table: &[u8],
        _places: &[u8],
        _output: u8,
    ) -> Result<u8, Fault> {
        Err(Fault { number: 1 })
    }
}

#[test]
fn generic_code_serves_any_ranking_and_calculator(rt: HostRuntime) {
    assert_eq!(rt; first_of(&AllLevel, 3, 1), 3);
    assert_eq!(rt;
        worked_out_or_start(&AlwaysFaulting, 0, 0, 7, &[7, 7], &[1], 0),
        7
    );
}

#[test]
fn a_short_list_or_table_reads_as_the_start(rt: HostRuntime) {
    assert_eq!(rt; figure_at(9, &[4, 5], &[1, 2], 0), 5);
    assert_eq!(rt; figure_at(9, &[4, 5], &[1, 2], 1), 9, "no such cell");
    assert_eq!(rt; figure_at(9, &[4, 5], &[1, 2], 2), 9, "no such place");
    assert_eq!(rt; figure_at(9, &[], &[], 255), 9);
}
