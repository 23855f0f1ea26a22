//! The quantity calculator: whole numbers in a range; entry, sum, product and limit.

ghost use Rattle.std.specs.Prelude.{◌≡◌, ◌^◌, ◌≤◌, true, [], ◌∷◌, Some, pos, ◌+ℤ◌, ◌-ℤ◌, ◌*ℤ◌, ◌≢◌, int_div, int_lt, unsigned_abs};
ghost use Rattle.calculators.specs.Forms.{lawful_forms};
ghost use Rattle.calculators.specs.Quantities.{kind_number, kind_text, numbered_kind, is_quantity, fault_number, result_of, quotient, entry as entry_of, sum as sum_of, product as product_of, limit as limit_of, quantity_forms, quantities};
ghost use Rattle.calculators.specs.QuantitySteps.{answer_of, inputs_among, by_places};
ghost use Rattle.calculators.specs.QuantityLaws.{quantities_lawful};

use crate::forms::{Form, Forms};
use meaning::{Calculator, Fault, figure_at};
use std::fmt;

/// The kinds of rules, by their numbers.
#[derive(Clone, Copy, PartialEq, Eq, Debug)]
pub enum Kind {
    /// Place a gets P.
    Entry = 0,
    /// Place c is the sum of a, b and P.
    Sum = 1,
    /// Place c is the product of a and b, over P.
    Product = 2,
    /// Place b tells whether a is under P.
    Limit = 3,
}

/// The number by which a rule names the kind.
impl From<Kind> for u8 {
    ghost from_gives = { λ kind number. number ≡ kind_number kind };

    fn from(kind: Kind) -> u8 {
        kind as u8
    }
}

/// The kind that has the number, if one does.
impl TryFrom<u8> for Kind {
    type Error = QuantityFault;

    ghost try_from_gives = { λ number result. result ≡ numbered_kind number };

    fn try_from(number: u8) -> Result<Self, QuantityFault> {
        match number {
            0 => Ok(Kind::Entry),
            1 => Ok(Kind::Sum),
            2 => Ok(Kind::Product),
            3 => Ok(Kind::Limit),
            _ => Err(QuantityFault::NoSuchWay),
        }
    }
}

/// A kind prints as its word.
impl fmt::Display for Kind {
    ghost output = { λ kind. Some (kind_text kind) };

    fn fmt<W: fmt::Write>(&self, f: &mut fmt::Formatter<W>) -> fmt::Result {
        f.write_str(match self {
            Kind::Entry => "entry",
            Kind::Sum => "sum",
            Kind::Product => "product",
            Kind::Limit => "limit",
        })
    }
}

/// The least and the greatest quantity.
pub const LEAST: i64 = -1_000_000_000;

pub const GREATEST: i64 = 1_000_000_000;

/// The starting figure.
pub const START: i64 = 0;

/// Kind by way: places, ways and output masks. Bit 0 of a mask is place a, bit 1 place b, bit 2 place c.
const FORMS: Forms<4> = Forms {
    by_kind: [
        Form {
            places: 1,
            ways: 1,
            outputs: [0b001, 0, 0, 0],
        },
        Form {
            places: 3,
            ways: 3,
            outputs: [0b100, 0b001, 0b010, 0],
        },
        Form {
            places: 3,
            ways: 3,
            outputs: [0b100, 0b001, 0b010, 0],
        },
        Form {
            places: 2,
            ways: 1,
            outputs: [0b010, 0, 0, 0],
        },
    ],
};

/// Why a quantity way gives no figure.
#[derive(Clone, Copy, PartialEq, Eq, Debug)]
pub enum QuantityFault {
    /// A result is no quantity.
    NoQuantity = 1,
    /// A divisor is 0.
    ZeroDivisor = 2,
    /// P is under 1 in a product.
    ParameterBelowOne = 3,
    /// There is no such kind, or no such way of the kind.
    NoSuchWay = 255,
}

impl QuantityFault {
    /// The number by which a sheet tells the fault.
    // Beside `From`: who shows a fault asks for the number alone, and it is one `as`.
    pub fn number(self) -> u8
        ensures { result ≡ fault_number self }
    {
        self as u8
    }
}

/// A calculator tells a fault by its number.
// As in `cards`: each fault enum has its own numbers, and one conversion over both would need a trait for them.
impl From<QuantityFault> for Fault {
    ghost from_gives = { λ fault told. told.number ≡ fault_number fault };

    fn from(fault: QuantityFault) -> Fault {
        Fault {
            number: fault.number(),
        }
    }
}

/// The figures at the first three places of a rule.
// Way and P stay beside them: neither is the figure of a place.
#[derive(Clone, Copy)]
struct Figures {
    a: i64,
    b: i64,
    c: i64,
}

/// The table of the kinds' forms. It passes the test of a lawful table.
// A function for each calculator: each promises its own table.
pub fn quantity_forms() -> [Form; 4]
    ensures value { result ≡ quantity_forms }
    ensures lawful { lawful_forms result ≡ true }
{
    FORMS.by_kind
}

/// Whether a whole number is a quantity.
fn is_quantity(z: i64) -> bool
    ensures { result ≡ is_quantity z }
{
    (LEAST..=GREATEST).contains(&z)
}

/// A result, if it is a quantity.
fn checked(z: i128) -> Result<i64, QuantityFault>
    ensures { answer_of result ≡ result_of z }
{
    i64::try_from(z)
        .ok()
        .filter(|figure| is_quantity(*figure))
        .ok_or(QuantityFault::NoQuantity)
}

/// The whole product of two numbers.
// A function, as the three steps below: in one expression the check does not find that they fit 128 bits. Their parameters are
// the operands.
fn times(x: i64, y: i64) -> i128
    ensures value { result ≡ x *ℤ y }
    ensures bound { unsigned_abs result ≤ 2 ^ 126 }
{
    i128::from(x) * i128::from(y)
}

/// A quotient, cut toward zero.
fn cut(z: i128, d: i64) -> i128
    requires small { unsigned_abs z ≤ 2 ^ 126 }
    requires nonzero { d ≢ pos 0 }
    ensures { result ≡ int_div z d }
{
    z / i128::from(d)
}

/// x × y ÷ d, cut toward zero.
fn divided(x: i64, y: i64, d: i64) -> Result<i64, QuantityFault>
    ensures { answer_of result ≡ quotient x y d }
{
    if d == 0 {
        return Err(QuantityFault::ZeroDivisor);
    }
    if x == 0 || y == 0 {
        return Ok(0);
    }
    checked(cut(times(x, y), d))
}

/// x + y + z, whole.
fn total(x: i64, y: i64, z: i64) -> i128
    ensures { result ≡ x +ℤ y +ℤ z }
{
    i128::from(x) + i128::from(y) + i128::from(z)
}

/// x - y - z, whole.
fn remainder(x: i64, y: i64, z: i64) -> i128
    ensures { result ≡ x -ℤ y -ℤ z }
{
    i128::from(x) - i128::from(y) - i128::from(z)
}

/// Entry, place a: a = P.
// Ways stay numbers here and below: the trait asks for any byte, and each kind counts its own ways, which have no names.
fn entry(way: u8, p: i64) -> Result<i64, QuantityFault>
    ensures { answer_of result ≡ entry_of way p [] }
{
    match way {
        0 => checked(i128::from(p)),
        _ => Err(QuantityFault::NoSuchWay),
    }
}

/// Sum, places a, b, c: c = a + b + P; a = c - b - P; b = c - a - P.
fn sum(way: u8, p: i64, at: Figures) -> Result<i64, QuantityFault>
    ensures { answer_of result ≡ sum_of way p (inputs_among way at) }
{
    match way {
        0 => checked(total(at.a, at.b, p)),
        1 => checked(remainder(at.c, at.b, p)),
        2 => checked(remainder(at.c, at.a, p)),
        _ => Err(QuantityFault::NoSuchWay),
    }
}

/// Product, places a, b, c: c = a × b ÷ P; a = c × P ÷ b; b = c × P ÷ a.
fn product(way: u8, p: i64, at: Figures) -> Result<i64, QuantityFault>
    ensures { answer_of result ≡ product_of way p (inputs_among way at) }
{
    if p < 1 {
        return Err(QuantityFault::ParameterBelowOne);
    }
    match way {
        0 => divided(at.a, at.b, p),
        1 => divided(at.c, p, at.b),
        2 => divided(at.c, p, at.a),
        _ => Err(QuantityFault::NoSuchWay),
    }
}

/// Whether a figure is under a limit.
// A function of one test, so that its promise stands by itself.
fn is_under(a: i64, p: i64) -> bool
    ensures { result ≡ int_lt a p }
{
    a < p
}

/// Limit, places a, b: b = 1 if a is under P, else 0.
fn limit(way: u8, p: i64, a: i64) -> Result<i64, QuantityFault>
    ensures { answer_of result ≡ limit_of way p (a ∷ []) }
{
    match way {
        0 => Ok(i64::from(is_under(a, p))),
        _ => Err(QuantityFault::NoSuchWay),
    }
}

/// The answer of a way over the figures at its first three places.
fn answer(kind: u8, way: u8, p: i64, at: Figures) -> Result<i64, QuantityFault>
    ensures { answer_of result ≡ by_places kind way p at }
{
    match Kind::try_from(kind)? {
        Kind::Entry => entry(way, p),
        Kind::Sum => sum(way, p, at),
        Kind::Product => product(way, p, at),
        Kind::Limit => limit(way, p, at.a),
    }
}

/// The quantity calculator.
#[derive(Clone, Copy, Debug)]
pub struct Quantities;

impl Calculator for Quantities {
    type Figure = i64;

    const KINDS: u8 = 4;

    ghost meaning = { λ _. quantities };

    ghost lawful = { λ c. quantities_lawful };

    fn start(&self) -> i64 {
        START
    }

    fn takes(&self, figure: i64) -> bool {
        is_quantity(figure)
    }

    // The same lines as in `Cards`: the trait asks for each number by itself, and the table answers.
    fn kind_count(&self) -> u8 {
        Self::KINDS
    }

    fn place_count(&self, kind: u8) -> u8 {
        FORMS.place_count(kind)
    }

    fn way_count(&self, kind: u8) -> u8 {
        FORMS.way_count(kind)
    }

    fn is_output(&self, kind: u8, way: u8, place: u8) -> bool {
        FORMS.is_output(kind, way, place)
    }

    // The kind is any byte, as the trait has it.
    fn work_out(
        &self,
        kind: u8,
        way: u8,
        p: i64,
        table: &[i64],
        places: &[u8],
        _output: u8,
    ) -> Result<i64, Fault> {
        let at = |place: u8| figure_at(START, table, places, place);
        let figures = Figures {
            a: at(0),
            b: at(1),
            c: at(2),
        };
        Ok(answer(kind, way, p, figures)?)
    }
}
