//! The remainder by the nearest quotient.

ghost use Rattle.std.specs.Prelude.{◌≡◌, ℕ, ◌*◌, ◌/◌, ◌%◌, ◌^◌, ◌<◌, ◌≤◌, Bool, not, if◌then◌else◌, nat_eq, nat_lt};
ghost use Rattle.registers.specs.Binary32.{is_odd};
ghost use Rattle.registers.specs.Coding.{denoted, finite};
ghost use Rattle.registers.specs.Modes.{rounded};
ghost use Rattle.sheets.specs.Operands.{units_of};
ghost use Rattle.bench.specs.Kinds.{is_negative, units, unsigned};
ghost use Rattle.bench.specs.Remainders.{IsNearestQuotient, remainder_size, remainder_turned};
ghost use Rattle.bench.specs.Tables.{answer_pattern, remainder_table};
ghost use Rattle.bench.specs.Unless.{unless};
ghost use Rattle.bench.specs.Values.{ExactRemainder, beside_exact, remainder_sign, remainder_units};

use crate::answer::{Special, exact_rounding};
use crate::kind::is_negative;
use crate::operand::FinitePattern;
use crate::scaled::Scaled;
use crate::table::remainder_table;
use registers::{Datum, Finite, Mode, Pattern, Rounded};
use std::cmp::Ordering;

/// The magnitude of an operand.
fn magnitude_of(p: FinitePattern) -> Scaled
    ensures { result.significand * 2 ^ result.exponent ≡ units p.pattern }
{
    let Some(x) = p.number() else {
        return Scaled {
            significand: 0,
            exponent: 0,
        };
    };
    Scaled {
        significand: x.significand(),
        exponent: x.exponent(),
    }
}

/// What is left of a division by a divisor, and whether its quotient is odd.
#[derive(Clone, Copy)]
struct Left {
    rest: u32,
    odd: bool,
    divisor: u32,
    ghost short: { (rest < divisor) × (divisor < 2 ^ 25) },
}

/// The division of `n · 2^turns` by `m`, one doubling a turn.
fn divide_doubling(n: u32, turns: u32, m: u32) -> Left
    requires { (0 < m) × (m < 2 ^ 25) }
    ensures rest { result.rest ≡ n * 2 ^ turns % m }
    ensures odd { result.odd ≡ is_odd (n * 2 ^ turns / m) }
    ensures divisor { result.divisor ≡ m }
{
    let mut rest = n % m;
    let mut odd = n / m % 2 == 1;
    // Two values are carried from turn to turn: a fold over a pair would be no plainer.
    for turn in 0..turns {
        let twice = 2 * rest;
        odd = twice >= m;
        rest = if odd { twice - m } else { twice };
    }
    Left {
        rest,
        odd,
        divisor: m,
    }
}

/// The magnitude of a remainder, and whether its sign is turned from the dividend's.
#[derive(Clone, Copy)]
struct Difference {
    turned: bool,
    size: Scaled,
}

impl Left {
    /// Whether the quotient goes up to the nearest whole number, a tie going to the even one.
    fn goes_up(self) -> bool
        ensures { result ≡ (if nat_eq (2 * self.rest) self.divisor then self.odd else nat_lt self.divisor (2 * self.rest)) }
    {
        match (2 * self.rest).cmp(&self.divisor) {
            Ordering::Less => false,
            Ordering::Equal => self.odd,
            Ordering::Greater => true,
        }
    }

    /// The nearest step at the end of a division by that many units of `2^exponent`.
    fn nearest(self, exponent: u32) -> Difference
        requires { exponent ≤ 253 }
        ensures size { (x : ℕ) → self.rest ≡ x % self.divisor → self.odd ≡ is_odd (x / self.divisor) → (result.size.significand ≡ remainder_size x self.divisor) × (result.turned ≡ remainder_turned x self.divisor) }
        ensures exponent { result.size.exponent ≡ exponent }
    {
        let turned = self.goes_up();
        let significand = if turned {
            self.divisor - self.rest
        } else {
            self.rest
        };
        Difference {
            turned,
            size: Scaled {
                significand,
                exponent,
            },
        }
    }
}

/// The remainder of a magnitude by that of a number.
fn remainder_scaled(x: Scaled, y: Finite) -> Difference
    ensures size { result.size.significand * 2 ^ result.size.exponent ≡ remainder_size (x.significand * 2 ^ x.exponent) (units_of y) }
    ensures turned { result.turned ≡ remainder_turned (x.significand * 2 ^ x.exponent) (units_of y) }
{
    let exponent = y.exponent();
    let m = y.significand();
    if x.exponent + 1 < exponent {
        return Difference {
            turned: false,
            size: x,
        };
    }
    if x.exponent < exponent {
        return divide_doubling(x.significand, 0, 2 * m).nearest(x.exponent);
    }
    divide_doubling(x.significand, x.exponent - exponent, m).nearest(exponent)
}

// Two operands, one by one: a struct of them would be made once and taken apart once.
/// The remainder of operands, exactly.
fn remainder_exact(x: FinitePattern, y: FinitePattern) -> Datum
    requires { 0 < unsigned y.pattern }
    ensures { denoted result ≡ finite (remainder_sign x.pattern y.pattern) (remainder_units x.pattern y.pattern) }
{
    let z = remainder_scaled(magnitude_of(x), y.nonzero());
    z.size.datum(is_negative(x.pattern) != z.turned)
}

/// A finite number rounded in any mode: it is its own pattern, with no flag.
fn round_datum(x: Datum) -> Rounded
    ensures rounds { (mode : Mode) (s : Bool) (v : ℕ) → denoted x ≡ finite s v → result ≡ rounded mode s (beside_exact (v * 2 ^ 175)) }
    ensures parts { (s : Bool) (v : ℕ) → denoted x ≡ finite s v → (units result.pattern ≡ v) × (is_negative result.pattern ≡ s) }
{
    exact_rounding(x.encode())
}

/// The remainder of `x` by `y`, which is the same in every mode, or what its table makes of special operands.
#[tactic(auto, using(crate::proofs::Nearing::nearest_quotient_lem))]
pub(crate) fn remainder(x: Pattern, y: Pattern) -> Result<Rounded, Special>
    ensures value { (mode : Mode) → result ≡ unless (remainder_table x y) (rounded mode (remainder_sign x y) (beside_exact (remainder_units x y * 2 ^ 175))) }
    ensures exact { ExactRemainder x y (answer_pattern result) }
    ensures nearest { IsNearestQuotient }
{
    remainder_table(x, y)?;
    Ok(round_datum(remainder_exact(FinitePattern::new(x), FinitePattern::new(y))))
}
