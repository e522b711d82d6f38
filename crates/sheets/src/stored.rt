//! Register numbers by their stored exponents, which are natural numbers.

ghost use Rattle.std.specs.Prelude.{◌≡◌, ◌*◌, ◌^◌, ◌<◌, ◌≤◌};
ghost use Rattle.registers.specs.Range.{span};
ghost use Rattle.registers.specs.Values.{number_value};
ghost use Rattle.sources.specs.Seeds.{plain};

use registers::Number;
use registers::limits::LEAST_EXPONENT;

/// The exponent of a number as it is stored.
pub(crate) fn stored(n: Number) -> u32
    ensures { result ≡ n.exponent }
{
    (n.exponent() - LEAST_EXPONENT) as u32
}

/// The positive number of a stored exponent and a significand.
pub(crate) fn number(exponent: u32, significand: u32) -> Number
    requires { (exponent ≤ span) × ((2 ^ 29 ≤ significand) × (significand < 2 ^ 30)) }
    ensures { number_value result ≡ plain (significand * 2 ^ exponent) }
{
    Number::new(false, exponent as i32 + LEAST_EXPONENT, significand).unwrap()
}
