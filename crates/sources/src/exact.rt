//! Register numbers that are exact fractions over powers of two.

ghost use Rattle.std.specs.Prelude.{◌≡◌, ◌^◌, ◌<◌, ◌≤◌};
ghost use Rattle.registers.specs.Values.{number_value, value};
ghost use Rattle.sources.specs.Fractions.{fraction as fraction_of};
ghost use Rattle.sources.specs.Seeds.{plain};

use registers::{Number, Register};

/// The number `a / 2^k`.
pub(crate) fn fraction(a: u32, k: u32) -> Number
    requires { (0 < a) × ((a < 2 ^ 30) × (k ≤ 23)) }
    ensures { number_value result ≡ plain (fraction_of a k) }
{
    let shift = a.leading_zeros() - 2;
    Number::new(false, 29 - (shift + k) as i32, a << shift).unwrap()
}

/// The number `a / 2^k` in a register.
pub(crate) fn register(a: u32, k: u32) -> Register
    requires { (0 < a) × ((a < 2 ^ 30) × (k ≤ 23)) }
    ensures { value result ≡ plain (fraction_of a k) }
{
    Register::Nonzero(fraction(a, k))
}
