//! A seed brought to its operand's exponent, and halved.

ghost use Rattle.std.specs.Prelude.{◌≡◌, ◌*◌, ◌^◌, ◌≤◌, false};
ghost use Rattle.registers.specs.Range.{bias};
ghost use Rattle.registers.specs.Values.{number_value};
ghost use Rattle.sheets.specs.Roots.{Halved};

use crate::stored::{number, stored};
use registers::Number;

/// A positive number times `2^up` over `2^down`, exactly.
pub(crate) fn placed(y: Number, up: u32, down: u32) -> Number
    requires { (2 ^ bias ≤ (number_value y).units * 2 ^ 150) × (((number_value y).units ≤ 2 ^ bias * 2 ^ 150) × ((up ≤ 149) × (down ≤ 276))) }
    ensures plus { (number_value result).negative ≡ false }
    ensures exact { (number_value result).units * 2 ^ down ≡ (number_value y).units * 2 ^ up }
{
    number(stored(y) + up - down, y.significand())
}

/// One half of a positive number, exactly.
pub(crate) fn halved(y: Number) -> Number
    requires { (2 ^ bias ≤ (number_value y).units * 2 ^ 150) × ((number_value y).units ≤ 2 ^ bias * 2 ^ 150) }
    ensures { Halved (number_value y) (number_value result) }
{
    placed(y, 0, 1)
}
