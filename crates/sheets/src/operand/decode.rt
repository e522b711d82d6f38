//! Making an operand out of a finite number, and out of an operand a register number and the radicand of its root.

ghost use Rattle.std.specs.Prelude.{◌≡◌, ◌*◌, ◌/◌, ◌^◌};
ghost use Rattle.registers.specs.Values.{value};
ghost use Rattle.sheets.specs.Operands.{held_at, radicand_of, units_of};

use crate::operand::Operand;
use crate::stored::{number, stored};
use registers::limits::BIAS;
use registers::{Finite, Number, Register};
use sources::{Radicand, Significand};

/// What makes the exponent of an operand out of a stored one.
const SHIFT: u32 = BIAS - 149;

/// The first 24 bits of a register number's significand.
fn first_bits(n: Number) -> Significand
    ensures { result.bits ≡ n.significand / 64 }
{
    Significand::new(n.significand() / 64).unwrap()
}

/// The magnitude of a finite number.
impl From<Finite> for Operand {
    ghost from_gives = { λ x o. o.significand.bits * 2 ^ o.exponent ≡ units_of x * 2 ^ 23 };

    fn from(x: Finite) -> Operand {
        let n = Number::from(x);
        Operand {
            significand: first_bits(n),
            exponent: stored(n) - SHIFT,
        }
    }
}

/// An operand as a register number, exactly.
impl From<Operand> for Register {
    ghost from_gives = { λ x r. value r ≡ held_at x.significand.bits x.exponent };

    fn from(x: Operand) -> Register {
        Register::Nonzero(number(x.exponent + SHIFT, x.significand.bits() * 64))
    }
}

/// The number `T = t · 2^23` of an operand `t · 4^h`, with `t` from 1 up to 4: the significand, or twice that where the power of two is an odd one.
impl From<Operand> for Radicand {
    ghost from_gives = { λ x t. t.bits ≡ radicand_of x.significand.bits x.exponent };

    fn from(x: Operand) -> Radicand {
        let bits = x.significand.bits();
        if x.exponent % 2 == 0 {
            return Radicand::new(2 * bits).unwrap();
        }
        Radicand::new(bits).unwrap()
    }
}
