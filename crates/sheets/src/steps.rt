//! The steps that sheets are made of. None is refused where it is taken.

ghost use Rattle.std.specs.Prelude.{◌≡◌, ◌-◌, ◌^◌, ◌≤◌, true, is_ok, Ok};
ghost use Rattle.registers.specs.declared.register.Choice.TheVariants.{Minus, Plus};
ghost use Rattle.registers.specs.declared.register.Register.TheVariants.{Zero};
ghost use Rattle.registers.specs.Fused.{fused};
ghost use Rattle.registers.specs.Range.{bias, lowest};
ghost use Rattle.registers.specs.Values.{value};
ghost use Rattle.sources.specs.Seeds.{plain};

use crate::stored::number;
use registers::limits::BIAS;
use registers::{Choice, FusedSum, Register};

/// `2^-down`: one, one half and so on.
pub(crate) fn power(down: u32) -> Register
    requires { down ≤ lowest }
    ensures { value result ≡ plain (2 ^ (bias - down)) }
{
    Register::Nonzero(number(BIAS - down, 0x2000_0000))
}

/// `p·q`.
pub(crate) fn product(p: Register, q: Register) -> FusedSum
    ensures { result ≡ record { r = Zero; choice = Plus; p = p; q = q } }
{
    corrected(Register::Zero, p, q)
}

/// `r - p·q`: what a value leaves over a product.
// It and `corrected` differ in the sign alone: two names, so that each step of a sheet reads as its formula.
pub(crate) fn residual(r: Register, p: Register, q: Register) -> FusedSum
    ensures { result ≡ record { r = r; choice = Minus; p = p; q = q } }
{
    FusedSum {
        r,
        choice: Choice::Minus,
        p,
        q,
    }
}

/// `r + p·q`: a value corrected by a product.
pub(crate) fn corrected(r: Register, p: Register, q: Register) -> FusedSum
    ensures { result ≡ record { r = r; choice = Plus; p = p; q = q } }
{
    FusedSum {
        r,
        choice: Choice::Plus,
        p,
        q,
    }
}

/// `x + d·x`: a value improved by its relative error.
pub(crate) fn improved(x: Register, d: Register) -> FusedSum
    ensures { result ≡ record { r = x; choice = Plus; p = d; q = x } }
{
    corrected(x, d, x)
}

/// The line that a sum gives when it is rounded to `WIDTH` bits, which is not refused.
pub(crate) fn line<const WIDTH: u32>(sum: FusedSum) -> Register
    requires { is_ok (fused WIDTH sum.choice (value sum.r) (value sum.p) (value sum.q)) ≡ true }
    ensures { fused WIDTH sum.choice (value sum.r) (value sum.p) (value sum.q) ≡ Ok (value result) }
{
    sum.step(WIDTH).unwrap()
}
