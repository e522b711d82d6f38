//! An exact value rounded to a width, and as a register number.

ghost use Rattle.std.specs.Prelude.{◌≡◌, ℕ, ◌+◌, ◌*◌, ◌^◌, ◌<◌, ◌≤◌, false, ◌&&◌, nat_le};
ghost use Rattle.std.specs.Float.Ieee.{size};
ghost use Rattle.registers.specs.Fused.{answered, kept};
ghost use Rattle.registers.specs.Held.{Holds};
ghost use Rattle.registers.specs.Laws.{NearestLaws};
ghost use Rattle.registers.specs.Nearest.{nearest};
ghost use Rattle.registers.specs.Range.{span, unit};

use crate::cut::length;
use crate::exact::{Coarse, Exact};
use crate::limits::{SPAN, UNIT};
use crate::register::{Number, Refusal, Register};

impl Exact {
    /// The value rounded to `width` bits, to nearest with ties to even.
    #[tactic(auto, using(crate::proofs::Lawful::nearest_laws))]
    pub(crate) fn to_width(self, width: u32) -> Coarse
        requires { (0 < width) × (width ≤ 30) }
        ensures rounds { (n : ℕ) → Holds self n → result.whole * 2 ^ result.exponent ≡ nearest width n }
        ensures sign { result.negative ≡ self.negative }
        ensures laws { NearestLaws }
    {
        let long = length(self.whole);
        if long <= width {
            return Coarse {
                negative: self.negative,
                whole: self.whole,
                exponent: self.exponent,
            };
        }
        let shift = long - width;
        Coarse {
            negative: self.negative,
            whole: self.split(shift).nearest(),
            exponent: self.exponent + shift,
        }
    }
}

/// A number of `long` binary digits, and at most `2^30`, moved to 30 digits.
pub(crate) fn normal(n: u128, long: u32) -> u32
    requires { (long ≡ size n) × ((0 < n) × (n ≤ 2 ^ 30)) }
    ensures same { result * 2 ^ long ≡ n * 2 ^ 30 }
    ensures low { 2 ^ 29 ≤ result }
    ensures high { result < 2 ^ 30 }
{
    ((n << 30) >> long) as u32
}

/// Whether a number of `top` binary digits, in squared units, has an exponent in range.
fn in_range(top: u32) -> bool
    ensures { result ≡ (nat_le (30 + unit) top && nat_le top (30 + span + unit)) }
{
    (30 + UNIT..=30 + SPAN + UNIT).contains(&top)
}

impl Coarse {
    /// The value as a register number.
    #[tactic(auto, using(crate::proofs::Keeping::kept_refused, crate::proofs::Keeping::kept_given))]
    pub(crate) fn to_register(self) -> Result<Register, Refusal>
        ensures { answered result ≡ kept self.negative (self.whole * 2 ^ self.exponent) }
    {
        if self.whole == 0 {
            return Ok(Register::Zero);
        }
        let long = length(self.whole);
        let top = self.exponent + long;
        if !in_range(top) {
            return Err(Refusal::Exponent);
        }
        Ok(Register::Nonzero(Number {
            negative: self.negative,
            exponent: top - 30 - UNIT,
            significand: normal(self.whole, long),
        }))
    }
}
