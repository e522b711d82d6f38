//! Building a finite number and asking it.

ghost use Rattle.std.specs.Prelude.{◌≡◌, ◌*◌, ◌^◌, ◌<◌, ◌≤◌, MatchOption};
ghost use Rattle.registers.specs.Coding.{Writable, finite, finite_meaning};

use crate::cut::length;
use crate::pattern::Finite;

/// The number in its one form: the significand moved up until it has 24 bits or the exponent is 0.
#[tactic(auto, using(crate::proofs::Formed::few_digits, crate::proofs::Formed::form, crate::proofs::Formed::same))]
fn normal_form(negative: bool, significand: u32, exponent: u32) -> Finite
    requires { (0 < significand) × ((significand < 2 ^ 24) × (exponent ≤ 253)) }
    ensures { finite_meaning result ≡ finite negative (significand * 2 ^ exponent) }
{
    let short = 24 - length(u128::from(significand));
    let shift = short.min(exponent);
    Finite {
        negative,
        significand: significand << shift,
        exponent: exponent - shift,
    }
}

// A register number is asked the same. A trait for questions of one line each would be no plainer.
impl Finite {
    /// The number `± significand · 2^exponent` units of `2^-149`.
    /// Nothing where the significand is 0 or has more than 24 bits, or where the exponent is above 253.
    pub fn new(negative: bool, significand: u32, exponent: u32) -> Option<Finite>
        ensures { MatchOption result (Writable significand exponent → ⊥) (λ x. finite_meaning x ≡ finite negative (significand * 2 ^ exponent)) }
    {
        if !(1..0x100_0000).contains(&significand) || exponent > 253 {
            return None;
        }
        Some(normal_form(negative, significand, exponent))
    }

    /// Whether it is below zero.
    pub fn is_negative(self) -> bool
        ensures { result ≡ self.negative }
    {
        self.negative
    }

    /// Its significand, which has 24 bits unless the exponent is 0.
    pub fn significand(self) -> u32
        ensures { result ≡ self.significand }
    {
        self.significand
    }

    /// Its exponent, from 0 to 253.
    pub fn exponent(self) -> u32
        ensures { result ≡ self.exponent }
    {
        self.exponent
    }
}
