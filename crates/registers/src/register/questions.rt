//! Building a register number and asking it.

ghost use Rattle.std.specs.Prelude.{◌≡◌, ◌-◌, ◌*◌, ◌^◌, ◌<◌, ◌≤◌, MatchOption};
ghost use Rattle.registers.specs.Fused.{number as number_of};
ghost use Rattle.registers.specs.Range.{bias};
ghost use Rattle.registers.specs.Values.{Buildable, Built, exponent_of, finite_value, number_value, value};

use crate::cut::length;
use crate::fit::normal;
use crate::limits::{BIAS, GREATEST_EXPONENT, LEAST_EXPONENT, UNIT};
use crate::pattern::Finite;
use crate::register::{Number, Refusal, Register};

/// What makes the stored exponent of a finite binary32 number out of its exponent and the length of its significand.
const BINARY32_SHIFT: u32 = UNIT - 149 - 30;

impl Number {
    /// The number `± significand · 2^(exponent - 29)`, or nothing where the exponent or the significand is out of range.
    pub fn new(negative: bool, exponent: i32, significand: u32) -> Option<Number>
        ensures { MatchOption result (Buildable exponent significand → ⊥) (λ n. Built negative exponent significand n) }
    {
        if !(LEAST_EXPONENT..=GREATEST_EXPONENT).contains(&exponent) {
            return None;
        }
        if !(0x2000_0000..0x4000_0000).contains(&significand) {
            return None;
        }
        Some(Number {
            negative,
            exponent: (exponent + BIAS as i32) as u32,
            significand,
        })
    }

    /// Whether it is below zero.
    pub fn is_negative(self) -> bool
        ensures { result ≡ self.negative }
    {
        self.negative
    }

    /// Its exponent, from `LEAST_EXPONENT` to `GREATEST_EXPONENT`.
    pub fn exponent(self) -> i32
        ensures { result ≡ exponent_of self.exponent }
    {
        self.exponent as i32 - BIAS as i32
    }

    /// Its significand, from `2^29` to `2^30 - 1`.
    pub fn significand(self) -> u32
        ensures { result ≡ self.significand }
    {
        self.significand
    }
}

/// A finite binary32 number, exactly.
impl From<Finite> for Number {
    ghost from_gives = { λ x n. number_value n ≡ finite_value x };

    #[tactic(auto, using(crate::proofs::Scaling::finite_size))]
    fn from(x: Finite) -> Number {
        let long = length(u128::from(x.significand));
        Number {
            negative: x.negative,
            exponent: x.exponent + long + BINARY32_SHIFT,
            significand: normal(u128::from(x.significand), long),
        }
    }
}

/// A finite binary32 number, exactly.
impl From<Finite> for Register {
    ghost from_gives = { λ x r. value r ≡ finite_value x };

    fn from(x: Finite) -> Register {
        Register::Nonzero(Number::from(x))
    }
}

/// The refusal's number.
impl From<Refusal> for u32 {
    ghost from_gives = { λ refusal n. n ≡ number_of refusal };

    fn from(refusal: Refusal) -> u32 {
        match refusal {
            Refusal::Width => 5,
            Refusal::Exponent => 7,
        }
    }
}
