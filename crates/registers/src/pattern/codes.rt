//! Decoding a pattern and encoding a number.

ghost use Rattle.std.specs.Prelude.{◌≡◌, ◌+◌, ◌*◌, ◌^◌, ◌<◌};
ghost use Rattle.registers.specs.Binary32.{magnitude as magnitude_of};
ghost use Rattle.registers.specs.Coding.{NumberComesBack, PatternComesBack, denoted, encoded, encoding, finite, finite_meaning, meaning};

use crate::pattern::magnitude::Magnitude;
use crate::pattern::{Datum, Finite, INFINITY, Pattern};

/// The finite number other than zero of a sign and of a magnitude's pattern.
#[tactic(auto, using(crate::proofs::Grids::magnitude_low, crate::proofs::Grids::magnitude_normal))]
fn finite_of(negative: bool, magnitude: u32) -> Finite
    requires { (0 < magnitude) × (magnitude < 0x7F800000) }
    ensures { finite_meaning result ≡ finite negative (magnitude_of magnitude) }
{
    if magnitude < 0x80_0000 {
        return Finite {
            negative,
            significand: magnitude,
            exponent: 0,
        };
    }
    Finite {
        negative,
        significand: 0x80_0000 + magnitude % 0x80_0000,
        exponent: magnitude / 0x80_0000 - 1,
    }
}

/// The pattern of a finite number's magnitude.
#[tactic(auto, using(crate::proofs::Encodings::encoded_at))]
fn magnitude_of(x: Finite) -> Magnitude
    ensures value { result.bits ≡ encoded (x.significand * 2 ^ x.exponent) }
    ensures small { result.bits < 0x7F800000 }
{
    Magnitude {
        bits: x.exponent * 0x80_0000 + x.significand,
    }
}

impl Pattern {
    /// What it stands for. Every pattern but a NaN's comes back by `encode`.
    #[tactic(auto, using(crate::proofs::Encodings::zero_meaning, crate::proofs::Encodings::meaning_finite))]
    pub fn decode(self) -> Datum
        ensures value { denoted result ≡ meaning self.bits }
        ensures back { PatternComesBack self.bits (denoted result) }
    {
        let negative = self.bits >= 0x8000_0000;
        let magnitude = self.bits % 0x8000_0000;
        if magnitude > INFINITY {
            return Datum::Nan {
                quiet: self.bits / 0x40_0000 % 2 == 1,
            };
        }
        if magnitude == INFINITY {
            return Datum::Infinity { negative };
        }
        if magnitude == 0 {
            return Datum::Zero { negative };
        }
        Datum::Finite(finite_of(negative, magnitude))
    }
}

impl Datum {
    /// Its pattern, which for every NaN is 7FC00000. Every number comes back by `decode`.
    #[tactic(auto, using(crate::proofs::Encodings::encoded_zero, crate::proofs::Encodings::number_back))]
    pub fn encode(self) -> Pattern
        ensures value { result.bits ≡ encoding (denoted self) }
        ensures back { NumberComesBack (denoted self) result.bits }
    {
        match self {
            Datum::Nan { quiet: _ } => Pattern { bits: 0x7FC0_0000 },
            Datum::Infinity { negative } => Magnitude { bits: INFINITY }.signed(negative),
            Datum::Zero { negative } => Magnitude { bits: 0 }.signed(negative),
            Datum::Finite(x) => magnitude_of(x).signed(x.negative),
        }
    }
}
