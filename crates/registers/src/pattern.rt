//! Patterns of binary32 and what they stand for.

pub mod codes;
pub(crate) mod magnitude;
pub mod parts;

ghost use Rattle.std.specs.Prelude.{◌≡◌, ◌^◌, ◌<◌, ◌≤◌};

/// The pattern of the infinity, without its sign.
pub const INFINITY: u32 = 0x7F80_0000;

/// A binary32 pattern.
#[derive(Clone, Copy, PartialEq, Eq, Debug)]
pub struct Pattern {
    pub(crate) bits: u32,
}

impl Pattern {
    /// The pattern with these bits.
    pub fn from_bits(bits: u32) -> Pattern
        ensures { result.bits ≡ bits }
    {
        Pattern { bits }
    }

    /// Its bits.
    pub fn bits(self) -> u32
        ensures { result ≡ self.bits }
    {
        self.bits
    }
}

/// A finite number other than zero: `± significand · 2^exponent` units of `2^-149`.
/// Its significand has 24 bits unless the exponent is 0, so that each number has one form.
#[derive(Clone, Copy, PartialEq, Eq, Debug)]
pub struct Finite {
    pub(crate) negative: bool,
    pub(crate) significand: u32,
    pub(crate) exponent: u32,
    ghost form: { (0 < significand) × (significand < 2 ^ 24) × (exponent ≤ 253) × (0 < exponent → 2 ^ 23 ≤ significand) },
}

/// What a pattern stands for.
#[derive(Clone, Copy, PartialEq, Eq, Debug)]
pub enum Datum {
    Nan { quiet: bool },
    Infinity { negative: bool },
    Zero { negative: bool },
    Finite(Finite),
}
