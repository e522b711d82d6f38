//! Register numbers.

pub mod questions;

ghost use Rattle.std.specs.Prelude.{◌^◌, ◌<◌, ◌≤◌};
ghost use Rattle.registers.specs.Range.{span};

/// A register number other than zero: `± significand · 2^(exponent - 29)`, its exponent stored with `BIAS` added.
#[derive(Clone, Copy, PartialEq, Eq, Debug)]
pub struct Number {
    pub(crate) negative: bool,
    pub(crate) exponent: u32,
    pub(crate) significand: u32,
    ghost bounds: { (exponent ≤ span) × (2 ^ 29 ≤ significand) × (significand < 2 ^ 30) },
}

/// A register number. Zero has no sign.
// No Option: zero is a number with a value and a text of its own, not one that is missing, so this name is the plainer one.
#[derive(Clone, Copy, PartialEq, Eq, Debug)]
pub enum Register {
    Zero,
    Nonzero(Number),
}

/// Why a fused step is refused.
#[derive(Clone, Copy, PartialEq, Eq, Debug)]
pub enum Refusal {
    /// A width that is neither 24 nor 30.
    Width,
    /// A rounded value whose exponent is out of range.
    Exponent,
}

/// Whether a fused step adds the product to its addend or takes it away.
#[derive(Clone, Copy, PartialEq, Eq, Debug)]
pub enum Choice {
    Plus,
    Minus,
}
