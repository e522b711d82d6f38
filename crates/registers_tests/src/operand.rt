//! Register numbers for the examples.

use registers::{Datum, Number, Pattern, Register};

/// The register number of a pattern; zero where that is not finite.
pub(crate) fn register(bits: u32) -> Register {
    match Pattern::from_bits(bits).decode() {
        Datum::Finite(x) => Register::from(x),
        _ => Register::Zero,
    }
}

/// The register number with these parts; zero where they are out of range.
pub(crate) fn number(negative: bool, exponent: i32, significand: u32) -> Register {
    Number::new(negative, exponent, significand).map_or(Register::Zero, Register::Nonzero)
}
