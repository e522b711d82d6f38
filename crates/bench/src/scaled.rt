//! Magnitudes by a significand and an exponent.

ghost use Rattle.std.specs.Prelude.{◌≡◌, ◌*◌, ◌^◌, ◌<◌, ◌≤◌};
ghost use Rattle.registers.specs.Coding.{denoted, finite};

use registers::{Datum, Finite};

/// A magnitude of `significand · 2^exponent` units of `2^-149`, which may be zero.
#[derive(Clone, Copy)]
pub(crate) struct Scaled {
    pub(crate) significand: u32,
    pub(crate) exponent: u32,
    ghost form: { (significand < 2 ^ 24) × (exponent ≤ 253) },
}

impl Scaled {
    /// A sign and this magnitude as a datum.
    pub(crate) fn datum(self, negative: bool) -> Datum
        ensures { denoted result ≡ finite negative (self.significand * 2 ^ self.exponent) }
    {
        Finite::new(negative, self.significand, self.exponent).map_or(
            Datum::Zero { negative },
            Datum::Finite,
        )
    }
}
