//! An operand as a significand of 24 bits and an exponent.

pub(crate) mod decode;

ghost use Rattle.std.specs.Prelude.{◌≤◌};

use sources::Significand;

/// The magnitude of a finite number: `significand · 2^(exponent - 172)`.
#[derive(Clone, Copy)]
pub(crate) struct Operand {
    pub(crate) significand: Significand,
    pub(crate) exponent: u32,
    ghost range: { exponent ≤ 276 },
}
