//! Whole numbers as patterns.

ghost use Rattle.std.specs.Prelude.{◌≡◌, ◌*◌, ◌^◌, ◌<◌, ◌≤◌, MatchOption, unsigned_abs};
ghost use Rattle.registers.specs.Coding.{encoded};
ghost use Rattle.registers.specs.Modes.{with_sign};
ghost use Rattle.sheets.specs.Operands.{units_of};
ghost use Rattle.bench.specs.Counts.{greatest, with_sign_ℤ};
ghost use Rattle.bench.specs.Distances.{whole_pattern};

use crate::scaled::Scaled;
use registers::{Finite, Pattern};

/// The greatest magnitude, which 24 bits hold.
const GREATEST: u32 = 16_777_215;

/// The magnitude of a whole number within ±16,777,215.
#[derive(Clone, Copy)]
pub(crate) struct WholeMagnitude {
    pub(crate) value: u32,
    ghost few: { value < 2 ^ 24 },
}

impl WholeMagnitude {
    /// The magnitude of this value, or nothing where 24 bits do not hold it.
    pub(crate) fn within(n: u64) -> Option<WholeMagnitude>
        ensures { MatchOption result (greatest < n) (λ m. (n ≤ greatest) × (m.value ≡ n)) }
    {
        if n > u64::from(GREATEST) {
            return None;
        }
        Some(WholeMagnitude { value: n as u32 })
    }

    /// The magnitude of this value.
    pub(crate) fn new(value: u32) -> WholeMagnitude
        requires { value < 2 ^ 24 }
        ensures { result.value ≡ value }
    {
        WholeMagnitude { value }
    }

    /// This magnitude as one that is not zero, or nothing where it is.
    pub(crate) fn nonzero(self) -> Option<NonzeroMagnitude>
        ensures { MatchOption result (self.value ≡ 0) (λ n. n.value ≡ self.value) }
    {
        if self.value == 0 {
            return None;
        }
        Some(NonzeroMagnitude { value: self.value })
    }

    /// The pattern of a sign and this magnitude.
    fn pattern(self, negative: bool) -> Pattern
        ensures { result.bits ≡ with_sign negative (encoded (self.value * 2 ^ 149)) }
    {
        let size = Scaled {
            significand: self.value,
            exponent: 149,
        };
        size.datum(negative).encode()
    }

    /// The whole number of a sign and this magnitude.
    pub(crate) fn signed(self, negative: bool) -> i32
        ensures { result ≡ with_sign_ℤ negative self.value }
    {
        let magnitude = self.value as i32;
        if negative { -magnitude } else { magnitude }
    }
}

/// A magnitude other than zero.
#[derive(Clone, Copy)]
pub(crate) struct NonzeroMagnitude {
    pub(crate) value: u32,
    ghost form: { (0 < value) × (value < 2 ^ 24) },
}

impl NonzeroMagnitude {
    /// The number of plus and this magnitude.
    pub(crate) fn number(self) -> Finite
        ensures { units_of result ≡ self.value * 2 ^ 149 }
    {
        Finite::new(false, self.value, 149).unwrap()
    }
}

/// The pattern of a whole number, or nothing beyond ±16,777,215.
pub fn whole_pattern(n: i64) -> Option<Pattern>
    ensures { MatchOption result (greatest < unsigned_abs n) (λ p. (unsigned_abs n ≤ greatest) × (p ≡ whole_pattern n)) }
{
    let magnitude = WholeMagnitude::within(n.unsigned_abs())?;
    Some(magnitude.pattern(n.is_negative()))
}
