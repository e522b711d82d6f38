//! The inner forms of an exact value.

ghost use Rattle.std.specs.Prelude.{◌≡◌, ◌+◌, ◌^◌, ◌<◌, ◌≤◌, T, MatchOption};
ghost use Rattle.std.specs.Float.Ieee.{size};

use crate::cut::length;

/// One of the two terms of a sum: `± whole · 2^exponent` squared units.
// Beside `Coarse`, which has the same fields: the bounds are what each is for, and one type for both would know less.
#[derive(Clone, Copy)]
pub(crate) struct Term {
    pub(crate) negative: bool,
    pub(crate) whole: u128,
    pub(crate) exponent: u32,
    ghost sizes: { (whole < 2 ^ 60) × (0 < whole → 2 ^ 29 ≤ whole) × (exponent < 2 ^ 19) },
}

/// A signed magnitude of `whole` units of `2^exponent` and, where `more` says so, a part of one besides.
// `more` is no Option: no rounding asks how great the part is, so no value stands beside it.
#[derive(Clone, Copy)]
pub(crate) struct Exact {
    pub(crate) negative: bool,
    pub(crate) whole: u128,
    pub(crate) exponent: u32,
    pub(crate) more: bool,
    ghost sizes: { (whole < 2 ^ 124) × (T more → 2 ^ 32 ≤ whole) × (exponent < 2 ^ 19) },
}

/// An exact value other than zero, whose whole multiples of a unit are below `2^top` and not below half of that.
#[derive(Clone, Copy)]
pub(crate) struct Nonzero {
    pub(crate) exact: Exact,
    pub(crate) top: u32,
    ghost some: { 0 < exact.whole },
    ghost topped: { top ≡ exact.exponent + size exact.whole },
}

/// A value of few bits: `± whole · 2^exponent` squared units.
// Beside `Term`, which has the same fields: see there.
#[derive(Clone, Copy)]
pub(crate) struct Coarse {
    pub(crate) negative: bool,
    pub(crate) whole: u128,
    pub(crate) exponent: u32,
    ghost sizes: { (whole ≤ 2 ^ 30) × (exponent < 2 ^ 20) },
}

impl Exact {
    /// The value where it is other than zero.
    pub(crate) fn nonzero(self) -> Option<Nonzero>
        ensures { MatchOption result (self.whole ≡ 0) (λ x. x.exact ≡ self) }
    {
        if self.whole == 0 {
            return None;
        }
        Some(Nonzero {
            exact: self,
            top: self.exponent + length(self.whole),
        })
    }
}
