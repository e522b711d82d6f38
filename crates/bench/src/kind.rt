//! The kinds of pattern.

ghost use Rattle.std.specs.Prelude.{◌≡◌};
ghost use Rattle.bench.specs.Kinds.{is_infinite, is_nan, is_negative, is_signalling, is_subnormal, is_zero, signs_differ, unsigned as unsigned_of};
ghost use Rattle.bench.specs.Tables.{infinity_of, zero_of};

use registers::pattern::INFINITY;
use registers::{Datum, Pattern};

// By its bits, and not by its datum: the tables name their tests in this order, and a match on two or three data would be no plainer.

/// The pattern without its sign.
pub(crate) fn unsigned(p: Pattern) -> u32
    ensures { result ≡ unsigned_of p }
{
    p.bits() % 0x8000_0000
}

/// Whether the sign bit is set.
#[tactic(auto, unfolding(crate::specs::Kinds::is_negative))]
pub(crate) fn is_negative(p: Pattern) -> bool
    ensures { result ≡ is_negative p }
{
    p.bits() >= 0x8000_0000
}

/// Whether it is a NaN.
#[tactic(auto, unfolding(crate::specs::Kinds::is_nan))]
pub(crate) fn is_nan(p: Pattern) -> bool
    ensures { result ≡ is_nan p }
{
    unsigned(p) > INFINITY
}

/// Whether it is a signalling NaN: one whose bit 22 is not set.
#[tactic(auto, unfolding(crate::specs::Kinds::is_signalling, crate::specs::Kinds::is_nan))]
pub(crate) fn is_signalling(p: Pattern) -> bool
    ensures { result ≡ is_signalling p }
{
    is_nan(p) & (p.bits() / 0x40_0000 % 2 != 1)
}

/// Whether it is an infinity.
#[tactic(auto, unfolding(crate::specs::Kinds::is_infinite))]
pub(crate) fn is_infinite(p: Pattern) -> bool
    ensures { result ≡ is_infinite p }
{
    unsigned(p) == INFINITY
}

/// Whether it is a zero.
#[tactic(auto, unfolding(crate::specs::Kinds::is_zero))]
pub(crate) fn is_zero(p: Pattern) -> bool
    ensures { result ≡ is_zero p }
{
    unsigned(p) == 0
}

/// Whether it is a number other than zero below `2^-126`.
#[tactic(auto, unfolding(crate::specs::Kinds::is_subnormal))]
pub(crate) fn is_subnormal(p: Pattern) -> bool
    ensures { result ≡ is_subnormal p }
{
    (0 < unsigned(p)) & (unsigned(p) < 0x80_0000)
}

/// The sign of a product and of a quotient.
#[tactic(auto, unfolding(crate::specs::Kinds::signs_differ))]
pub(crate) fn signs_differ(p: Pattern, q: Pattern) -> bool
    ensures { result ≡ signs_differ p q }
{
    is_negative(p) != is_negative(q)
}

// Two functions of three lines, which differ in the variant: one with the variant handed to it would be no plainer.

/// The infinity of a sign.
pub(crate) fn infinity(negative: bool) -> Pattern
    ensures { result ≡ infinity_of negative }
{
    Datum::Infinity { negative }.encode()
}

/// The zero of a sign.
pub(crate) fn zero(negative: bool) -> Pattern
    ensures { result ≡ zero_of negative }
{
    Datum::Zero { negative }.encode()
}
