//! A number cut at a power of two: what is kept, and where the rest lies.

ghost use Rattle.std.specs.Prelude.{◌≡◌, ℕ, ◌+◌, ◌*◌, ◌/◌, ◌%◌, ◌^◌, ◌<◌, ◌≤◌};
ghost use Rattle.std.specs.Float.Ieee.{size};
ghost use Rattle.registers.specs.Binary32.{goes_up, is_odd};
ghost use Rattle.registers.specs.declared.mode.Way.TheVariants.{Nearest as NearestWay};
ghost use Rattle.registers.specs.Held.{Holds};
ghost use Rattle.registers.specs.Sides.{Sided, Splits, lower_of, middle_of, one};

use crate::exact::Exact;
use crate::mode::Way;
use std::cmp::Ordering;

/// Where a number lies between two neighbours.
#[derive(Clone, Copy, PartialEq, Eq)]
pub(crate) enum Side {
    /// It is the lower one.
    On,
    /// It is below the middle.
    Under,
    /// It is the middle.
    Half,
    /// It is above the middle.
    Over,
}

/// A number over a power of two: the whole multiples, and where it lies from there to the next.
#[derive(Clone, Copy)]
pub(crate) struct Part {
    pub(crate) kept: u128,
    pub(crate) side: Side,
}

/// How many binary digits `n` has.
pub(crate) fn length(n: u128) -> u32
    ensures counts { result ≡ size n }
    ensures few { result ≤ 128 }
{
    128 - n.leading_zeros()
}

/// `2^k`.
fn power(k: u32) -> u128
    requires { k < 128 }
    ensures { result ≡ 2 ^ k }
{
    1 << k
}

/// Where a rest lies that has `rest` units and, where `more` says so, a part of one, of a step of twice `half` units.
fn side_of(rest: u128, half: u128, more: bool) -> Side
    requires { 0 < half }
    ensures { Sided result (2 * rest + one more) (4 * half) }
{
    match rest.cmp(&half) {
        Ordering::Greater => Side::Over,
        Ordering::Equal if more => Side::Over,
        Ordering::Equal => Side::Half,
        Ordering::Less if rest > 0 || more => Side::Under,
        Ordering::Less => Side::On,
    }
}

impl Exact {
    /// The value over `2^shift` units.
    pub(crate) fn split(self, shift: u32) -> Part
        requires { (0 < shift) × (shift < 128) }
        ensures splits { (n : ℕ) → Holds self n → Splits result.kept result.side (shift + self.exponent) n }
        ensures kept { result.kept ≡ self.whole / 2 ^ shift }
    {
        let half = power(shift - 1);
        let rest = self.whole & (power(shift) - 1);
        Part {
            kept: self.whole >> shift,
            side: side_of(rest, half, self.more),
        }
    }
}

/// Whether a number goes up from the lower one of its neighbours, which may be odd.
pub(crate) fn goes_up(way: Way, side: Side, odd: bool) -> bool
    ensures { result ≡ goes_up way (lower_of side) (middle_of side) odd }
{
    match (way, side) {
        (_, Side::On) => false,
        (Way::Nearest, Side::Half) => odd,
        (Way::Nearest, Side::Over) => true,
        (Way::Nearest, Side::Under) => false,
        (Way::Inward, _) => false,
        (Way::Outward, _) => true,
    }
}

impl Part {
    /// The multiple that the number is rounded to.
    pub(crate) fn nearest(self) -> u128
        requires { self.kept < 2 ^ 127 }
        ensures { result ≡ self.kept + one (goes_up NearestWay (lower_of self.side) (middle_of self.side) (is_odd self.kept)) }
    {
        self.kept + u128::from(goes_up(Way::Nearest, self.side, self.kept % 2 == 1))
    }
}
