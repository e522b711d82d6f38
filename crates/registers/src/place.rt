//! An exact value rounded straight to a binary32 pattern.

ghost use Rattle.std.specs.Prelude.{◌≡◌, ℕ, ◌+◌, ◌*◌, ◌^◌, ◌<◌, ◌≤◌};
ghost use Rattle.registers.specs.Binary32.{beside_whole, concluded, is_tiny};
ghost use Rattle.registers.specs.Binary32.{beyond as beyond_of};
ghost use Rattle.registers.specs.Held.{Holds};
ghost use Rattle.registers.specs.Modes.{rounded, under_sign, way_of};
ghost use Rattle.registers.specs.Sides.{Splits, lower_of, middle_of};

use crate::cut::{Part, Side, goes_up};
use crate::exact::Nonzero;
use crate::limits::UNIT;
use crate::mode::{Mode, Rounded, Way};
use crate::pattern::INFINITY;
use crate::pattern::magnitude::Magnitude;

/// The greatest number of 24 bits.
const LAST: u128 = 0xFF_FFFF;

/// How many digits a number from `2^-127` up to `2^-126` has, in squared units.
const SMALL_TOP: u32 = 2 * UNIT - 126;

/// The last place of such a number at 24 bits: `2^-150`.
const SMALL_GRAIN: u32 = 2 * UNIT - 150;

/// The last place of the subnormal numbers: `2^-149`.
const LEAST_GRAIN: u32 = 2 * UNIT - 149;

/// How many digits a number from `2^127` up to `2^128` has.
const GREATEST_TOP: u32 = 2 * UNIT + 128;

impl Nonzero {
    /// The value over `2^grain`, of which at most 24 bits are kept.
    #[tactic(auto, using(crate::proofs::Placing::place_few, crate::proofs::Placing::place_raised))]
    fn over(self, grain: u32) -> Part
        requires { self.top ≤ grain + 24 }
        ensures splits { (n : ℕ) → Holds self.exact n → Splits result.kept result.side grain n }
        ensures few { result.kept < 2 ^ 24 }
    {
        let x = self.exact;
        if grain <= x.exponent {
            return Part {
                kept: x.whole << (x.exponent - grain),
                side: Side::On,
            };
        }
        let shift = grain - x.exponent;
        if shift < 128 {
            return x.split(shift);
        }
        Part {
            kept: 0,
            side: Side::Under,
        }
    }

    /// Whether the value, rounded to 24 bits with unlimited exponent, is below `2^-126`.
    fn is_tiny(self, way: Way) -> bool
        ensures { (n : ℕ) → Holds self.exact n → result ≡ is_tiny way (beside_whole n) }
    {
        if self.top > SMALL_TOP {
            return false;
        }
        let part = self.over(SMALL_GRAIN);
        if part.kept < LAST {
            return true;
        }
        !goes_up(way, part.side, true)
    }
}

/// What stands for a magnitude past the greatest finite one.
fn beyond(way: Way) -> Magnitude
    ensures { result.bits ≡ beyond_of way }
{
    Magnitude {
        bits: match way {
            Way::Inward => INFINITY - 1,
            _ => INFINITY,
        },
    }
}

/// The rounded pattern and the flags, from the greatest pattern not above the magnitude and the side that it lies on.
fn conclude(way: Way, negative: bool, low: Magnitude, side: Side, small: bool) -> Rounded
    ensures { result ≡ under_sign negative (concluded way low.bits (lower_of side) (middle_of side) small) }
{
    let magnitude = low.bits + u32::from(goes_up(way, side, low.bits % 2 == 1));
    if magnitude >= INFINITY {
        return Rounded {
            pattern: beyond(way).signed(negative),
            inexact: true,
            overflow: true,
            underflow: small,
        };
    }
    let inexact = side != Side::On;
    Rounded {
        pattern: Magnitude { bits: magnitude }.signed(negative),
        inexact,
        overflow: false,
        underflow: inexact && small,
    }
}

/// How a magnitude is rounded in a mode under a sign.
fn way_of(mode: Mode, negative: bool) -> Way
    ensures { result ≡ way_of mode negative }
{
    match mode {
        Mode::NearestEven => Way::Nearest,
        Mode::TowardZero => Way::Inward,
        Mode::Down => if negative { Way::Outward } else { Way::Inward },
        Mode::Up => if negative { Way::Inward } else { Way::Outward },
    }
}

impl Nonzero {
    /// The value rounded once to binary32.
    pub(crate) fn to_pattern(self, mode: Mode) -> Rounded
        ensures { (n : ℕ) → Holds self.exact n → result ≡ rounded mode self.exact.negative (beside_whole n) }
    {
        let negative = self.exact.negative;
        let way = way_of(mode, negative);
        if self.top > GREATEST_TOP {
            let infinity = Magnitude { bits: INFINITY };
            return conclude(way, negative, infinity, Side::On, false);
        }
        let grain = self.top.saturating_sub(24).max(LEAST_GRAIN);
        let part = self.over(grain);
        let low = Magnitude {
            bits: (grain - LEAST_GRAIN) * 0x80_0000 + part.kept as u32,
        };
        conclude(way, negative, low, part.side, self.is_tiny(way))
    }
}
