//! Rounding modes, and what a rounding gives.

ghost use Rattle.std.specs.Prelude.{◌≡◌, ok_or};
ghost use Rattle.registers.specs.Modes.{mode_number, mode_of};

use crate::pattern::Pattern;
use std::error::Error;

/// A rounding mode.
#[derive(Clone, Copy, PartialEq, Eq, Debug)]
pub enum Mode {
    /// To nearest, a tie to the even one.
    NearestEven,
    /// Toward minus infinity.
    Down,
    /// Toward plus infinity.
    Up,
    /// Toward zero.
    TowardZero,
}

/// How a magnitude is rounded: what the mode and the sign come to.
#[derive(Clone, Copy, PartialEq, Eq)]
pub(crate) enum Way {
    Nearest,
    Inward,
    Outward,
}

/// A value rounded to binary32, with the flags that this raises.
#[derive(Clone, Copy, PartialEq, Eq, Debug)]
pub struct Rounded {
    pub pattern: Pattern,
    pub inexact: bool,
    pub overflow: bool,
    pub underflow: bool,
}

/// A number that no mode has.
#[derive(Clone, Copy, PartialEq, Eq, Debug)]
pub struct UnknownMode(pub u32);

/// The mode's number: 0 nearest with ties to even, 1 down, 2 up, 3 toward zero.
impl From<Mode> for u32 {
    ghost from_gives = { λ mode n. n ≡ mode_number mode };

    fn from(mode: Mode) -> u32 {
        match mode {
            Mode::NearestEven => 0,
            Mode::Down => 1,
            Mode::Up => 2,
            Mode::TowardZero => 3,
        }
    }
}

/// The mode of a number from 0 to 3, and none of any other.
impl TryFrom<u32> for Mode {
    type Error = UnknownMode;

    ghost try_from_gives = { λ n r. r ≡ ok_or (mode_of n) (record { 0 = n }) };

    fn try_from(n: u32) -> Result<Mode, UnknownMode> {
        match n {
            0 => Ok(Mode::NearestEven),
            1 => Ok(Mode::Down),
            2 => Ok(Mode::Up),
            3 => Ok(Mode::TowardZero),
            _ => Err(UnknownMode(n)),
        }
    }
}

impl Error for UnknownMode {}
