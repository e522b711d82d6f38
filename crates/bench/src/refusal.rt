//! Why a call is refused.

ghost use Rattle.std.specs.Prelude.{◌≡◌, Some};
ghost use Rattle.bench.specs.Refused.{number as number_of};
ghost use Rattle.bench.specs.Shown.{numbered};
ghost use Rattle.bench.specs.declared.refusal.Refusal.TheVariants.{HighMode, Line};

use registers::UnknownMode;
use std::error::Error;
use std::fmt;

/// Why a call is refused.
#[derive(Clone, Copy, PartialEq, Eq, Debug)]
pub enum Refusal {
    /// A mode's number above 3.
    HighMode,
    /// A count's divisor of zero.
    ZeroDivisor,
    /// A count's operand beyond ±16,777,215.
    Beyond,
    /// A line that is not there.
    Line(sheets::Refusal),
}

impl From<Refusal> for u32 {
    ghost from_gives = { λ refusal n. n ≡ number_of refusal };

    /// The refusal's number.
    fn from(refusal: Refusal) -> u32 {
        match refusal {
            Refusal::HighMode => 1,
            Refusal::ZeroDivisor => 2,
            Refusal::Beyond => 3,
            Refusal::Line(line) => u32::from(line),
        }
    }
}

impl From<UnknownMode> for Refusal {
    ghost from_gives = { λ _ refusal. refusal ≡ HighMode };

    /// A number of no mode, refused.
    fn from(_: UnknownMode) -> Refusal {
        Refusal::HighMode
    }
}

impl From<sheets::Refusal> for Refusal {
    ghost from_gives = { λ e refusal. refusal ≡ Line e };

    /// A question to the sheet, refused.
    fn from(e: sheets::Refusal) -> Refusal {
        Refusal::Line(e)
    }
}

/// `R` and the refusal's number.
impl fmt::Display for Refusal {
    ghost output = { λ refusal. Some (numbered refusal) };

    fn fmt<W: fmt::Write>(&self, f: &mut fmt::Formatter<W>) -> fmt::Result {
        write!(f, "R{}", u32::from(*self))
    }
}

impl Error for Refusal {}
