//! The six flags.

ghost use Rattle.std.specs.Prelude.{◌≡◌, Some};
ghost use Rattle.bench.specs.Raised.{joined_flags};
ghost use Rattle.bench.specs.Shown.{letter, letters};

use std::fmt;
use std::ops::BitOr;

/// The flags that are up.
#[derive(Clone, Copy, Default, PartialEq, Eq, Debug)]
pub struct Flags {
    pub invalid: bool,
    pub zero_divide: bool,
    pub overflow: bool,
    pub underflow: bool,
    pub inexact: bool,
    pub denormal: bool,
}

/// The flags that are up in either.
impl BitOr for Flags {
    type Output = Flags;

    ghost bitor_gives = { λ f g both. both ≡ joined_flags f g };

    fn bitor(self, other: Flags) -> Flags {
        Flags {
            invalid: self.invalid | other.invalid,
            zero_divide: self.zero_divide | other.zero_divide,
            overflow: self.overflow | other.overflow,
            underflow: self.underflow | other.underflow,
            inexact: self.inexact | other.inexact,
            denormal: self.denormal | other.denormal,
        }
    }
}

/// A flag's letter, or a dash where the flag is down.
fn letter(up: bool, name: &'static str) -> &'static str
    ensures { result.now ≡ letter up name.now }
{
    if up { name } else { "-" }
}

/// The six letters, each a dash where its flag is down.
impl fmt::Display for Flags {
    ghost output = { λ flags. Some (letters flags) };

    fn fmt<W: fmt::Write>(&self, f: &mut fmt::Formatter<W>) -> fmt::Result {
        let i = letter(self.invalid, "I");
        let z = letter(self.zero_divide, "Z");
        let o = letter(self.overflow, "O");
        let u = letter(self.underflow, "U");
        let x = letter(self.inexact, "X");
        let d = letter(self.denormal, "D");
        write!(f, "{i}{z}{o}{u}{x}{d}")
    }
}
