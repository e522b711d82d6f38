//! Patterns without their signs.

ghost use Rattle.std.specs.Prelude.{◌≡◌, ◌^◌, ◌<◌};
ghost use Rattle.registers.specs.Modes.{with_sign};

use crate::pattern::Pattern;

/// A pattern without its sign.
#[derive(Clone, Copy)]
pub(crate) struct Magnitude {
    pub(crate) bits: u32,
    ghost small: { bits < 2 ^ 31 },
}

impl Magnitude {
    /// The pattern of a sign and of this magnitude.
    pub(crate) fn signed(self, negative: bool) -> Pattern
        ensures { result ≡ record { bits = with_sign negative self.bits } }
    {
        Pattern {
            bits: if negative {
                0x8000_0000 + self.bits
            } else {
                self.bits
            },
        }
    }
}
