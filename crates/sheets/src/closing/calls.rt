//! Making a closing value and rounding it.

ghost use Rattle.std.specs.Prelude.{◌≡◌, ◌<◌};
ghost use Rattle.registers.specs.declared.register.Choice.TheVariants.{Plus};
ghost use Rattle.registers.specs.Binary32.{beside_whole};
ghost use Rattle.registers.specs.Fused.{fused_size};
ghost use Rattle.registers.specs.Modes.{rounded};
ghost use Rattle.registers.specs.Values.{value};
ghost use Rattle.sheets.specs.Closed.{closing_size};

use crate::closing::Closing;
use crate::steps::corrected;
use registers::mode::Rounded;
use registers::{FusedSum, Mode, Register};

impl Closing {
    /// The closing value `r + p·q`.
    pub(crate) fn new(r: Register, p: Register, q: Register) -> Closing
        requires { 0 < fused_size Plus (value r) (value p) (value q) }
        ensures { closing_size result ≡ fused_size Plus (value r) (value p) (value q) }
    {
        Closing {
            sum: corrected(r, p, q),
        }
    }

    /// The sum whose value it is, before it is rounded.
    pub fn sum(self) -> FusedSum
        ensures { result ≡ self.sum }
    {
        let Closing { sum } = self;
        sum
    }

    /// The value rounded once, straight to binary32, in a mode, under a sign, with the flags that this raises.
    pub fn round(self, negative: bool, mode: Mode) -> Rounded
        ensures answer { result ≡ rounded mode negative (beside_whole (closing_size self)) }
    {
        self.sum.round_magnitude(negative, mode).unwrap()
    }
}
