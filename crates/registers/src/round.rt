//! The one rounding of an exact value to binary32.

ghost use Rattle.std.specs.Prelude.{◌≡◌, ℕ, if◌then◌else◌, Some as SomeCase, None as NoneCase, nat_eq};
ghost use Rattle.registers.specs.Binary32.{beside_whole};
ghost use Rattle.registers.specs.Held.{Holds};
ghost use Rattle.registers.specs.Modes.{fused_rounded, magnitude_rounded, rounded};
ghost use Rattle.registers.specs.Rightly.{RightRounding, SameSideSameRounding};
ghost use Rattle.registers.specs.Values.{value};

use crate::exact::Exact;
use crate::fused::FusedSum;
use crate::mode::{Mode, Rounded};

impl Exact {
    /// The value rounded once to binary32, or nothing where it is zero.
    #[tactic(auto, using(crate::proofs::Standing::right_rounding, crate::proofs::Standing::same_side))]
    fn round(self, mode: Mode) -> Option<Rounded>
        ensures answer { (n : ℕ) → Holds self n → result ≡ (if nat_eq n 0 then NoneCase else SomeCase (rounded mode self.negative (beside_whole n))) }
        ensures right { RightRounding }
        ensures same_side { SameSideSameRounding }
    {
        let x = self.nonzero()?;
        Some(x.to_pattern(mode))
    }
}

impl FusedSum {
    /// The sum formed exactly and rounded once, straight to binary32, in a mode, with the flags that this raises.
    /// Nothing where the value is zero: the sign of a zero is the caller's to choose.
    pub fn round(self, mode: Mode) -> Option<Rounded>
        ensures answer { result ≡ fused_rounded mode self.choice (value self.r) (value self.p) (value self.q) }
        ensures right { RightRounding }
        ensures same_side { SameSideSameRounding }
    {
        self.exact().round(mode)
    }

    /// The sum's magnitude formed exactly and rounded once, straight to binary32, in a mode, under a sign that the caller gives.
    /// Nothing where the value is zero.
    pub fn round_magnitude(self, negative: bool, mode: Mode) -> Option<Rounded>
        ensures answer { result ≡ magnitude_rounded mode negative self.choice (value self.r) (value self.p) (value self.q) }
        ensures right { RightRounding }
        ensures same_side { SameSideSameRounding }
    {
        let mut magnitude = self.exact();
        magnitude.negative = negative;
        magnitude.round(mode)
    }
}
