//! The fused step.

ghost use Rattle.std.specs.Prelude.{◌≡◌, ◌<◌, ◌≤◌};
ghost use Rattle.registers.specs.Fused.{answered, fused, fused_at};
ghost use Rattle.registers.specs.Laws.{NearestLaws};
ghost use Rattle.registers.specs.Values.{value};

use crate::fused::FusedSum;
use crate::register::{Refusal, Register};

impl FusedSum {
    /// The step at a width that is not looked at.
    fn step_at(self, width: u32) -> Result<Register, Refusal>
        requires { (0 < width) × (width ≤ 30) }
        ensures answer { answered result ≡ fused_at width self.choice (value self.r) (value self.p) (value self.q) }
        ensures laws { NearestLaws }
    {
        self.exact().to_width(width).to_register()
    }

    /// The sum formed exactly and rounded once, to nearest with ties to even, to `width` significant bits.
    /// Refused where the width is neither 24 nor 30, and else where the rounded value's exponent is out of range.
    // The width is a number, and no enum: a width that no step has is refused, and a narrower type would ask more of callers.
    #[tactic(auto, using(crate::proofs::Lawful::nearest_laws))]
    pub fn step(self, width: u32) -> Result<Register, Refusal>
        ensures answer { answered result ≡ fused width self.choice (value self.r) (value self.p) (value self.q) }
        ensures laws { NearestLaws }
    {
        if width == 24 || width == 30 {
            return self.step_at(width);
        }
        Err(Refusal::Width)
    }
}
