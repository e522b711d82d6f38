//! The line source: a seed is the value of a straight line at the operand, refined by two rounds.

ghost use Rattle.std.specs.Prelude.{◌≡◌, ◌<◌, ◌^◌, ℕ, Result};
ghost use Rattle.std.proofs.Common.{rules};
ghost use Rattle.registers.specs.Fused.{answered};
ghost use Rattle.registers.specs.Values.{Value, number_value, value};
ghost use Rattle.sources.specs.Rounds.{Positive, RoundRefines, line_from, line_reciprocal, line_root, reciprocal_round, root_round, units_of};
ghost use Rattle.sources.specs.Seeds.{ReciprocalSeed, RootSeed, plain};
ghost use Rattle.sources.specs.ReciprocalSteps.{reciprocal_positive, reciprocal_refines, reciprocals_are_close};
ghost use Rattle.sources.specs.RootSteps.{root_positive, root_refines, roots_are_close};

use crate::exact::register;
use crate::operand::{Operand, Question, Radicand, Reciprocal, Root, Significand};
use crate::refine::{given, half, step};
use crate::source::Source;
use registers::{Choice, Number, Refusal, Register};

/// A question whose seeds are refined from a straight line.
trait Lined: Question {
    /// The line at an operand of zero, in parts of 256.
    ghost HEIGHT: { ℕ };

    /// How much the line falls for each one of the operand, in parts of 256.
    ghost SLOPE: { ℕ };

    /// One round of refining.
    ghost round: { Value → Value → Result Value ℕ };

    /// What it is for a number to be a seed for an operand within one part in K.
    ghost IsSeed: { ℕ → ℕ → ℕ → Type 0 };

    /// The line at an operand of zero, in parts of 256.
    const HEIGHT: u32;

    /// How much the line falls for each one of the operand, in parts of 256.
    const SLOPE: u32;

    /// One round on a seed for an operand.
    fn round(operand: Register, seed: Register) -> Result<Register, Refusal>
        ensures { answered result ≡ round (value operand) (value seed) };

    /// The line's numbers can be held in registers.
    ghost fits: { (0 < HEIGHT) × (HEIGHT < 2 ^ 30) × (0 < SLOPE) × (SLOPE < 2 ^ 30) };

    /// A round brings any seed within one part in 29 to within one part in 400.
    ghost refines: { RoundRefines Self.Serves IsSeed round };

    /// No step from the line on is refused.
    ghost granted: { (n : ℕ) → Self.Serves n → Positive (line_from HEIGHT SLOPE round n) };
}

/// From `361/256 - (120/256)·b`.
impl Lined for Reciprocal {
    ghost HEIGHT = { 361 };

    ghost SLOPE = { 120 };

    ghost round = { reciprocal_round };

    ghost IsSeed = { ReciprocalSeed };

    ghost fits = { Prim.search rules };

    ghost refines = { reciprocal_refines };

    ghost granted = { reciprocal_positive };

    const HEIGHT: u32 = 361;

    const SLOPE: u32 = 120;

    /// One round on a reciprocal seed: `e = 1 - b·y`, then `y + e·y`.
    fn round(b: Register, y: Register) -> Result<Register, Refusal> {
        let e = step(register(1, 0), Choice::Minus, b, y)?;
        step(y, Choice::Plus, e, y)
    }
}

/// From `273/256 - (39/256)·t`.
impl Lined for Root {
    ghost HEIGHT = { 273 };

    ghost SLOPE = { 39 };

    ghost round = { root_round };

    ghost IsSeed = { RootSeed };

    ghost fits = { Prim.search rules };

    ghost refines = { root_refines };

    ghost granted = { root_positive };

    const HEIGHT: u32 = 273;

    const SLOPE: u32 = 39;

    /// One round on a root seed: `s = t·z`, `d = 1/2 - s·(z/2)`, then `z + d·z`.
    fn round(t: Register, z: Register) -> Result<Register, Refusal> {
        let s = step(Register::Zero, Choice::Plus, t, z)?;
        let h = half(z)?;
        let d = step(register(1, 1), Choice::Minus, s, h)?;
        step(z, Choice::Plus, d, z)
    }
}

/// From the line of a question, two rounds.
fn line<Q: Lined>(operand: Operand<Q>) -> Result<Register, Refusal>
    ensures { answered result ≡ line_from Q.HEIGHT Q.SLOPE Q.round operand.bits }
{
    let x = register(operand.bits(), 23);
    let (height, slope) = (register(Q::HEIGHT, 8), register(Q::SLOPE, 8));
    let start = step(height, Choice::Minus, slope, x)?;
    let once = Q::round(x, start)?;
    Q::round(x, once)
}

/// The seed of the line: no step is refused, as none is in a round from any seed within one part in 29.
fn seed<Q: Lined>(operand: Operand<Q>) -> Number
    ensures value { number_value result ≡ plain (units_of (line_from Q.HEIGHT Q.SLOPE Q.round operand.bits)) }
    ensures refines { RoundRefines Q.Serves Q.IsSeed Q.round }
{
    given(line(operand))
}

/// The source whose seeds are computed from two straight lines.
#[derive(Clone, Copy, PartialEq, Eq, Debug)]
pub struct LineSource;

impl Source for LineSource {
    ghost reciprocals = { λ s b. line_reciprocal b };

    ghost roots = { λ s t. line_root t };

    ghost reciprocals_close = { λ s b h. reciprocals_are_close b h };

    ghost roots_close = { λ s t h. roots_are_close t h };

    #[tactic(auto, unfolding(crate::specs::Rounds::line_reciprocal))]
    fn reciprocal(&self, b: Significand) -> Number {
        seed(b)
    }

    #[tactic(auto, unfolding(crate::specs::Rounds::line_root))]
    fn root(&self, t: Radicand) -> Number {
        seed(t)
    }
}
