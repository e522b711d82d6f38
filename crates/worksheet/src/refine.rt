//! The refinement of a reciprocal from a straight line.

ghost use Rattle.std.specs.Prelude.{◌≡◌, ◌*◌, ◌^◌, false, pos, neg_ℤ, IfOk};
ghost use Rattle.registers.specs.Fused.{answered, fused};
ghost use Rattle.registers.specs.Values.{Built, value};
ghost use Rattle.worksheet.specs.Refined.{Refined, Round};

use registers::{Choice, FusedSum, Number, Refusal, Register};

/// The lines of a refinement: three reciprocals, and after each what is left of 1.
#[derive(Clone, Copy)]
pub struct Lines {
    pub start: Register,
    pub rest_0: Register,
    pub once: Register,
    pub rest_1: Register,
    pub twice: Register,
    pub rest_2: Register,
}

/// The numbers 1, 361/256 and 120/256.
#[derive(Clone, Copy)]
pub struct Constants {
    pub one: Number,
    pub line: Number,
    pub slope: Number,
}

impl Constants {
    /// The constants, all of which are in range.
    pub fn new() -> Constants
        ensures one { Built false (pos 0) (2 ^ 29) result.one }
        ensures line { Built false (pos 0) (361 * 2 ^ 21) result.line }
        ensures slope { Built false (neg_ℤ (pos 2)) (120 * 2 ^ 23) result.slope }
    {
        Constants {
            one: Number::new(false, 0, 0x2000_0000).unwrap(),
            line: Number::new(false, 0, 361 << 21).unwrap(),
            slope: Number::new(false, -2, 120 << 23).unwrap(),
        }
    }
}

/// A fused step of width 30.
// Four parameters by place, and no literal of the sum at each call: a round reads as its formula so. The sources keep theirs to themselves.
fn step(r: Register, choice: Choice, p: Register, q: Register) -> Result<Register, Refusal>
    ensures { answered result ≡ fused 30 choice (value r) (value p) (value q) }
{
    FusedSum { r, choice, p, q }.step(30)
}

/// What is left of 1 by `b·y`, and the next reciprocal.
fn round(one: Register, b: Register, y: Register) -> Result<(Register, Register), Refusal>
    ensures { IfOk result (λ z. Round (value one) (value b) (value y) (value z.0) (value z.1)) }
{
    let rest = step(one, Choice::Minus, b, y)?;
    let next = step(y, Choice::Plus, rest, y)?;
    Ok((rest, next))
}

/// The lines for `b`: the start on the straight line, two rounds, and what is left of 1 at the end.
pub fn refine(c: Constants, b: Register) -> Result<Lines, Refusal>
    ensures { IfOk result (λ lines. Refined c (value b) lines) }
{
    let one = Register::Nonzero(c.one);
    let line = Register::Nonzero(c.line);
    let slope = Register::Nonzero(c.slope);
    let start = step(line, Choice::Minus, slope, b)?;
    let (rest_0, once) = round(one, b, start)?;
    let (rest_1, twice) = round(one, b, once)?;
    let rest_2 = step(one, Choice::Minus, b, twice)?;
    Ok(Lines {
        start,
        rest_0,
        once,
        rest_1,
        twice,
        rest_2,
    })
}
