//! What a round of refining a seed is made of: fused steps of 30 bits, half of a number, and the number that steps give.

ghost use Rattle.std.specs.Prelude.{◌≡◌, ◌<◌};
ghost use Rattle.registers.specs.Fused.{answered};
ghost use Rattle.registers.specs.Values.{number_value, value};
ghost use Rattle.sources.specs.Rounds.{Positive, half as half_of, step as step_of, units_of};
ghost use Rattle.sources.specs.Seeds.{plain};

use registers::{Choice, FusedSum, Number, Refusal, Register};

/// `r + p·q` or `r - p·q`, rounded to 30 bits.
// Four parameters by place, and no literal of the sum at each call: a round reads as its formula so.
// The program `worksheet` has one like it: a step is no part of what a crate of seeds gives, and the step below both takes any width.
#[tactic(auto, unfolding(crate::specs::Rounds::step))]
pub(crate) fn step(
    r: Register,
    choice: Choice,
    p: Register,
    q: Register,
) -> Result<Register, Refusal>
    ensures { answered result ≡ step_of choice (value r) (value p) (value q) }
{
    FusedSum { r, choice, p, q }.step(30)
}

/// Half of a number, exactly; refused where the number has the least exponent.
pub(crate) fn half(z: Register) -> Result<Register, Refusal>
    ensures { answered result ≡ half_of (value z) }
{
    let Register::Nonzero(x) = z else {
        return Ok(z);
    };
    let halved = Number::new(x.is_negative(), x.exponent() - 1, x.significand());
    let h = halved.ok_or(Refusal::Exponent)?;
    Ok(Register::Nonzero(h))
}

/// The number of an answer that is one above zero.
pub(crate) fn given(answer: Result<Register, Refusal>) -> Number
    requires { Positive (answered answer) }
    ensures { number_value result ≡ plain (units_of (answered answer)) }
{
    match answer {
        Ok(Register::Nonzero(n)) => n,
        _ => unreachable!(),
    }
}
