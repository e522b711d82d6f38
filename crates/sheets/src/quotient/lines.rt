//! The lines of a quotient.

ghost use Rattle.std.specs.Prelude.{◌<◌};
ghost use Rattle.registers.specs.declared.register.Choice.TheVariants.{Plus};
ghost use Rattle.registers.specs.Fused.{fused_size};
ghost use Rattle.registers.specs.Values.{value};

use registers::Register;

/// The lines of a quotient: a reciprocal seed of the divisor and its error, a better reciprocal, a quotient and its residual.
/// The closing value over them is above zero.
#[derive(Clone, Copy)]
pub(crate) struct QuotientLines {
    pub(crate) y0: Register,
    pub(crate) e0: Register,
    pub(crate) e1: Register,
    pub(crate) y1: Register,
    pub(crate) q1: Register,
    pub(crate) r1: Register,
    ghost some: { 0 < fused_size Plus (value q1) (value r1) (value y1) },
}
