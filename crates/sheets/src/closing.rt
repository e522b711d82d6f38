//! The closing value of a sheet.

pub mod calls;

ghost use Rattle.std.specs.Prelude.{◌≡◌, ◌<◌};
ghost use Rattle.registers.specs.declared.register.Choice.TheVariants.{Plus};
ghost use Rattle.registers.specs.Fused.{fused_size};
ghost use Rattle.registers.specs.Values.{value};

use registers::FusedSum;

/// The sum `r + p·q` of three lines, which is above zero, before it is rounded.
#[derive(Clone, Copy, PartialEq, Eq, Debug)]
pub struct Closing {
    sum: FusedSum,
    ghost plus: { sum.choice ≡ Plus },
    ghost some: { 0 < fused_size Plus (value sum.r) (value sum.p) (value sum.q) },
}
