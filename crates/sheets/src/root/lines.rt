//! The lines of a root.

ghost use Rattle.std.specs.Prelude.{◌<◌};
ghost use Rattle.registers.specs.declared.register.Choice.TheVariants.{Plus};
ghost use Rattle.registers.specs.Fused.{fused_size};
ghost use Rattle.registers.specs.Values.{value};

use registers::Register;

/// The lines of a root: roots `s` and half reciprocal roots `h`, their errors `d`, and the residuals `e`.
/// The closing value over them is above zero.
#[derive(Clone, Copy)]
pub(crate) struct RootLines {
    pub(crate) y0: Register,
    pub(crate) s0: Register,
    pub(crate) h0: Register,
    pub(crate) d0: Register,
    pub(crate) h1: Register,
    pub(crate) s1: Register,
    pub(crate) d1: Register,
    pub(crate) e1: Register,
    pub(crate) s2: Register,
    pub(crate) h2: Register,
    pub(crate) e2: Register,
    ghost some: { 0 < fused_size Plus (value s2) (value e2) (value h2) },
}
