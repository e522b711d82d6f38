//! The rows of the printed tables.

use crate::decimal::{Decimal, Scaled};
use registers::{Mode, Register, Rounded};
use std::alloc::AllocError;
use std::fmt;

/// The columns of a register number: its sign, its exponent and its significand, or a zero alone.
#[derive(Clone, Copy)]
struct Parts(Register);

/// The flags that a rounding raises, by name.
#[derive(Clone, Copy)]
struct Raised(Rounded);

/// A mode by its number and its name.
#[derive(Clone, Copy)]
struct Named(Mode);

impl fmt::Display for Parts {
    fn fmt<W: fmt::Write>(&self, f: &mut fmt::Formatter<W>) -> fmt::Result {
        match self.0 {
            Register::Zero => write!(f, "{:<32}", "0"),
            Register::Nonzero(n) => {
                let sign = if n.is_negative() { "-" } else { "+" };
                write!(f, "{sign:<5} {:>9} {:>13}  ", n.exponent(), n.significand())
            }
        }
    }
}

impl fmt::Display for Raised {
    fn fmt<W: fmt::Write>(&self, f: &mut fmt::Formatter<W>) -> fmt::Result {
        f.write_str(match self.0 {
            Rounded { overflow: true, .. } => "overflow, inexact",
            Rounded {
                underflow: true,
                ..
            } => "underflow, inexact",
            Rounded { inexact: true, .. } => "inexact",
            _ => "none",
        })
    }
}

impl fmt::Display for Named {
    fn fmt<W: fmt::Write>(&self, f: &mut fmt::Formatter<W>) -> fmt::Result {
        f.pad(match self.0 {
            Mode::NearestEven => "0 nearest",
            Mode::Down => "1 down",
            Mode::Up => "2 up",
            Mode::TowardZero => "3 toward zero",
        })
    }
}

/// Writes a row of a sheet: a name, and the number in parts and in decimal.
pub(crate) fn write_line(text: &mut String, name: &str, x: Register) -> Result<(), AllocError> {
    let value = Scaled(x).to_string(*text.allocator())?;
    writeln!(text, "{name:<8} {}{value:>20}", Parts(x))
}

/// Writes a row of a refinement: a step's name, its value, and how far `b'·y` is from 1 with the reciprocal that stands.
pub(crate) fn write_step(
    text: &mut String,
    name: &str,
    x: Register,
    away: Register,
) -> Result<(), AllocError> {
    let value = Decimal(x).to_string(*text.allocator())?;
    let rest = Decimal(away).to_string(*text.allocator())?;
    writeln!(text, "{name:<5} {}{value:>13} {rest:>13}", Parts(x))
}

/// Writes a value in each of the four modes, under a head.
pub(crate) fn write_modes<F: Fn(Mode) -> Option<Rounded>>(
    text: &mut String,
    round: F,
) -> Result<(), AllocError>
    requires { F.IsAlwaysCallable round }
{
    writeln!(text, "mode           pattern   flags")?;
    for mode in [Mode::NearestEven, Mode::Down, Mode::Up, Mode::TowardZero] {
        match round(mode) {
            Some(rounded) => writeln!(
                text,
                "{:<14} {}  {}",
                Named(mode),
                rounded.pattern,
                Raised(rounded)
            )?,
            None => writeln!(text, "zero")?,
        }
    }
    Ok(())
}
