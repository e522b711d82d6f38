//! How patterns, register numbers and their errors are printed.

ghost use Rattle.std.specs.Prelude.{Some};
ghost use Rattle.registers.specs.Texts.{number_text, pattern_text, register_text, unknown_mode_text};

use crate::mode::UnknownMode;
use crate::pattern::Pattern;
use crate::register::{Number, Register};
use std::fmt;

/// Eight upper-case hexadecimal digits.
impl fmt::Display for Pattern {
    ghost output = { λ p. Some (pattern_text p) };

    #[tactic(auto, using(crate::proofs::Printed::eight_digits))]
    fn fmt<W: fmt::Write>(&self, f: &mut fmt::Formatter<W>) -> fmt::Result {
        write!(f, "{:08X}", self.bits)
    }
}

/// Sign, exponent, colon, significand.
impl fmt::Display for Number {
    ghost output = { λ x. Some (number_text x) };

    fn fmt<W: fmt::Write>(&self, f: &mut fmt::Formatter<W>) -> fmt::Result {
        let sign = if self.negative { "-" } else { "+" };
        write!(f, "{sign}{}:{}", self.exponent(), self.significand)
    }
}

/// `0`, or the number.
impl fmt::Display for Register {
    ghost output = { λ x. Some (register_text x) };

    fn fmt<W: fmt::Write>(&self, f: &mut fmt::Formatter<W>) -> fmt::Result {
        match self {
            Register::Zero => write!(f, "0"),
            Register::Nonzero(x) => write!(f, "{x}"),
        }
    }
}

impl fmt::Display for UnknownMode {
    ghost output = { λ e. Some (unknown_mode_text e) };

    fn fmt<W: fmt::Write>(&self, f: &mut fmt::Formatter<W>) -> fmt::Result {
        write!(f, "no mode has the number {}", self.0)
    }
}
