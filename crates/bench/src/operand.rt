//! Finite patterns as operands.

ghost use Rattle.std.specs.Prelude.{◌≡◌, ◌-◌, ◌*◌, ◌^◌, ◌<◌, MatchOption};
ghost use Rattle.registers.specs.Range.{bias};
ghost use Rattle.registers.specs.Values.{value};
ghost use Rattle.bench.specs.Kinds.{Stands, is_negative, units, unsigned};

use registers::{Datum, Finite, Pattern, Register};

/// An operand that no row of a table decides: a finite pattern.
#[derive(Clone, Copy)]
pub(crate) struct FinitePattern {
    pub(crate) pattern: Pattern,
    ghost finite: { unsigned pattern < 0x7F800000 },
}

impl FinitePattern {
    /// The operand of a finite pattern.
    pub(crate) fn new(pattern: Pattern) -> FinitePattern
        requires { unsigned pattern < 0x7F800000 }
        ensures { result.pattern ≡ pattern }
    {
        FinitePattern { pattern }
    }

    /// The number that it stands for, or nothing where that is zero.
    pub(crate) fn number(self) -> Option<Finite>
        ensures { MatchOption result (unsigned self.pattern ≡ 0) (λ x. Stands x self.pattern) }
    {
        match self.pattern.decode() {
            Datum::Finite(x) => Some(x),
            Datum::Zero { negative: _ } => None,
            Datum::Infinity { negative: _ } | Datum::Nan { quiet: _ } => unreachable!(),
        }
    }

    /// The number that it stands for, which is not zero.
    pub(crate) fn nonzero(self) -> Finite
        requires { 0 < unsigned self.pattern }
        ensures { Stands result self.pattern }
    {
        self.number().unwrap()
    }

    /// It as a register number, exactly.
    pub(crate) fn register(self) -> Register
        ensures size { (value result).units ≡ units self.pattern * 2 ^ (bias - 149) }
        ensures sign { 0 < units self.pattern → (value result).negative ≡ is_negative self.pattern }
    {
        self.number().map_or(Register::Zero, Register::from)
    }
}
