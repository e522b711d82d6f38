//! The quotient: its sheet, and the closing value rounded once.

ghost use Rattle.std.specs.Prelude.{◌≡◌, not};
ghost use Rattle.std.specs.Bool.{beq};
ghost use Rattle.registers.specs.Modes.{rounded};
ghost use Rattle.sheets.specs.Beside.{beside_quotient};
ghost use Rattle.sheets.specs.Operands.{units_of};
ghost use Rattle.sheets.specs.Quotients.{QuotientSheet};
ghost use Rattle.sheets.specs.Written.{values};
ghost use Rattle.bench.specs.Desks.{SheetAlone};
ghost use Rattle.bench.specs.Kinds.{signs_differ, units};
ghost use Rattle.bench.specs.Tables.{divide_table, answer_pattern};
ghost use Rattle.bench.specs.Unless.{unless};
ghost use Rattle.bench.specs.Worksheets.{Closes, DivideLeaves};

use crate::answer::Special;
use crate::desk::Desk;
use crate::operand::FinitePattern;
use crate::table::divide_table;
use registers::{Finite, Mode, Pattern, Rounded};
use sheets::fill_quotient;
use sources::Source;

// Operands one by one: a struct of them would be made once and taken apart once.
impl<S: Source> Desk<S> {
    /// The quotient of numbers, rounded in a mode.
    fn divide_exact(&mut self, mode: Mode, a: Finite, b: Finite) -> Rounded
        ensures value { result ≡ rounded mode (not (beq a.negative b.negative)) (beside_quotient (units_of a) (units_of b)) }
        ensures sheet { Closes (QuotientSheet (S.Source.reciprocals self.old.source) (units_of a) (units_of b)) mode (not (beq a.negative b.negative)) (values self.new.sheet) result.pattern }
        ensures kept { SheetAlone self.old self.new }
    {
        let closing = fill_quotient(&self.source, a, b, &mut self.sheet);
        closing.round(a.is_negative() != b.is_negative(), mode)
    }

    /// The value of `a / b`, rounded in a mode, or what its table makes of special operands, which leave no line.
    pub(crate) fn quotient(
        &mut self,
        mode: Mode,
        a: Pattern,
        b: Pattern,
    ) -> Result<Rounded, Special>
        ensures value { result ≡ unless (divide_table a b) (rounded mode (signs_differ a b) (beside_quotient (units a) (units b))) }
        ensures sheet { DivideLeaves (S.Source.reciprocals self.old.source) mode a b (values self.new.sheet) (answer_pattern result) }
        ensures kept { SheetAlone self.old self.new }
    {
        self.sheet.clear();
        divide_table(a, b)?;
        Ok(self.divide_exact(
            mode,
            FinitePattern::new(a).nonzero(),
            FinitePattern::new(b).nonzero(),
        ))
    }
}
