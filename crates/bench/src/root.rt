//! The root: its sheet, and the closing value rounded once.

ghost use Rattle.std.specs.Prelude.{◌≡◌, false};
ghost use Rattle.registers.specs.Modes.{rounded};
ghost use Rattle.sheets.specs.Beside.{beside_root};
ghost use Rattle.sheets.specs.Operands.{units_of};
ghost use Rattle.sheets.specs.Roots.{RootSheet};
ghost use Rattle.sheets.specs.Written.{values};
ghost use Rattle.bench.specs.Desks.{SheetAlone};
ghost use Rattle.bench.specs.Kinds.{units};
ghost use Rattle.bench.specs.Tables.{answer_pattern, root_table};
ghost use Rattle.bench.specs.Unless.{unless};
ghost use Rattle.bench.specs.Worksheets.{Closes, RootLeaves};

use crate::answer::Special;
use crate::desk::Desk;
use crate::operand::FinitePattern;
use crate::table::root_table;
use registers::{Finite, Mode, Pattern, Rounded};
use sheets::fill_root;
use sources::Source;

impl<S: Source> Desk<S> {
    /// The root of a number's magnitude, rounded in a mode.
    fn root_exact(&mut self, mode: Mode, a: Finite) -> Rounded
        ensures value { result ≡ rounded mode false (beside_root (units_of a)) }
        ensures sheet { Closes (RootSheet (S.Source.roots self.old.source) (units_of a)) mode false (values self.new.sheet) result.pattern }
        ensures kept { SheetAlone self.old self.new }
    {
        let closing = fill_root(&self.source, a, &mut self.sheet);
        closing.round(false, mode)
    }

    /// The root of `a`, rounded in a mode, or what its table makes of a special operand, which leaves no line.
    pub(crate) fn root_value(&mut self, mode: Mode, a: Pattern) -> Result<Rounded, Special>
        ensures value { result ≡ unless (root_table a) (rounded mode false (beside_root (units a))) }
        ensures sheet { RootLeaves (S.Source.roots self.old.source) mode a (values self.new.sheet) (answer_pattern result) }
        ensures kept { SheetAlone self.old self.new }
    {
        self.sheet.clear();
        root_table(a)?;
        Ok(self.root_exact(mode, FinitePattern::new(a).nonzero()))
    }
}
