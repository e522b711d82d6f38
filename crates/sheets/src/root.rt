//! The sheet of a root.

mod lines;

ghost use Rattle.std.specs.Prelude.{◌≡◌};
ghost use Rattle.registers.specs.Binary32.{beside_whole};
ghost use Rattle.sheets.specs.Beside.{SameRounding, SameSide, beside_root};
ghost use Rattle.sheets.specs.Closed.{closing_size};
ghost use Rattle.sheets.specs.Listed.{root_closing, root_values};
ghost use Rattle.sheets.specs.Operands.{units_of};
ghost use Rattle.sheets.specs.Roots.{RootSheet};
ghost use Rattle.sheets.specs.Written.{values};

use crate::closing::Closing;
use crate::operand::Operand;
use crate::root::lines::RootLines;
use crate::seed::{halved, placed};
use crate::sheet::Sheet;
use crate::steps::{corrected, improved, line, power, product, residual};
use crate::worked::{Worked, write_out};
use registers::{Finite, Register};
use sources::{Radicand, Source};

/// The lines of the root of the magnitude of `a`.
fn root_lines<S: Source>(source: &S, a: Finite) -> RootLines
    ensures sheet { RootSheet (S.Source.roots source.now) (units_of a) (root_values result) (root_closing result) }
    ensures same_side { SameSide (beside_whole (root_closing result)) (beside_root (units_of a)) }
    ensures same_rounding { SameRounding (beside_whole (root_closing result)) (beside_root (units_of a)) }
{
    let form = Operand::from(a);
    let x = Register::from(form);
    let half = power(1);
    let radicand = Radicand::from(form);
    let seed = source.root(radicand);
    let y = placed(seed, 75, (form.exponent + 1) / 2);
    let y0 = Register::Nonzero(y);
    let h0 = Register::Nonzero(halved(y));
    let s0 = line::<30>(product(x, y0));
    let d0 = line::<30>(residual(half, s0, h0));
    let h1 = line::<30>(improved(h0, d0));
    let s1 = line::<30>(improved(s0, d0));
    let d1 = line::<30>(residual(half, s1, h1));
    let e1 = line::<30>(residual(x, s1, s1));
    let s2 = line::<24>(corrected(s1, e1, h1));
    let h2 = line::<30>(improved(h1, d1));
    let e2 = line::<30>(residual(x, s2, s2));
    RootLines {
        y0,
        s0,
        h0,
        d0,
        h1,
        s1,
        d1,
        e1,
        s2,
        h2,
        e2,
    }
}

impl Worked for RootLines {
    ghost listed = { root_values };

    ghost closed = { root_closing };

    fn write(&self, sheet: &mut Sheet) {
        sheet.fill(&[
            self.y0, self.s0, self.h0, self.d0, self.h1, self.s1, self.d1, self.e1, self.s2,
            self.h2, self.e2,
        ]);
    }

    /// `s2 + e2·h2`.
    fn closing(&self) -> Closing {
        Closing::new(self.s2, self.e2, self.h2)
    }
}

/// Fills a sheet with the lines of the root of the magnitude of `a`, over any source, and gives the closing value.
/// It lies to every number of at most 25 significant bits as the exact root does, and so rounds as that does in every mode.
pub fn fill_root<S: Source>(source: &S, a: Finite, sheet: &mut Sheet) -> Closing
    ensures sheet { RootSheet (S.Source.roots source.now) (units_of a) (values sheet.new) (closing_size result) }
    ensures same_side { SameSide (beside_whole (closing_size result)) (beside_root (units_of a)) }
    ensures same_rounding { SameRounding (beside_whole (closing_size result)) (beside_root (units_of a)) }
{
    write_out(&root_lines(source, a), sheet)
}
