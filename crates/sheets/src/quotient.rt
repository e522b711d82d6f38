//! The sheet of a quotient.

mod lines;

ghost use Rattle.std.specs.Prelude.{◌≡◌};
ghost use Rattle.registers.specs.Binary32.{beside_whole};
ghost use Rattle.sheets.specs.Beside.{SameRounding, SameSide, beside_quotient};
ghost use Rattle.sheets.specs.Closed.{closing_size};
ghost use Rattle.sheets.specs.Listed.{quotient_closing, quotient_values};
ghost use Rattle.sheets.specs.Operands.{units_of};
ghost use Rattle.sheets.specs.Quotients.{QuotientSheet};
ghost use Rattle.sheets.specs.Written.{values};

use crate::closing::Closing;
use crate::operand::Operand;
use crate::quotient::lines::QuotientLines;
use crate::seed::placed;
use crate::sheet::Sheet;
use crate::steps::{improved, line, power, product, residual};
use crate::worked::{Worked, write_out};
use registers::{Finite, Register};
use sources::Source;

/// The lines of the magnitude of `a` by that of `b`.
fn quotient_lines<S: Source>(source: &S, a: Finite, b: Finite) -> QuotientLines
    ensures sheet { QuotientSheet (S.Source.reciprocals source.now) (units_of a) (units_of b) (quotient_values result) (quotient_closing result) }
    ensures same_side { SameSide (beside_whole (quotient_closing result)) (beside_quotient (units_of a) (units_of b)) }
    ensures same_rounding { SameRounding (beside_whole (quotient_closing result)) (beside_quotient (units_of a) (units_of b)) }
{
    let dividend = Operand::from(a);
    let divisor = Operand::from(b);
    let x = Register::from(dividend);
    let d = Register::from(divisor);
    let one = power(0);
    let seed = source.reciprocal(divisor.significand);
    let y0 = Register::Nonzero(placed(seed, 149, divisor.exponent));
    let e0 = line::<30>(residual(one, d, y0));
    let e1 = line::<30>(improved(e0, e0));
    let y1 = line::<30>(improved(y0, e1));
    let q1 = line::<24>(product(x, y1));
    let r1 = line::<30>(residual(x, d, q1));
    QuotientLines {
        y0,
        e0,
        e1,
        y1,
        q1,
        r1,
    }
}

impl Worked for QuotientLines {
    ghost listed = { quotient_values };

    ghost closed = { quotient_closing };

    fn write(&self, sheet: &mut Sheet) {
        sheet.fill(&[self.y0, self.e0, self.e1, self.y1, self.q1, self.r1]);
    }

    /// `q1 + r1·y1`.
    fn closing(&self) -> Closing {
        Closing::new(self.q1, self.r1, self.y1)
    }
}

/// Fills a sheet with the lines of the magnitude of `a` by that of `b`, over any source, and gives the closing value.
/// It lies to every number of at most 25 significant bits as the exact quotient does, and so rounds as that does in every mode.
pub fn fill_quotient<S: Source>(source: &S, a: Finite, b: Finite, sheet: &mut Sheet) -> Closing
    ensures sheet { QuotientSheet (S.Source.reciprocals source.now) (units_of a) (units_of b) (values sheet.new) (closing_size result) }
    ensures same_side { SameSide (beside_whole (closing_size result)) (beside_quotient (units_of a) (units_of b)) }
    ensures same_rounding { SameRounding (beside_whole (closing_size result)) (beside_quotient (units_of a) (units_of b)) }
{
    write_out(&quotient_lines(source, a, b), sheet)
}
