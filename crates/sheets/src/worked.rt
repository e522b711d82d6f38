//! What was worked out for a sheet, before it is written.

ghost use Rattle.std.specs.Prelude.{◌≡◌, ℕ, List};
ghost use Rattle.registers.specs.Values.{Value};
ghost use Rattle.sheets.specs.Closed.{closing_size};
ghost use Rattle.sheets.specs.Written.{values};

use crate::closing::Closing;
use crate::sheet::Sheet;

/// The lines of a sheet, and the closing value over them.
// Two types that list their lines by name, and no array with a const parameter: the steps, the closing values and the sheets' relations speak of lines by name, and an index in place of each would be no plainer.
pub(crate) trait Worked {
    ghost listed: { Self → List Value };

    ghost closed: { Self → ℕ };

    /// Writes the lines, and no other, in the order of their steps.
    fn write(&self, sheet: &mut Sheet)
        ensures { values sheet.new ≡ listed self.now };

    /// The closing value over the lines.
    fn closing(&self) -> Closing
        ensures { closing_size result ≡ closed self.now };
}

/// Writes what was worked out on a sheet, and gives the closing value over it.
pub(crate) fn write_out<W: Worked>(worked: &W, sheet: &mut Sheet) -> Closing
    ensures lines { values sheet.new ≡ W.listed worked.now }
    ensures closing { closing_size result ≡ W.closed worked.now }
{
    worked.write(sheet);
    worked.closing()
}
