//! Theorems on the definitions of the calls, and worked values.

ghost use Rattle.registers.specs.Rightly.{RightRounding};
ghost use Rattle.bench.specs.Told.{ToldByComparison};
ghost use Rattle.bench.specs.Worked.{WorkedValues};

/// Every exact value that a call rounds is told by comparison, and such a value is rounded as IEEE 754 describes.
pub fn rounding_stands()
    ensures told { ToldByComparison }
    ensures right { RightRounding }
{}

/// The worked values follow from the definitions of the calls.
pub fn worked_values()
    ensures { WorkedValues }
{}
