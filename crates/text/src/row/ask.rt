//! Making a row and asking it.

ghost use Rattle.std.specs.Prelude.{◌≡◌, MatchOption};
ghost use Rattle.text.specs.Pages.{Writable};

use crate::row::Row;

/// The greatest distance, in nanometres.
pub const GREATEST_DISTANCE: u64 = 99_999_999_999;

/// The greatest offset, in nanometres, of either sign.
pub const GREATEST_OFFSET: u64 = 9_999_999_999;

impl Row {
    /// The row of a distance and an offset in nanometres, or nothing where one is out of range.
    pub fn new(distance: u64, offset: i64) -> Option<Row>
        ensures { MatchOption result (Writable distance offset → ⊥) (λ row. (row.distance ≡ distance) × (row.offset ≡ offset)) }
    {
        if distance > GREATEST_DISTANCE || offset.unsigned_abs() > GREATEST_OFFSET {
            return None;
        }
        Some(Row { distance, offset })
    }

    /// The distance in nanometres.
    pub fn distance(self) -> u64
        ensures { result ≡ self.distance }
    {
        self.distance
    }

    /// The offset in nanometres.
    pub fn offset(self) -> i64
        ensures { result ≡ self.offset }
    {
        self.offset
    }
}
