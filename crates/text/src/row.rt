//! A row of a page: a distance and an offset.

pub mod ask;

ghost use Rattle.std.specs.Prelude.{◌≤◌, unsigned_abs};

/// A distance from 0 to 99,999,999,999 and an offset within 9,999,999,999 of zero, in nanometres.
#[derive(Clone, Copy)]
pub struct Row {
    pub(crate) distance: u64,
    pub(crate) offset: i64,
    ghost bounds: { (distance ≤ 99999999999) × (unsigned_abs offset ≤ 9999999999) },
}
