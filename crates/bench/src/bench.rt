//! The bench itself.

pub mod measure;
pub mod methods;

use crate::desk::Desk;
use registers::Mode;
use sources::Source;

/// The mode that stands, on its own, so that it can be lent by itself.
#[derive(Clone, Copy)]
pub struct ModeRecord {
    mode: Mode,
}

/// A bench over a source of seeds: the mode that stands, and what the calls work on.
#[derive(Drop)]
pub struct Bench<S: Source> {
    standing: ModeRecord,
    desk: Desk<S>,
}
