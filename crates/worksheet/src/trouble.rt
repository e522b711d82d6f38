//! Why there is no worksheet.

use registers::Refusal;
use sources::UnknownSource;
use std::alloc::AllocError;
use thiserror::Error;

/// Why there is no worksheet.
#[derive(Clone, Copy, PartialEq, Eq, Debug, Error)]
pub enum Trouble {
    #[error("expected: PATTERN, table|line quotient PATTERN PATTERN, or table|line root PATTERN")]
    Words,
    #[error("a pattern is eight hexadecimal digits")]
    NotAPattern,
    #[error("a source is table or line")]
    Source(#[from] UnknownSource),
    #[error("a sheet is quotient or root")]
    Sheet,
    #[error("a NaN has no sheet")]
    Nan,
    #[error("an infinity has no sheet")]
    Infinite,
    #[error("a zero has no sheet")]
    Zero,
    #[error("a number below zero has no root and no refinement")]
    Negative,
    #[error("the reciprocal is out of range")]
    Range,
    #[error("a step was refused")]
    Refused(#[from] Refusal),
    #[error("out of memory")]
    Memory(#[from(alloc)] AllocError),
}
