//! Patterns of binary32, register numbers, the fused step and the one rounding to binary32.

#![tactic(auto)]

mod cut;
mod exact;
mod fit;
mod fused;
pub mod limits;
pub mod mode;
pub mod pattern;
mod place;
pub mod register;
mod round;
mod show;
mod step;
mod sum;

pub use fused::FusedSum;
pub use mode::{Mode, Rounded, UnknownMode};
pub use pattern::{Datum, Finite, Pattern};
pub use register::{Choice, Number, Refusal, Register};
