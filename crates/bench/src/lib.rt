//! The bench: a mode, six flags, a work sheet and a source of seeds, and the calls on them.

#![tactic(auto)]

mod answer;
pub mod bench;
pub mod count;
mod desk;
mod divide;
pub mod examples;
pub mod flags;
mod fuse;
mod kind;
mod operand;
pub mod refusal;
mod remainder;
mod root;
mod scaled;
mod table;
pub mod whole;

pub use bench::{Bench, ModeRecord};
pub use count::Counted;
pub use flags::Flags;
pub use refusal::Refusal;
pub use whole::whole_pattern;
