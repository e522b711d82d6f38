//! Seed sources: rough reciprocals and rough reciprocal roots from which the work sheets start.

#![tactic(auto)]

pub mod delivered;
mod exact;
pub mod line;
pub mod operand;
mod refine;
pub mod source;
pub mod table;
#[cfg(test)]
mod tests;

pub use delivered::{Delivered, UnknownSource};
pub use line::LineSource;
pub use operand::{Operand, Question, Radicand, Reciprocal, Root, Significand};
pub use source::Source;
pub use table::TableSource;
