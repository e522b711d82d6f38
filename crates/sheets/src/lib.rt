//! Work sheets: the lines of a quotient and of a root, and the closing value that rounds as the exact one.

#![tactic(auto)]

pub mod closing;
mod operand;
pub mod quotient;
pub mod refusal;
pub mod root;
mod seed;
pub mod sheet;
mod steps;
mod stored;
mod worked;

pub use closing::Closing;
pub use quotient::fill_quotient;
pub use refusal::Refusal;
pub use root::fill_root;
pub use sheet::Sheet;
