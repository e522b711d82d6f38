//! Words of command lines and of call lists: patterns in hexadecimal and whole numbers in base ten.

#![tactic(auto)]

mod digits;
pub mod hex;
pub mod split;
pub mod whole;
