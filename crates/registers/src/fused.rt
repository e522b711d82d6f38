//! A sum of a register number and a product of two.

use crate::register::{Choice, Register};

/// `r + p·q`, or `r - p·q` where the choice is to take the product away.
#[derive(Clone, Copy, PartialEq, Eq, Debug)]
pub struct FusedSum {
    /// The addend.
    pub r: Register,
    /// Whether the product is added or taken away.
    pub choice: Choice,
    /// A factor of the product.
    pub p: Register,
    /// The other factor.
    pub q: Register,
}
