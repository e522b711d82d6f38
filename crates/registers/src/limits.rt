//! The range of register numbers, said once: every other bound on an exponent follows from these three.

/// The least exponent of a register number.
pub const LEAST_EXPONENT: i32 = -65_534;

/// The greatest exponent of a register number.
pub const GREATEST_EXPONENT: i32 = 65_535;

/// What is added to an exponent before it is stored: the least one is stored as 0.
pub const BIAS: u32 = 65_534;

/// The greatest stored exponent.
pub(crate) const SPAN: u32 = BIAS + GREATEST_EXPONENT as u32;

/// Magnitudes of register numbers are whole numbers of units of `2^-UNIT`.
pub(crate) const UNIT: u32 = BIAS + 29;
