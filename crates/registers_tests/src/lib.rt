//! Examples of patterns, register numbers, the fused step and the rounding to binary32.

#![tactic(auto)]

#[cfg(test)]
mod operand;
#[cfg(test)]
mod patterns;
#[cfg(test)]
mod rounding;
#[cfg(test)]
mod steps;
