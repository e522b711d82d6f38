//! Examples of columns, plan lines and page lines.

#![tactic(auto)]

#[cfg(test)]
mod columns;
#[cfg(test)]
mod lines;
#[cfg(test)]
mod pages;
