//! Examples of the bench's calls and their sheets, over both delivered sources.

#![tactic(auto)]

#[cfg(test)]
mod calls;
#[cfg(test)]
mod lines;
