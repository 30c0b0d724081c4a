//! A row group: vectors of rows with their versions.
//!
//! A contract tells of one row by its vector and its place in it, as a stack of `dk_vector`: a call makes of the stacks
//! of one vector what a named function says, and all others are as they were. Stands on `dk_vector`.
#![tactic(auto)]

mod edits;
mod fill;
mod group;
#[cfg(test)]
mod tests;

pub use edits::Refusal;
pub use fill::filled_vector;
pub use group::{Group, Page, VECTOR_ROWS};
