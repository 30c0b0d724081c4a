//! The changes of the rows of one vector, each with the values that it replaced.
//!
//! A change is a node: a stamp, the offsets of the rows that it changed, and their old rows. [`Chain`] has the nodes of
//! one vector, oldest first. A contract mostly tells of one row, by the nodes that have it, newest first. What a reader
//! sees of a row is its newest values, in whose place the old row of each node comes whose stamp it doesn't see, the
//! newest first. Stamping, undoing and dropping take no memory. Stands on `dk_stamp`, `dk_rows` and `smallvec`.
#![tactic(auto)]

mod chain;
mod node;
#[cfg(test)]
mod tests;

pub use chain::Chain;
pub use node::Node;
