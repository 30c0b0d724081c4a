//! Which blocks of a file are used.
//!
//! [`BlockMan::take`] gives the least unused block, and never a used one. It goes on from the place up to which all
//! blocks are known to be used. Memory is wanted only where the file grows. Stands on std.
#![tactic(auto)]

mod block_man;
mod search;
#[cfg(test)]
mod tests;

pub use block_man::BlockMan;
