//! The undo stack: entries that never move once they stand, and room that is taken before it is used.
//!
//! A transaction notes each change that it makes, and undoes them newest first. So `reserve` alone takes memory, which
//! may be missing, and `push` and `pop` take none and cannot fail. A contract sees a stack as the list of its entries,
//! oldest first, and as `spare`, the number of entries that there is room for.
//!
//! The entries lie in a chain of chunks, blocks of 64 places each. A chunk stays where it is until the stack ends, also
//! when it is empty. The six functions of `block` and `cells` that touch raw memory are proved by hand, and all
//! else is safe code over them. The crate stands on `std` alone.
#![tactic(auto)]

mod block;
mod cells;
mod chain;
mod chunk;
mod stack;
#[cfg(test)]
mod tests;

// A crate can name a stack in a contract only if the types of its fields are exported.
#[doc(hidden)]
pub use cells::{Base, Cells, Deed};
#[doc(hidden)]
pub use chunk::Chunk;
pub use stack::UndoStack;
