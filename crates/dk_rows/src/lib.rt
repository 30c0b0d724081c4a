//! Many rows in a few buffers.
//!
//! `Rows` is seen by contracts as the list of its rows, and takes no allocation for each row or value: a byte for a
//! value's kind, a word of 64 bits for a number, truth or the place of a text or sum, the bytes of all texts in one
//! buffer, and where each text and each row ends. Any row may be pushed, whatever its values and its width.
//! It stands on the standard library and on `dk_values`.
#![tactic(auto)]

pub mod cell;
pub mod row_ref;
pub mod rows;
pub mod rows_iter;
pub mod slots;
#[cfg(test)]
mod tests;
pub mod texts;
pub mod values;

pub use cell::Cell;
pub use row_ref::RowRef;
pub use rows::Rows;
pub use rows_iter::RowsIter;
pub use texts::Texts;
