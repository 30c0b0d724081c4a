//! The values, lists and schemas of the column store.
//!
//! A list type is seen by contracts as a plain list, a `Schema` is always lawful, and a `copy` equals what it
//! copies. The lowest crate of the store: what speaks of values alone stands on it, so that a change of a
//! statement or a reply leaves those proofs as they are. `dk_types` gives all of it out again.
//! It stands on the standard library, on `simdutf8` and on `thiserror`.
#![tactic(auto)]

pub mod column;
pub mod list;
#[cfg(test)]
mod tests;
pub mod text;
pub mod value;

pub use column::{Column, Columns, MAX_COLUMNS, MAX_NAME, Schema, SchemaError, is_name};
pub use list::{List, OutOfMemory, TryCopy};
pub use text::is_utf8;
pub use value::{Bytes, ColType, Ids, Offsets, Row, Value};
