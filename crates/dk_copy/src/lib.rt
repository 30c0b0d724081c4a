//! The rows that the data of a COPY hold.
//!
//! `copied_rows` answers the rows that `specs/Copied.antt` tells, or the first field that has no value in its column,
//! exactly where there is one. The records are those of the default reader of the `csv` library, by the definitions of
//! that library: without a header line, of any length, an empty line is none, a byte order mark in front is passed over,
//! a carriage return alone ends a record, and a quote that isn't closed takes the rest. An empty field, quoted or not, is
//! null.
//!
//! The crate stands on the rows of `dk_rows`, the values of `dk_values`, on `csv` and on `thiserror`.
#![tactic(auto)]

mod fault;
mod fields;
mod numbers;
mod records;
mod rows;
#[cfg(test)]
mod tests;

pub use fault::{CopyError, FieldPlace};
pub use rows::copied_rows;
