//! Count, sum, least and greatest over a column and a mask of rows.
//!
//! Each is the fold over the list of the values that are asked for and not null. 64 numbers are taken at a time: where
//! all their flags are set there is no branch for a number.
//! It stands on the standard library, on `dk_values`, on `dk_rows` and on `dk_columns`.
#![tactic(auto)]

pub mod counts;
pub mod extremes;
pub mod parts;
pub mod scan;
pub mod selection;
pub mod sums;
#[cfg(test)]
mod tests;
pub mod texts;

pub use extremes::Extreme;
pub use scan::{count, extreme_number, extreme_text, sum};
pub use selection::Selection;
