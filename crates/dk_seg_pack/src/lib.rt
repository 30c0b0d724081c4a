//! Bodies of column segments whose values are numbers of few bits above the least one.
//!
//! `Packed` is the encoding, and `numbers` has its body for numbers in place of values. Its numbers are read in one pass
//! into a column's words, which finds the least and the greatest one too. Stands on `dk_seg_body` for what an encoding is,
//! on `dk_bytes` for fields, plain values and packed numbers, on `dk_columns` and on `dk_values`.
#![tactic(auto)]

pub mod numbers;
pub mod packed;
mod rank;
#[cfg(test)]
mod tests;
