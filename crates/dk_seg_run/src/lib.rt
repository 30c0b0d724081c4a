//! Bodies of column segments that repeat values: one value that all are, and runs of equal neighbours.
//!
//! For each encoding `specs/` says which values it holds, which bytes are their body, and which fault of other bytes
//! is the first. Values that are null are passed over. Stands on `dk_seg_body` for what an encoding is, on `dk_bytes`
//! for fields and plain values, on `dk_columns` and on `dk_values`.
#![tactic(auto)]

pub mod constant;
pub mod number_runs;
pub mod run_length;
#[cfg(test)]
mod tests;
