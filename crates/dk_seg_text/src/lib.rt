//! Bodies of column segments that have each value as it is, or each different text once and the numbers of the texts.
//!
//! For each encoding `specs/` says which values it holds, which bytes are their body, and which fault of other bytes
//! is the first. Values that are null are passed over. Stands on `dk_seg_body` for what an encoding is, on `dk_bytes`
//! for fields, plain values and packed numbers, on `dk_columns`, and on `indexmap` for the entries.
#![tactic(auto)]

pub mod dictionary;
mod entries;
pub mod plain;
#[cfg(test)]
mod tests;
