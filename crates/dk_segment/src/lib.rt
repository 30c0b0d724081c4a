//! Column segments: 1 to 2,048 values of one type, nulls among them, in the smallest of five encodings.
//!
//! `specs/Segment.antt` says which byte strings are segments of a type, and of which values; `decode` answers those
//! values for exactly these strings, and the place of the first fault for all others. `decode_cells` reads them straight
//! into a column, whose memory it uses again. `encode`, and `encode_cells` of a column, write the encoding of least size
//! that `analyse` names, ties to the first of `Encoding`; truths and numbers are written straight from the column's words,
//! whose profile gives all sizes (`specs/Profile.antt`), and where nulls are among them from the words of those that are
//! present (`specs/Masked.antt`). Stands on the crates of the encodings,
//! `dk_columns`, `dk_bytes` and `dk_values`.
#![tactic(auto)]

mod bodies;
mod choice;
mod encoding;
mod masked;
mod numbers;
mod present;
mod reading;
mod writing;

pub use choice::analyse;
pub use encoding::Encoding;
pub use present::{is_column, is_column_of};
pub use reading::{decode, decode_cells};
pub use writing::{encode, encode_cells};

#[cfg(test)]
mod tests;
