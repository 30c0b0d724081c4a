//! What the bodies of all encodings of column segments share.
//!
//! A `Body` is an encoding of values that are not null: which values it holds, how long their bytes are, how they are
//! appended, and how bytes are read straight into a column of cells: the values that the bytes stand for, or the place
//! of the first fault of all other bytes. `specs/Numbers.antt` says which values numbers stand for, whose plain bytes
//! `put_number` appends. Stands on `dk_bytes` for fields and plain values and on
//! `dk_columns` for the columns.
#![tactic(auto)]

mod body;
mod numbers;

pub use body::{Body, decode};
pub use numbers::{number_len, put_number};
