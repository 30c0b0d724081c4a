//! Byte strings in chains of blocks.
//!
//! `specs/Chains.antt` has the grammar of a chain on the bytes of the main file, and its reading: each block lies in the
//! file, has its checksum, is used by nothing else, and holds a part of the string. [`read_string`] answers the string
//! and its blocks exactly where the grammar has them, and else the first thing that is wrong; it changes nothing but
//! which blocks are used. [`write_string`] puts a string into unused blocks, from which it is read again, and leaves
//! every other block as it was, in the file and in all that a crash may leave of it (`specs/Effects.antt`). Stands on
//! the blocks of `dk_block_file`, their manager `dk_block_man`, and the parts of `dk_meta`.
#![tactic(auto)]

mod reading;
mod string;
#[cfg(test)]
mod tests;
mod writing;

pub use reading::read_string;
pub use string::{Found, StringRef};
pub use writing::write_string;
