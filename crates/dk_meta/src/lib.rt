//! The bytes of the tree of tables, of the pages of row groups, and of the blocks that a chain is kept in.
//!
//! Each is a grammar of the fields of `dk_bytes`: `specs/Tree.antt`, `specs/Segments.antt` and `specs/Page.antt`,
//! `specs/Chain.antt` say which byte strings are lawful, and of what. A reader answers what a byte string stands for
//! exactly where it is one of the grammar, and else the place of its first fault; a writer gives the one byte string
//! that stands for what it was handed, so that it is read again. Memory is taken for what the bytes hold, whatever
//! number of things they claim. Stands on `dk_pages` for the values, on `dk_bytes` and `dk_values`.
#![tactic(auto)]

mod chain;
mod limits;
mod page;
mod room;
mod segments;
mod tree;

pub use chain::{ChainFault, ChainPart, read_part, write_part};
pub use dk_bytes::FieldError as MetaError;
pub use limits::{
    GROUP_ROWS, MAX_SEGMENTS, MAX_TABLES, NO_BLOCK, PART_BYTES, PAYLOAD_BYTES, VECTOR_ROWS,
};
pub use page::{read_page, write_page};
pub use tree::{read_tree, write_tree};

#[cfg(test)]
mod tests;
