//! What a checkpoint left in the main file: the current header, the tree of tables, the pages of all their groups, and
//! the columns of a group.
//!
//! An opening reads them in this order. `specs/Headers.antt` has the headers with the refusals of a file that is no
//! database, `specs/Tree.antt` the tree, `specs/Pages.antt` the page of a group, and `specs/Blocks.antt` the blocks that
//! its segments stand in: a grammar of chains and of their bytes, in which each block lies in the file and has one use.
//! [`read_headers`], [`read_tree`], [`read_page`] and [`read_tables`] answer exactly what these say, or the first thing
//! that is wrong; they change nothing but which blocks are used, and a fault is answered only where the disk has failed.
//! [`read_columns`] answers the values in the segments of a page, by `specs/Rows.antt`. No rows are made of them yet, and
//! the log is not read here yet. Stands on the strings of `dk_strings`, the trees and pages of `dk_meta`, the segments of
//! `dk_segment`, the columns of `dk_columns`, the headers of `dk_header`, and the blocks of `dk_block_file` and
//! `dk_block_man`.
#![tactic(auto)]

mod blocks;
mod columns;
mod headers;
mod page;
mod pages;
mod refusal;
#[cfg(test)]
mod tests;
mod tree;

pub use columns::{COUNT_PLACE, HeldBlock, read_columns};
pub use headers::read_headers;
pub use page::read_page;
pub use pages::{TablePages, read_tables};
pub use refusal::OpenError;
pub use tree::{FoundTree, read_tree};
