//! A checkpoint: the header of the main file flipped to the tree that was written beside the one before, and the log
//! emptied.
//!
//! [`flip`] makes the three synced writes that turn a twin's header into the current one: whenever a crash comes, the
//! current header is the old one or the new one, and the blocks stay (`specs/Flip.antt`). [`empty_log`] then begins a log
//! of the new iteration. Stands on the blocks and headers of `dk_block_file` and on the log of `dk_wal`.
#![tactic(auto)]

mod emptying;
mod flipping;

pub use emptying::empty_log;
pub use flipping::{FlipFault, flip};
