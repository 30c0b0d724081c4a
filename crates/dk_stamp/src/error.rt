//! Why a change of rows is refused.
use thiserror::Error;

/// Why a change of rows of a group is refused.
#[derive(Clone, Copy, Debug, PartialEq, Eq, Error)]
pub enum GroupError {
    /// The newest version of this row, by its row id, has this stamp, and the snapshot doesn't see it.
    #[error("row {row} has an unseen version of stamp {stamp}")]
    Conflict { row: u64, stamp: u64 },
    #[error("out of memory")]
    OutOfMemory,
}
