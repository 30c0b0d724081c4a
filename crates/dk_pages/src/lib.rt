//! What stands in the files, as values: the tree of tables and the pages of their groups, the records of the log, and
//! a state that is to be written or was read.
//!
//! A `copy` equals what it copies. It stands on `dk_types`, on the rows of `dk_columns` that may be missing, and on the
//! lists of `dk_values`.
#![tactic(auto)]

pub mod log;
pub mod page;
pub mod state;
#[cfg(test)]
mod tests;
pub mod tree;

pub use log::{LogCommit, LogCommits, LogTable, LogTables};
pub use page::{
    ColumnRefs, GroupPage, GroupRef, GroupRefs, Placed, PlacedGroups, SegmentRef, SegmentRefs,
    VectorRefs,
};
pub use state::{GroupState, GroupStates, OptionRows, Page, State, TableState};
pub use tree::{TableEntry, Tree};
