//! What a session has in the core beside what the machine knows of it.
use dk_types::{Bytes, List, Refusal, Schema, TableNet};

/// A snapshot, from its Begin until its versions are stamped or undone.
#[derive(Debug, Drop)]
pub struct Snapshot {
    /// The transaction's number.
    pub number: u64,
    /// It sees so many commits.
    pub start: u64,
    /// The number of its own commit, from its Point on.
    pub commit: Option<u64>,
}

/// A table that the first point of a creation gave.
#[derive(Debug, Drop)]
pub struct NewTable {
    pub name: Bytes,
    pub schema: Schema,
}

/// A session's seat.
#[derive(Debug, Drop)]
pub struct Seat {
    pub live: Option<Snapshot>,
    /// What the statements before the call in flight changed, newest first: that which is not undone, and has no commit
    /// number yet.
    pub versions: List<TableNet>,
    /// What the call in flight changed and put into groups, newest first.
    pub made: List<TableNet>,
    /// What an event of the call in flight refused.
    pub found: Option<Refusal>,
    /// The table that the first point of a creation gave, until the second one.
    pub creates: Option<NewTable>,
}
