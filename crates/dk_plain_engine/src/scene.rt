//! What surrounds the answer to a call.
use dk_plain::CommitLog;
use dk_si::database::Table;
use dk_si::machine::Session;

/// The opened tables and the commits behind them, the tables behind all commits, how many rows stand in them all, the
/// sessions, how many transactions have begun, and which session calls.
#[derive(Clone, Copy)]
pub struct Scene<'a> {
    pub log: CommitLog<'a>,
    pub tables: &'a [Table],
    /// The greatest number of 64 bits stands for all above.
    pub rows: u64,
    pub sessions: &'a [Session],
    pub begun: u64,
    pub number: u32,
}

/// A row of a table.
#[derive(Clone, Copy)]
pub struct RowId {
    pub table: u32,
    pub row: u64,
}
