//! The limits of the store.

/// How many sessions there are.
pub const SESSIONS: usize = 32;

/// How many tables there may be.
pub const MAX_TABLES: usize = 64;

/// How many transactions may begin.
pub const MAX_TRANSACTIONS: u64 = 1 << 40;

/// The last iteration of the file.
pub const MAX_ITERATION: u64 = 1 << 62;

/// How many rows there may be in all.
pub const MAX_ROWS: u64 = 1 << 60;

/// So many rows are kept free for the transactions that are open.
pub const SPARE_ROWS: u64 = 1 << 37;

/// How many bytes the log's record of a transaction may have.
pub const MAX_WEIGHT: u64 = 268_435_456;

/// How many new rows a transaction may have.
pub const MAX_NEW_ROWS: u64 = 4_294_967_295;

/// How many rows a row group has, as in DuckDB.
pub const GROUP_ROWS: usize = 122_880;
