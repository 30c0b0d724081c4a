//! The answers to statements.
use crate::damage::Damage;
use dk_rows::Rows;
use dk_values::{OutOfMemory, TryCopy};

/// A commit's number, and the disk's moment directly after the sync of its log record.
#[derive(Clone, Copy, Debug, PartialEq, Eq)]
pub struct Receipt {
    pub number: u64,
    pub moment: u64,
}

/// Who has changed a row that a transaction wanted to change: an open transaction, or a commit that it doesn't see.
///
/// Of two transactions that change one row the second is refused, and nobody waits, as Neumann, Mühlbauer and Kemper
/// have it.
#[derive(Clone, Copy, Debug, PartialEq, Eq)]
pub enum Holder {
    Transaction(u64),
    Commit(u64),
}

/// The numbers that have no next one. Those that a refusal is not about are 0.
#[derive(Clone, Copy, Debug, PartialEq, Eq)]
pub struct Exhausted {
    pub clock: u64,
    pub rows: u64,
    pub transactions: u64,
    pub iteration: u64,
}

/// The answer to a statement.
#[derive(Debug, Drop, PartialEq)]
pub enum Reply {
    Created {
        receipt: Receipt,
    },
    /// The receipt is there exactly where the statement's own transaction got a commit number.
    Changed {
        count: u64,
        receipt: Option<Receipt>,
    },
    Rows {
        rows: Rows,
    },
    Begun {
        start: u64,
    },
    Committed {
        receipt: Receipt,
    },
    Ended,
    Checkpointed {
        iteration: u64,
    },
    Refused(Refusal),
}

impl TryCopy for Reply {
    fn copy(&self) -> Result<Reply, OutOfMemory> {
        match self {
            Reply::Created { receipt } => Ok(Reply::Created { receipt: *receipt }),
            Reply::Changed { count, receipt } => Ok(Reply::Changed {
                count: *count,
                receipt: *receipt,
            }),
            Reply::Rows { rows } => Ok(Reply::Rows { rows: rows.copy()? }),
            Reply::Begun { start } => Ok(Reply::Begun { start: *start }),
            Reply::Committed { receipt } => Ok(Reply::Committed { receipt: *receipt }),
            Reply::Ended => Ok(Reply::Ended),
            Reply::Checkpointed { iteration } => Ok(Reply::Checkpointed {
                iteration: *iteration,
            }),
            Reply::Refused(refusal) => Ok(Reply::Refused(*refusal)),
        }
    }
}

/// Why a statement changed nothing. A place `at` is a byte of the statement's text, a row is an id in the view.
#[derive(Clone, Copy, Debug, PartialEq, Eq)]
pub enum Refusal {
    Syntax { at: u64 },
    NoTable { at: u64 },
    NoColumn { at: u64 },
    TypeMismatch { at: u64 },
    SameColumn { at: u64 },
    NotGrouped { at: u64 },
    TableExists { at: u64 },
    TooManyTables,
    OutOfRange { row: u64 },
    /// A field of the data of a COPY, its record and its place in it counted from 0.
    BadField { row: u64, field: u32 },
    /// The transaction's log record would have that many bytes, or the transaction that many new rows.
    TooLarge { bytes: u64, rows: u64 },
    Conflict { table: u32, row: u64, by: Holder },
    /// The transaction was aborted, and only a ROLLBACK ends it.
    Aborted,
    InTransaction,
    NoTransaction,
    /// The engine takes no commit any more. `first` is the number that the next one would have had.
    Stopped { first: u64 },
    /// The disk failed. `stops` tells that a commit may have reached it, so the engine takes no other.
    DiskFault { stops: bool },
    Damaged(Damage),
    Exhausted(Exhausted),
    OutOfMemory,
    /// The statement is of a form that is not built yet.
    Unsupported,
}
