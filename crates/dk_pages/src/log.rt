//! The records of the write-ahead log, as values.
use dk_types::{Rows, Updates};
use dk_values::{Bytes, Ids, List, OutOfMemory, Schema, TryCopy};

/// What a commit did to one table: rows that got new values, rows that went, and new rows.
///
/// The first new rows stand in full groups that were written before the commit, of which `groups` has the first block
/// of each page; the others are the `tail`. Updates and deletes ascend by row id and share none.
#[derive(Debug, Drop, PartialEq)]
pub struct LogTable {
    pub table: u32,
    pub updates: Updates,
    pub deletes: Ids,
    pub groups: Ids,
    pub tail: Rows,
}

pub type LogTables = List<LogTable>;

impl TryCopy for LogTable {
    fn copy(&self) -> Result<LogTable, OutOfMemory> {
        Ok(LogTable {
            table: self.table,
            updates: self.updates.copy()?,
            deletes: self.deletes.copy()?,
            groups: self.groups.copy()?,
            tail: self.tail.copy()?,
        })
    }
}

/// A commit as the log has it: it created an empty table behind the others, or changed rows, its tables ascending.
#[derive(Debug, Drop, PartialEq)]
pub enum LogCommit {
    Create { name: Bytes, schema: Schema },
    Change { tables: LogTables },
}

pub type LogCommits = List<LogCommit>;

impl TryCopy for LogCommit {
    fn copy(&self) -> Result<LogCommit, OutOfMemory> {
        match self {
            LogCommit::Create { name, schema } => Ok(LogCommit::Create {
                name: name.copy()?,
                schema: schema.copy()?,
            }),
            LogCommit::Change { tables } => Ok(LogCommit::Change {
                tables: tables.copy()?,
            }),
        }
    }
}
