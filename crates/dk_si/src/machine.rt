//! The machine's state: the commits, and the sessions with their transactions.
use crate::history::Asked;
use dk_types::{Commit, Ids, List, Net, OutOfMemory, TryCopy};

/// A transaction that is open.
#[derive(Debug, Drop)]
pub struct OpenTransaction {
    pub number: u64,
    /// It sees so many commits.
    pub start: u64,
    /// What it has changed.
    pub net: Net,
    /// Whether it was begun by the call in flight.
    pub fresh: bool,
}

/// Whether a session has a transaction.
#[derive(Debug, Drop)]
pub enum Transaction {
    Outside,
    Open(OpenTransaction),
    Aborted,
}

/// A session's last transaction, with what it had changed before it ended, and its commit's number.
#[derive(Debug, Drop)]
pub struct LastTransaction {
    pub number: u64,
    pub net: Net,
    pub commit: Option<u64>,
}

/// Committed rows that a statement updates or deletes.
#[derive(Debug, Drop)]
pub struct WriteSet {
    pub table: u32,
    pub ids: Ids,
}

#[derive(Debug, Drop)]
pub struct Session {
    pub transaction: Transaction,
    /// The call in flight.
    pub asked: Option<Asked>,
    /// What the last answered call updated or deleted, if it was about a table.
    pub writes: Option<WriteSet>,
    /// The last transaction, where the entry that ended it is the session's last.
    pub last: Option<LastTransaction>,
}

/// The commits so far, how many transactions have begun, and the sessions.
#[derive(Debug, Drop)]
pub struct Machine {
    pub commits: List<Commit>,
    pub begun: u64,
    pub sessions: List<Session>,
}

/// What a reply makes of an open transaction: the transaction behind it, the commit that it is, and the net before its end.
#[derive(Debug, Drop)]
pub struct Transition {
    pub transaction: Transaction,
    pub commit: Option<Commit>,
    pub net: Net,
}

impl TryCopy for OpenTransaction {
    fn copy(&self) -> Result<OpenTransaction, OutOfMemory> {
        Ok(OpenTransaction {
            number: self.number,
            start: self.start,
            net: self.net.copy()?,
            fresh: self.fresh,
        })
    }
}

impl TryCopy for Transaction {
    fn copy(&self) -> Result<Transaction, OutOfMemory> {
        match self {
            Transaction::Outside => Ok(Transaction::Outside),
            Transaction::Open(active) => Ok(Transaction::Open(active.copy()?)),
            Transaction::Aborted => Ok(Transaction::Aborted),
        }
    }
}

impl TryCopy for LastTransaction {
    fn copy(&self) -> Result<LastTransaction, OutOfMemory> {
        Ok(LastTransaction {
            number: self.number,
            net: self.net.copy()?,
            commit: self.commit,
        })
    }
}

impl TryCopy for WriteSet {
    fn copy(&self) -> Result<WriteSet, OutOfMemory> {
        Ok(WriteSet {
            table: self.table,
            ids: self.ids.copy()?,
        })
    }
}
