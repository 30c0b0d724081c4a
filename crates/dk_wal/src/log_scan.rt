//! What the reading of a log answers.
use dk_pages::{LogCommits, Tree};
use dk_types::Damage;
use dk_values::Ids;
use std::alloc::AllocError as OutOfMemory;
use thiserror::Error;

/// The records of a log: their commits, the place of each in the log, and the place behind the last one.
///
/// A log of an earlier checkpoint is stale and holds nothing. `bad` is the place of the first record whose checksum
/// matches and whose payload is not in the grammar, read with the tables that the records before it leave; nothing
/// behind it is read. Places are counted in bytes.
#[derive(Debug, Drop, PartialEq)]
pub struct Scan {
    pub commits: LogCommits,
    pub places: Ids,
    pub end: u64,
    pub stale: bool,
    pub bad: Option<u64>,
}

/// How far the reading of a log has come: the tables behind the records so far, and these.
#[derive(Drop)]
pub(crate) struct LogReader {
    pub tables: Tree,
    pub scan: Scan,
}

/// Why a log was not read.
#[derive(Clone, Copy, Debug, PartialEq, Eq, Drop, Error)]
pub enum LogError {
    #[error("{0}")]
    Damaged(Damage),
    #[error("out of memory")]
    OutOfMemory,
}

impl From<OutOfMemory> for LogError {
    ghost use Rattle.std.specs.Prelude.{◌≡◌};
    ghost use Rattle.dk_wal.specs.declared.log_scan.LogError.TheVariants as errors;

    ghost from_gives = { λ _ e. e ≡ errors.OutOfMemory };

    fn from(_: OutOfMemory) -> LogError {
        LogError::OutOfMemory
    }
}
