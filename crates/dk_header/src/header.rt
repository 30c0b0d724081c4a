//! What the headers say.
use thiserror::Error;

/// How many bytes each of the three headers has.
pub const HEADER_BYTES: usize = 4096;

/// How many bytes of a database header stand before its gate, which is the last one.
pub const BODY_BYTES: usize = 4095;

/// How many bytes a checksum has, which stands first in a header and in a block.
pub const SUM_BYTES: usize = 8;

/// Where the version stands in the main header.
pub const VERSION_PLACE: usize = 12;

/// Where the fields of the main header end, and its zeros begin.
pub const MAIN_FIELDS_END: usize = 20;

/// Where the iteration stands in a database header.
pub const ITERATION_PLACE: usize = 8;

/// Where the root stands in a database header.
pub const ROOT_PLACE: usize = 16;

/// Where the number of blocks stands in a database header.
pub const BLOCKS_PLACE: usize = 24;

/// Where the fields of a database header end, and its zeros begin.
pub const BODY_FIELDS_END: usize = 32;

/// The gate of a header that counts.
pub const OPEN_GATE: u8 = 1;

/// The gate that closes a header.
pub const CLOSED_GATE: u8 = 0;

/// The magic `DUCK`, as a number with the least byte first.
pub const MAGIC: u32 = 0x4B43_5544;

/// The storage version of the main file.
pub const VERSION: u64 = 1001;

/// The root of a database without tables.
pub const NO_ROOT: u64 = u64::MAX;

/// The greatest iteration.
pub const MOST_ITERATIONS: u64 = 1 << 62;

/// A database header: how often the database was checkpointed, the first block of its tree or [`NO_ROOT`] where it
/// has no tables, and its number of blocks.
#[derive(Clone, Copy, Debug, PartialEq, Eq, Drop)]
pub struct DbHeader {
    pub iteration: u64,
    pub root: u64,
    pub blocks: u64,
}

/// The current header, with its twin's number, and whether the other twin's gate is open too.
#[derive(Clone, Copy, Debug, PartialEq, Eq, Drop)]
pub struct Current {
    pub twin: u8,
    pub header: DbHeader,
    pub other_open: bool,
}

/// Why the main header is none.
#[derive(Clone, Copy, Debug, PartialEq, Eq, Drop, Error)]
pub enum MainFault {
    #[error("not a database")]
    NotADatabase,
    #[error("the main header is malformed at {at}")]
    Malformed { at: u64 },
}
