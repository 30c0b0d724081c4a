//! How much stands in the parts of the main file.

/// How many bytes the payload of a block has, behind its checksum.
pub const PAYLOAD_BYTES: usize = 262_136;

/// How many bytes of a chain its block can hold, behind the next block and their number.
pub const PART_BYTES: usize = 262_124;

/// The number that stands for no block.
pub const NO_BLOCK: u64 = u64::MAX;

/// How many tables a tree can hold.
pub const MAX_TABLES: usize = 64;

/// How many rows a group can hold, as in DuckDB.
pub const GROUP_ROWS: u32 = 122_880;

/// How many rows a vector can hold, as in DuckDB.
pub const VECTOR_ROWS: u32 = 2_048;

/// How many segments a vector can have: each holds a row.
pub const MAX_SEGMENTS: usize = 2_048;
