//! The numbers of the log's format.

/// The tag of a record that creates a table.
pub(crate) const CREATE_TAG: u8 = 0;

/// The tag of a record that changes rows.
pub(crate) const CHANGE_TAG: u8 = 1;

/// How many rows a full group has.
pub const GROUP_ROWS: usize = 122_880;

/// How many tables there may be.
pub const MAX_TABLES: usize = 64;

/// The most bytes that a record's payload may have.
pub const MOST_PAYLOAD: u64 = 268_435_456;

/// How many bytes stand before a record's payload: its length in four, and its checksum in eight.
pub const FRAME_BYTES: usize = 12;

/// Where the iteration stands in the header of the log.
pub(crate) const ITERATION_PLACE: usize = 8;

/// Where the checksum stands in the header of the log, behind all that it is of.
pub(crate) const HEADER_SUM_PLACE: usize = 16;
