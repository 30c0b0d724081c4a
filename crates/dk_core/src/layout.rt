//! How the rows of a group are cut.

/// How many rows a vector has, as in DuckDB.
pub const VECTOR_ROWS: u64 = 2_048;

/// How many vectors a group has.
pub const VECTORS: u32 = 60;
