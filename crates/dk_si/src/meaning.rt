//! What a statement may mean.
use dk_types::{Bytes, Refusal, Rows, Schema, TableNet};

/// What a statement means: rows to reply, a change of one table, a new table, or why it may not be.
#[derive(Debug, Drop)]
pub enum Meaning {
    Rows { rows: Rows },
    /// So many rows are changed. Row ids are those of the view.
    Change { count: u64, part: TableNet },
    Create { name: Bytes, schema: Schema },
    Refused(Refusal),
    /// The statement is about its transaction, or the file, and no rows.
    Nothing,
}
