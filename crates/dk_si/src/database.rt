//! The database as a list of tables.
use dk_types::{Bytes, List, OutOfMemory, Row, Schema, TryCopy};

/// A table. A row's id is its place, and the place of a deleted row stays, empty.
#[derive(Debug, Drop)]
pub struct Table {
    pub name: Bytes,
    pub schema: Schema,
    pub rows: List<Option<Row>>,
}

/// The tables in the order of their creation. A table's number is its place.
pub type Database = List<Table>;

impl TryCopy for Table {
    fn copy(&self) -> Result<Table, OutOfMemory> {
        Ok(Table {
            name: self.name.copy()?,
            schema: self.schema.copy()?,
            rows: self.rows.copy()?,
        })
    }
}
