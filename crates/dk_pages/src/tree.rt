//! The tree of the tables, from which all that the main file holds is reached.
use crate::page::GroupRefs;
use dk_values::{Bytes, List, OutOfMemory, Schema, TryCopy};

/// A table and where its groups stand.
#[derive(Debug, Drop, PartialEq)]
pub struct TableEntry {
    pub name: Bytes,
    pub schema: Schema,
    pub groups: GroupRefs,
}

/// The tables in the order of their creation. A table's number is its place.
pub type Tree = List<TableEntry>;

impl TryCopy for TableEntry {
    fn copy(&self) -> Result<TableEntry, OutOfMemory> {
        Ok(TableEntry {
            name: self.name.copy()?,
            schema: self.schema.copy()?,
            groups: self.groups.copy()?,
        })
    }
}
