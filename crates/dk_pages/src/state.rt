//! All tables with their rows, as a checkpoint writes them and an opening reads them.
use crate::page::{GroupRef, Placed};
pub use dk_columns::OptionRows;
use dk_values::{Bytes, List, OutOfMemory, Schema, TryCopy};

/// Rows of a vector or a group by their ids, from the id `first` on. A row that isn't there keeps its place.
#[derive(Debug, Drop, PartialEq)]
pub struct Page {
    pub first: u64,
    pub rows: OptionRows,
}

impl TryCopy for Page {
    fn copy(&self) -> Result<Page, OutOfMemory> {
        Ok(Page {
            first: self.first,
            rows: self.rows.copy()?,
        })
    }
}

/// A row group of a state.
#[derive(Debug, Drop, PartialEq)]
pub enum GroupState {
    /// It is as its page in the file, which is kept.
    Kept { group: GroupRef },
    /// It is as its page in the file, from which its rows were read. It comes from an opening alone.
    Loaded { placed: Placed, rows: OptionRows },
    /// No page in the file has these rows.
    Fresh { rows: OptionRows },
}

pub type GroupStates = List<GroupState>;

impl TryCopy for GroupState {
    fn copy(&self) -> Result<GroupState, OutOfMemory> {
        match self {
            GroupState::Kept { group } => Ok(GroupState::Kept { group: *group }),
            GroupState::Loaded { placed, rows } => Ok(GroupState::Loaded {
                placed: placed.copy()?,
                rows: rows.copy()?,
            }),
            GroupState::Fresh { rows } => Ok(GroupState::Fresh { rows: rows.copy()? }),
        }
    }
}

/// A table of a state.
#[derive(Debug, Drop, PartialEq)]
pub struct TableState {
    pub name: Bytes,
    pub schema: Schema,
    pub groups: GroupStates,
}

/// The tables in the order of their creation.
pub type State = List<TableState>;

impl TryCopy for TableState {
    fn copy(&self) -> Result<TableState, OutOfMemory> {
        Ok(TableState {
            name: self.name.copy()?,
            schema: self.schema.copy()?,
            groups: self.groups.copy()?,
        })
    }
}
