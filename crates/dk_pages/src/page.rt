//! The page of a row group: where the segments of its vectors stand.
use dk_values::{Ids, List, Offsets, OutOfMemory, TryCopy};

/// Where a group's page stands, the first block of its chain, and how many rows the group has.
#[derive(Clone, Copy, Debug, PartialEq, Eq)]
pub struct GroupRef {
    pub root: u64,
    pub rows: u32,
}

pub type GroupRefs = List<GroupRef>;

impl TryCopy for GroupRef {
    fn copy(&self) -> Result<GroupRef, OutOfMemory> {
        Ok(*self)
    }
}

/// Where a segment stands: its block, the place of its first byte in the block's payload, its length in bytes, and how
/// many rows it holds.
#[derive(Clone, Copy, Debug, PartialEq, Eq)]
pub struct SegmentRef {
    pub block: u64,
    pub offset: u32,
    pub bytes: u32,
    pub rows: u16,
}

/// The segments of a vector, in the order of their rows.
pub type SegmentRefs = List<SegmentRef>;

/// The vectors of a column.
pub type VectorRefs = List<SegmentRefs>;

/// The columns of a group.
pub type ColumnRefs = List<VectorRefs>;

impl TryCopy for SegmentRef {
    fn copy(&self) -> Result<SegmentRef, OutOfMemory> {
        Ok(*self)
    }
}

/// The page of a group. `deleted` are the places of its deleted rows in the group, ascending.
#[derive(Debug, Drop, PartialEq)]
pub struct GroupPage {
    pub rows: u32,
    pub deleted: Offsets,
    pub columns: ColumnRefs,
}

impl TryCopy for GroupPage {
    fn copy(&self) -> Result<GroupPage, OutOfMemory> {
        Ok(GroupPage {
            rows: self.rows,
            deleted: self.deleted.copy()?,
            columns: self.columns.copy()?,
        })
    }
}

/// A group's page in its place, with all blocks of the page's chain and of the group's segments.
#[derive(Debug, Drop, PartialEq)]
pub struct Placed {
    pub group: GroupRef,
    pub page: GroupPage,
    pub blocks: Ids,
}

pub type PlacedGroups = List<Placed>;

impl TryCopy for Placed {
    fn copy(&self) -> Result<Placed, OutOfMemory> {
        Ok(Placed {
            group: self.group,
            page: self.page.copy()?,
            blocks: self.blocks.copy()?,
        })
    }
}
