//! Which vector of which group of which table.

/// A vector: 2,048 rows of a row group that has up to 122,880 of them, by the table's, the group's and its own number.
///
/// It exists where its group does and its number is below 60.
#[derive(Clone, Copy, Debug, PartialEq, Eq)]
pub struct VectorId {
    pub table: u32,
    pub group: u64,
    pub vector: u32,
}
