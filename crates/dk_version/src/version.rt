//! Which change of a group is meant.
use dk_types::VectorId;

/// What a change event did to its rows.
#[derive(Clone, Copy, Debug, PartialEq, Eq)]
pub enum VersionKind {
    Update,
    Delete,
    Append,
}

/// A change event: its vector, what it did, and the stamp of its transaction. Of several it is the oldest one that has
/// this stamp where versions are stamped, and the newest where they are undone.
#[derive(Clone, Copy, Debug, PartialEq, Eq)]
pub struct Version {
    pub at: VectorId,
    pub kind: VersionKind,
    pub id: u64,
}
