//! Where a byte string stands, and what was found there.
use dk_types::Part;
use dk_values::Ids;

/// A byte string in a chain: the first block, and the part of the files that wrong bytes are charged to.
#[derive(Clone, Copy, Debug, PartialEq, Eq)]
pub struct StringRef {
    pub root: u64,
    pub part: Part,
}

/// The bytes of a chain, and its blocks, the root first.
#[derive(Debug, Drop)]
pub struct Found {
    pub bytes: Vec<u8>,
    pub blocks: Ids,
}
