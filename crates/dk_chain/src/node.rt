//! One change of rows of a vector.
ghost use Rattle.std.specs.Prelude.{◌≡◌, IfOk};
ghost use Rattle.dk_chain.specs.Nodes.{old_in};

use dk_rows::{RowRef, Rows};
use dk_values::OutOfMemory;
use smallvec::SmallVec;
use std::alloc::Global;

/// What one change replaced: its stamp, the offsets of its rows in their vector, and what stood there before. Up to
/// eight offsets stand in the node itself.
#[derive(Drop)]
pub struct Node {
    pub stamp: u64,
    pub offsets: SmallVec<u16, 8>,
    pub old: Rows,
}

impl Node {
    /// A change of these rows.
    pub fn new(alloc: Global, stamp: u64, offsets: &[u16], old: Rows) -> Result<Node, OutOfMemory>
        ensures stamp { IfOk result (λ node. node.stamp ≡ stamp) }
        ensures offsets { IfOk result (λ node. node.offsets.items ≡ offsets.now) }
        ensures old { IfOk result (λ node. node.old ≡ old) }
    {
        Ok(Node {
            stamp,
            offsets: SmallVec::from_slice(alloc, offsets)?,
            old,
        })
    }

    /// Lends what the change replaced in a row, if it has the row.
    pub fn old(&self, row: u16) -> Option<RowRef<'_>>
        ensures { result ≡ old_in row self.now.offsets.items self.now.old }
    {
        find_old(self.offsets.as_slice(), &self.old, row)
    }
}

/// Lends the old row of the first place with that offset.
fn find_old<'a>(offsets: &[u16], old: &'a Rows, row: u16) -> Option<RowRef<'a>>
    ensures { result ≡ old_in row offsets.now old.now }
{
    'places: for i in 0..offsets.len() {
        if i >= old.len() {
            return None;
        }
        if offsets[i] == row {
            return Some(old.get(i));
        }
    }
    None
}
