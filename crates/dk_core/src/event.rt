//! What happens in the core.
use dk_si::Asked;
use dk_types::{Bytes, Reply, Rows, Schema, TableNet, VectorId};

/// What a commit point is for.
#[derive(Debug, Drop)]
pub enum Done {
    /// The first of the two points of a creation: the new table.
    Create { name: Bytes, schema: Schema },
    /// The second one, which is the commit.
    Created,
    Changed { count: u64 },
    Commit,
}

/// An event, one step of a session or of the house.
#[derive(Debug, Drop)]
pub enum Event {
    Call {
        session: u32,
        asked: Asked,
    },
    Begin {
        session: u32,
    },
    /// Rows of one vector are updated or deleted. The part has the rows' ids and their whole new values.
    Change {
        session: u32,
        at: VectorId,
        part: TableNet,
    },
    /// Own rows go into a group that has room, or into a new one. Its first row has the id `first`.
    Append {
        session: u32,
        table: u32,
        group: u64,
        first: u64,
        rows: Rows,
    },
    /// A full group of own rows becomes a group of the table.
    Adopt {
        session: u32,
        table: u32,
        group: u64,
        first: u64,
        rows: Rows,
    },
    Point {
        session: u32,
        done: Done,
        moment: u64,
    },
    /// The session's oldest version gets its commit's number.
    Stamp {
        session: u32,
    },
    /// All versions are stamped, and the snapshot ends.
    Finish {
        session: u32,
    },
    /// The session's newest version is undone.
    Undo {
        session: u32,
    },
    /// Versions that every snapshot sees are let go.
    Drop {
        at: VectorId,
        bound: u64,
    },
    /// A group is given its page, whose chain begins with the block `root`.
    Settle {
        table: u32,
        group: u64,
        root: u64,
    },
    Reply {
        session: u32,
        reply: Reply,
    },
    /// A session notes a place in time.
    Mark {
        session: u32,
    },
    /// A snapshot ends without a commit.
    Leave {
        session: u32,
    },
}
