//! What happens to sessions: calls, transactions that begin, and replies.
use dk_types::{List, OutOfMemory, Reply, Statement, TryCopy};

/// What was read of a statement's text.
#[derive(Debug, Drop)]
pub enum Asked {
    /// There was no memory to read it.
    Unread,
    /// It is outside the grammar, at that byte.
    Bad { at: u64 },
    Good(Statement),
}

/// An entry of a history. Sessions have the numbers 1 to 32.
#[derive(Debug, Drop)]
pub enum Entry {
    Call {
        session: u32,
        asked: Asked,
    },
    /// The session's transaction has that number, and sees the first `start` commits.
    Begun {
        session: u32,
        number: u64,
        start: u64,
    },
    /// A reply that carries a receipt is a commit.
    Reply {
        session: u32,
        reply: Reply,
    },
}

pub type Entries = List<Entry>;

impl TryCopy for Asked {
    fn copy(&self) -> Result<Asked, OutOfMemory> {
        match self {
            Asked::Unread => Ok(Asked::Unread),
            Asked::Bad { at } => Ok(Asked::Bad { at: *at }),
            Asked::Good(statement) => Ok(Asked::Good(statement.copy()?)),
        }
    }
}

impl TryCopy for Entry {
    fn copy(&self) -> Result<Entry, OutOfMemory> {
        match self {
            Entry::Call { session, asked } => Ok(Entry::Call {
                session: *session,
                asked: asked.copy()?,
            }),
            Entry::Begun {
                session,
                number,
                start,
            } => Ok(Entry::Begun {
                session: *session,
                number: *number,
                start: *start,
            }),
            Entry::Reply { session, reply } => Ok(Entry::Reply {
                session: *session,
                reply: reply.copy()?,
            }),
        }
    }
}
