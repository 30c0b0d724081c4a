//! What an event tells the session that made it.
use dk_types::{Exhausted, Holder};

#[derive(Clone, Copy, Debug, PartialEq, Eq)]
pub enum Outcome {
    Done,
    /// The session's transaction has that number, and sees the first `start` commits.
    Begun { number: u64, start: u64 },
    /// The least row of a change whose newest version the session does not see, and who made that version.
    Conflict { row: u64, by: Holder },
    /// The commit has that number.
    Numbered { number: u64 },
    /// No transaction can begin: of one of these numbers none is left.
    Exhausted(Exhausted),
}
