//! What surrounds a question to the machine.
ghost use Rattle.std.specs.Prelude.{◌≡◌};

use dk_plain::CommitLog;
use dk_si::database::Table;
use dk_si::history::Entry;
use dk_si::machine::{Machine, Session};

/// A session of that number, in a state of the machine.
#[derive(Clone, Copy)]
pub struct Seat<'a> {
    pub opened: &'a [Table],
    pub machine: &'a Machine,
    pub number: u32,
}

/// Where a session's reply would come: its seat, the session itself, and the entries before.
#[derive(Clone, Copy)]
pub struct Scene<'a> {
    pub seat: Seat<'a>,
    pub session: &'a Session,
    pub before: &'a [Entry],
}

/// A row of a table.
#[derive(Clone, Copy)]
pub struct RowId {
    pub table: u32,
    pub row: u64,
}

impl<'a> Seat<'a> {
    /// The opened database and the commits so far.
    pub fn log(&self) -> CommitLog<'a>
        ensures opened { result.opened.now ≡ self.now.opened.now }
        ensures commits { result.commits.now ≡ self.now.machine.now.commits }
    {
        CommitLog {
            opened: self.opened,
            commits: self.machine.commits.as_slice(),
        }
    }
}
