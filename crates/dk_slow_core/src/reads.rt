//! What a session with an open transaction reads.
ghost use Rattle.std.specs.Prelude.{◌≡◌, IfOk};
ghost use Rattle.dk_core.specs.Reading.{reads};
ghost use Rattle.dk_slow_core.specs.Reads.{page_read, tables_read};

use crate::plain_core::Core;
use dk_core::NewTable;
use dk_plain::{CommitLog, Inside};
use dk_si::machine::{OpenTransaction, Transaction};
use dk_slow_seats::seats::seat_at;
use dk_slow_state::reading::{Page, page_of, rows_seen, tables_seen};
use dk_slow_state::state::session_at;
use dk_types::{OutOfMemory, Row, VectorId};

impl Core {
    /// What is asked about an open transaction.
    fn inside<'a>(&'a self, active: &'a OpenTransaction) -> Inside<'a>
        ensures opened { result.log.opened.now ≡ self.entry.now.opened }
        ensures commits { result.log.commits.now ≡ self.entry.now.now.commits }
        ensures active { result.active.now ≡ active.entry.now }
    {
        Inside {
            log: CommitLog {
                opened: self.opened(),
                commits: self.commits(),
            },
            active,
        }
    }

    /// The rows of a table that a session reads.
    fn rows_read(&self, session: u32, table: u32) -> Result<Vec<Option<Row>>, OutOfMemory>
        ensures { IfOk result (λ rows. rows.items ≡ reads self.entry.now session table) }
    {
        let alloc = self.alloc();
        let Some(found) = session_at(self.sessions(), session) else {
            return Ok(Vec::new(alloc));
        };
        let Some(seat) = seat_at(self.seats(), session) else {
            return Ok(Vec::new(alloc));
        };
        match &found.transaction {
            Transaction::Open(active) => {
                rows_seen(alloc, &self.inside(active), seat.made.as_slice(), table)
            }
            _ => Ok(Vec::new(alloc)),
        }
    }

    /// What a session reads of a vector: of the rows that were committed when its transaction began, with its own
    /// changes and those that its call in flight has made so far.
    pub fn read(&self, session: u32, at: VectorId) -> Result<Page, OutOfMemory>
        ensures { IfOk result (λ page. page ≡ page_read self.entry.now session at) }
    {
        let rows = self.rows_read(session, at.table)?;
        page_of(self.alloc(), self.groups(at.table), at, rows.as_slice())
    }

    /// The names and schemas of the tables that a session sees.
    pub fn tables(&self, session: u32) -> Result<Vec<NewTable>, OutOfMemory>
        ensures { IfOk result (λ tables. tables.items ≡ tables_read self.entry.now session) }
    {
        let alloc = self.alloc();
        let Some(found) = session_at(self.sessions(), session) else {
            return Ok(Vec::new(alloc));
        };
        match &found.transaction {
            Transaction::Open(active) => tables_seen(alloc, &self.inside(active)),
            _ => Ok(Vec::new(alloc)),
        }
    }
}
