//! The parts of a core that are asked whether an event may come.
ghost use Rattle.std.specs.Prelude.{◌≡◌, Bool};
ghost use Rattle.std.specs.Option.{option_copied};
ghost use Rattle.dk_si.specs.declared.machine.Session.{Session};
ghost use Rattle.dk_si.specs.Machine.{session_at};
ghost use Rattle.dk_core.specs.declared.seat.Seat.{Seat};
ghost use Rattle.dk_core.specs.Allows.{at_session};
ghost use Rattle.dk_core.specs.Core.{next_receipt};
ghost use Rattle.dk_slow_rules.specs.Scenes.{core_in, passes};

use dk_core::Seat;
use dk_plain::CommitLog;
use dk_si::database::Table;
use dk_si::history::Entry;
use dk_si::machine::Session;
use dk_si::standing::Standing;
use dk_slow_seats::layout::Groups;
use dk_slow_seats::seats::seat_at;
use dk_types::{Commit, Receipt};

/// What a core consists of.
#[derive(Clone, Copy)]
pub struct Scene<'a> {
    /// The database and the file's iteration at opening.
    pub opened: &'a [Table],
    pub iteration: u64,
    /// The sessions have the numbers from 1 to this one.
    pub sessions: u32,
    pub entries: &'a [Entry],
    /// What is kept of stops and iterations behind the entries.
    pub standing: &'a Standing,
    pub commits: &'a [Commit],
    /// How many transactions have begun.
    pub begun: u64,
    /// What the machine knows of each session.
    pub states: &'a [Session],
    pub seats: &'a [Seat],
    /// Of each table, how many rows its groups have.
    pub layout: &'a [Groups],
}

/// A session of the core: what the machine knows of it, and its seat.
#[derive(Clone, Copy)]
pub struct Held<'a> {
    pub session: &'a Session,
    pub seat: &'a Seat,
}

/// What the machine knows of the session of that number, counted from 1.
fn session_at(states: &[Session], number: u32) -> Option<&Session>
    ensures { option_copied result ≡ session_at states.now number }
{
    if number == 0 {
        return None;
    }
    states.get(number as usize - 1)
}

impl<'a> Scene<'a> {
    /// The opened database and the commits so far.
    pub fn log(&self) -> CommitLog<'a>
        ensures opened { result.opened.now ≡ self.now.opened.now }
        ensures commits { result.commits.now ≡ self.now.commits.now }
    {
        CommitLog {
            opened: self.opened,
            commits: self.commits,
        }
    }

    /// The session of that number, if it is one of the core's.
    pub fn held(&self, number: u32) -> Option<Held<'a>>
        ensures { (test : Session → Seat → Bool) → at_session (core_in self.now) number test ≡ passes test result }
    {
        if number > self.sessions {
            return None;
        }
        let session = session_at(self.states, number)?;
        let seat = seat_at(self.seats, number)?;
        Some(Held { session, seat })
    }

    /// The receipt of the next commit.
    pub fn next_receipt(&self, moment: u64) -> Receipt
        ensures { result ≡ next_receipt (core_in self.now).now moment }
    {
        Receipt {
            number: self.commits.len() as u64 + 1,
            moment,
        }
    }
}
