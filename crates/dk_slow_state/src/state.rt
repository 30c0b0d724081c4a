//! The machine's state, and what an entry makes of it.
ghost use Rattle.std.specs.Prelude.{◌≡◌, ◌-◌, ◌≤◌, ◌<◌, ◌++◌, [], true, length, vec_len, vec_capacity, Some, None, IfOk, OnOk, OnErr, option_to_list, slice_set};
ghost use Rattle.std.specs.Option.{option_copied};
ghost use Rattle.dk_si.specs.Machine.{first_state, session_at, next_number, after_call, after_begin, after_reply};
ghost use Rattle.dk_slow_state.specs.Moves.{moved, state_of, machine_behind};

use dk_plain::{CommitLog, Inside};
use dk_si::database::Table;
use dk_si::history::{Asked, Entry};
use dk_si::limits::MAX_TRANSACTIONS;
use dk_si::machine::{Machine, OpenTransaction, Session, Transaction, Transition};
use dk_slow_seats::seats::put;
use dk_states::call::write_set_in_flight;
use dk_states::machine::{after_aborted, last_transaction, session_behind, transition};
use dk_types::{Commit, Net, OutOfMemory, Reply, TryCopy};
use std::alloc::Global;
use std::marker::Model;

/// The machine's state. Contracts see it as the machine that it is.
#[derive(Drop)]
pub struct State {
    commits: Vec<Commit>,
    begun: u64,
    sessions: Vec<Session>,
}

impl Model for State {
    ghost use Rattle.dk_si.specs.declared.machine.Machine.{Machine};
    ghost use Rattle.dk_si.specs.contracts.machine.Machine as machine;

    ghost Value = { Machine };

    ghost coded = { machine.the_row.coded };

    ghost view = { λ s. record {
      commits = s.commits.items;
      begun = s.begun;
      sessions = s.sessions.items;
    } };
}

/// What an entry makes of a state: the session of that number, the commit that the entry is, and how many transactions
/// have begun behind it.
#[derive(Debug, Drop)]
pub struct Move {
    pub number: u32,
    pub session: Session,
    pub commit: Option<Commit>,
    pub begun: u64,
}

/// The session of that number, counted from 1.
pub fn session_at(sessions: &[Session], number: u32) -> Option<&Session>
    ensures { option_copied result ≡ session_at sessions.now number }
{
    if number == 0 {
        return None;
    }
    sessions.get(number as usize - 1)
}

/// Adds a commit, if there is one, in room that was reserved.
fn push_commit(commits: &mut Vec<Commit>, commit: Option<Commit>)
    requires { vec_len commits.old < vec_capacity commits.old }
    ensures { commits.new.items ≡ commits.old.items ++ option_to_list commit }
{
    if let Some(commit) = commit {
        commits.push_reserved(commit);
    }
}

fn next_number(begun: u64) -> u64
    ensures { result ≡ next_number begun }
{
    if begun < MAX_TRANSACTIONS {
        begun + 1
    } else {
        begun
    }
}

impl State {
    /// The state before the first entry.
    pub fn new(alloc: Global) -> Result<State, OutOfMemory>
        ensures { IfOk result (λ state. state ≡ first_state) }
    {
        let Machine {
            commits,
            begun,
            sessions,
        } = dk_states::machine::first_state(alloc)?;
        Ok(State {
            commits: commits.into_vec(),
            begun,
            sessions: sessions.into_vec(),
        })
    }

    pub fn commits(&self) -> &[Commit]
        ensures { result.now ≡ self.now.commits }
    {
        self.commits.as_slice()
    }

    pub fn sessions(&self) -> &[Session]
        ensures { result.now ≡ self.now.sessions }
    {
        self.sessions.as_slice()
    }

    /// How many transactions have begun.
    pub fn begun(&self) -> u64
        ensures { result ≡ self.now.begun }
    {
        self.begun
    }

    /// A call is in flight, and what its session's last transaction held is let go.
    fn call(&self, number: u32, asked: &Asked) -> Result<Option<Move>, OutOfMemory>
        ensures { IfOk result (λ move. moved self.now move ≡ elim (session_at self.now.sessions number) [
          | None ↦ self.now
          | Some before ↦ after_call self.now number asked.now before
        ]) }
    {
        let Some(before) = session_at(self.sessions(), number) else {
            return Ok(None);
        };
        let session = Session {
            transaction: before.transaction.copy()?,
            asked: Some(asked.copy()?),
            writes: before.writes.copy()?,
            last: None,
        };
        Ok(Some(Move {
            number,
            session,
            commit: None,
            begun: self.begun(),
        }))
    }

    /// A session's transaction begins.
    fn begin(
        &self,
        alloc: Global,
        number: u32,
        transaction: u64,
        start: u64,
    ) -> Result<Option<Move>, OutOfMemory>
        ensures { IfOk result (λ move. moved self.now move ≡ elim (session_at self.now.sessions number) [
          | None ↦ self.now
          | Some before ↦ after_begin self.now number transaction start before
        ]) }
    {
        let Some(before) = session_at(self.sessions(), number) else {
            return Ok(None);
        };
        let active = OpenTransaction {
            number: transaction,
            start,
            net: Net::new(alloc),
            fresh: true,
        };
        let session = Session {
            transaction: Transaction::Open(active),
            asked: before.asked.copy()?,
            writes: before.writes.copy()?,
            last: before.last.copy()?,
        };
        let begun = next_number(self.begun());
        Ok(Some(Move {
            number,
            session,
            commit: None,
            begun,
        }))
    }

    /// A session's call in flight is answered.
    fn reply(
        &self,
        alloc: Global,
        tables: &[Table],
        number: u32,
        reply: &Reply,
    ) -> Result<Option<Move>, OutOfMemory>
        ensures { IfOk result (λ move. moved self.now move ≡ elim (session_at self.now.sessions number) [
          | None ↦ self.now
          | Some before ↦ after_reply tables.now self.now number before reply.now
        ]) }
    {
        let Some(before) = session_at(self.sessions(), number) else {
            return Ok(None);
        };
        let commits = self.commits();
        let log = CommitLog {
            opened: tables,
            commits,
        };
        let begun = self.begun();
        match &before.transaction {
            Transaction::Outside => Ok(Some(Move {
                number,
                session: session_behind(Transaction::Outside, None, None),
                commit: None,
                begun,
            })),
            Transaction::Aborted => Ok(Some(Move {
                number,
                session: session_behind(after_aborted(reply), None, None),
                commit: None,
                begun,
            })),
            Transaction::Open(active) => {
                let inside = Inside { log, active };
                let after = transition(alloc, &inside, &before.asked, reply)?;
                let writes = write_set_in_flight(alloc, &log, &before.transaction, &before.asked)?;
                let Transition {
                    transaction,
                    commit,
                    net,
                } = after;
                let last = last_transaction(
                    active.number,
                    &transaction,
                    &commit,
                    net,
                    commits.len(),
                );
                Ok(Some(Move {
                    number,
                    session: session_behind(transaction, writes, last),
                    commit,
                    begun,
                }))
            }
        }
    }

    /// What an entry makes of one session, if it has one.
    #[tactic(auto, unfolding(crate::specs::Moves::machine_behind))]
    fn move_by(
        &self,
        alloc: Global,
        tables: &[Table],
        entry: &Entry,
    ) -> Result<Option<Move>, OutOfMemory>
        ensures { IfOk result (λ move. moved self.now move ≡ machine_behind tables.now self.now entry.now) }
    {
        match entry {
            Entry::Call { session, asked } => self.call(*session, asked),
            Entry::Begun {
                session,
                number,
                start,
            } => self.begin(alloc, *session, *number, *start),
            Entry::Reply { session, reply } => self.reply(alloc, tables, *session, reply),
        }
    }

    /// Makes of the state what an entry makes of it.
    pub fn enter(
        &mut self,
        alloc: Global,
        tables: &[Table],
        entry: &Entry,
    ) -> Result<(), OutOfMemory>
        ensures ok { OnOk result (self.new ≡ machine_behind tables.now self.old entry.now) }
        ensures err { OnErr result (self.new ≡ self.old) }
    {
        let after = self.move_by(alloc, tables, entry)?;
        self.commits.reserve(1)?;
        apply(
            &mut self.commits,
            &mut self.begun,
            &mut self.sessions,
            after,
        );
        Ok(())
    }
}

/// Makes a move of the parts of a state, with room for its commit.
fn apply(
    commits: &mut Vec<Commit>,
    begun: &mut u64,
    sessions: &mut Vec<Session>,
    after: Option<Move>,
)
    requires { vec_len commits.old < vec_capacity commits.old }
    ensures { state_of commits.new.items begun.new sessions.new.items ≡ moved (state_of commits.old.items
        begun.old sessions.old.items) after }
{
    let Some(after) = after else {
        return;
    };
    push_commit(commits, after.commit);
    put(sessions, after.number, after.session);
    *begun = after.begun;
}
