//! The manager's numbers and calls.
ghost use Rattle.std.specs.Prelude.{◌≡◌, ◌<◌, ◌≤◌, ◌+◌, ◌^◌, ℕ, true, false, OnOk, OnErr, IfOk, Ok, Err, Some, None, replicate, get_or, if◌then◌else◌};
ghost use Rattle.dk_stamp.specs.declared.snapshot.TheConstants.{SESSIONS};

use crate::live::{LiveSnapshot, least_start, live_count, pending_commits, with_commit};
use dk_stamp::{FIRST_ID, Snapshot};
use dk_types::Exhausted;
use std::marker::Model;

/// How many transactions may begin.
pub const MAX_TRANSACTIONS: u64 = 1 << 40;

/// How many rows there may be in all.
pub const MAX_ROWS: u64 = 1 << 60;

/// Each live transaction, and one that would begin, may have so many new rows.
pub const OPEN_ROWS: u64 = 1 << 32;

/// The numbers of commits and transactions, and the live snapshot of each session.
#[derive(Drop)]
pub struct Manager {
    last: u64,
    transactions: u64,
    rows: u64,
    live: [Option<LiveSnapshot>; 32],
}

impl Model for Manager {
    ghost use Rattle.dk_manager.specs.State.{ManagerState};
    ghost use Rattle.dk_manager.specs.Lawful.{IsLawful};

    ghost Value = { ManagerState };

    ghost view = { λ m. record { last = m.last; transactions = m.transactions; rows = m.rows; live = m.live } };

    ghost invariant = { λ m. IsLawful (record { last = m.last; transactions = m.transactions; rows = m.rows; live = m.live }) };
}

impl Manager {
    ghost use Rattle.dk_manager.specs.State.{first_state, snapshot_of, next_snapshot, seat_of, is_open, is_pending, is_spent, spent_numbers, after_begin, after_point, after_end, bound};
    ghost use Rattle.dk_manager.specs.Lawful.{IsLawful};

    /// A manager with the last commit's number, the count of transactions begun and the committed rows. No snapshot
    /// is alive.
    pub fn starting(last: u64, transactions: u64, rows: u64) -> Manager
        requires last { last < 2 ^ 61 }
        requires transactions { transactions ≤ MAX_TRANSACTIONS }
        ensures { result ≡ first_state last transactions rows }
    {
        Manager {
            last,
            transactions,
            rows,
            live: [None; 32],
        }
    }

    /// What always holds of the numbers. It does nothing: what is proved is its contract.
    pub fn numbers_are_lawful(&self)
        ensures { IsLawful self.now }
    {
        let _ = &self.last;
    }

    /// The last commit's number.
    pub fn last(&self) -> u64
        ensures { result ≡ self.now.last }
    {
        self.last
    }

    /// The least start of a live snapshot, or the last commit's number where none is alive.
    pub fn bound(&self) -> u64
        ensures { result ≡ bound self.now }
    {
        least_start(self.last, &self.live)
    }

    /// The snapshot of this moment with this identifier.
    pub fn now(&self, id: u64) -> Snapshot
        ensures { result ≡ snapshot_of self.now id }
    {
        Snapshot {
            id,
            start: self.last,
            committing: pending_commits(&self.live),
        }
    }

    fn is_spent(&self) -> bool
        ensures { result ≡ is_spent self.now }
    {
        let transactions = live_count(&self.live) as u64 + 1;
        let rows = self.rows.saturating_add(transactions * OPEN_ROWS);
        self.transactions == MAX_TRANSACTIONS || MAX_ROWS < rows
    }

    /// Begins the session's transaction. Without a number left, or without room for its rows, nothing changes.
    pub fn begin(&mut self, session: u32) -> Result<Snapshot, Exhausted>
        requires from_one { 0 < session }
        requires within { session ≤ SESSIONS }
        requires idle { seat_of self.old session ≡ None }
        ensures answer { result ≡ (if is_spent self.old then Err (spent_numbers self.old) else Ok (next_snapshot self.old)) }
        ensures ok { OnOk result (self.new ≡ after_begin self.old session) }
        ensures err { OnErr result (self.new ≡ self.old) }
        ensures bound { bound self.old ≤ bound self.new }
    {
        if self.is_spent() {
            return Err(Exhausted {
                clock: 0,
                rows: self.rows,
                transactions: self.transactions,
                iteration: 0,
            });
        }
        let id = FIRST_ID + self.transactions;
        let snapshot = self.now(id);
        self.transactions += 1;
        self.live[session as usize - 1] = Some(LiveSnapshot {
            id,
            start: self.last,
            commit: None,
        });
        Ok(snapshot)
    }

    /// Numbers the session's commit, which adds so many rows. It is pending from now on.
    pub fn point(&mut self, session: u32, rows: u64) -> u64
        requires from_one { 0 < session }
        requires within { session ≤ SESSIONS }
        requires open { is_open (seat_of self.old session) ≡ true }
        requires rows { rows < OPEN_ROWS }
        ensures number { result ≡ self.old.last + 1 }
        ensures pending { self.new ≡ after_point self.old session rows }
        ensures bound { bound self.old ≤ bound self.new }
    {
        let place = session as usize - 1;
        self.last += 1;
        self.rows += rows;
        self.live[place] = with_commit(self.last, self.live[place]);
        self.last
    }

    /// All versions of the session's commit are stamped: it is pending no more, and its snapshot ends.
    pub fn finish(&mut self, session: u32)
        requires from_one { 0 < session }
        requires within { session ≤ SESSIONS }
        requires pending { is_pending (seat_of self.old session) ≡ true }
        ensures ended { self.new ≡ after_end self.old session }
        ensures bound { bound self.old ≤ bound self.new }
    {
        self.end(session);
    }

    /// The session's snapshot ends without a commit.
    pub fn leave(&mut self, session: u32)
        requires from_one { 0 < session }
        requires within { session ≤ SESSIONS }
        requires open { is_open (seat_of self.old session) ≡ true }
        ensures ended { self.new ≡ after_end self.old session }
        ensures bound { bound self.old ≤ bound self.new }
    {
        self.end(session);
    }

    fn end(&mut self, session: u32)
        requires from_one { 0 < session }
        requires within { session ≤ SESSIONS }
        ensures ended { self.new ≡ after_end self.old session }
        ensures bound { bound self.old ≤ bound self.new }
    {
        self.live[session as usize - 1] = None;
    }
}
