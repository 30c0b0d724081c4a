//! Rows that are held against a transaction.
ghost use Rattle.std.specs.Prelude.{◌≡◌, ◌==◌, ◌++◌, IfOk};
ghost use Rattle.std.specs.List.{list_any};
ghost use Rattle.dk_si.specs.Machine.{asks_for, others};
ghost use Rattle.dk_si.specs.HeldRows.{writes_row, is_rollback, has_pending_write};
ghost use Rattle.dk_si.specs.HeldRows.{other_has_pending_write, is_blocked, commit_holds, is_last_above, open_holds};
ghost use Rattle.dk_si.specs.HeldRows.{last_holds, session_holds, holds_against, holds};

use crate::scene::{RowId, Seat};
use dk_plain::nets::{has_id, net_has};
use dk_plain::slices::{first, rest};
use dk_plain::writers::some_commit_has;
use dk_si::kind::Kind;
use dk_si::machine::{Machine, Session, Transaction, WriteSet};
use dk_states::call::{kind_in, write_set_in_flight};
use dk_states::machine::session_at;
use dk_types::{Commit, Holder, OutOfMemory};
use std::alloc::Global;

/// A transaction's claim on a row, against another one with that start.
#[derive(Clone, Copy)]
struct Hold<'a> {
    seat: Seat<'a>,
    start: u64,
    transaction: u64,
    at: RowId,
}

/// Whether the row is among those that a statement updates or deletes.
pub fn writes_row(writes: &Option<WriteSet>, table: u32, row: u64) -> bool
    ensures { result ≡ writes_row writes.now table row }
{
    match writes {
        None => false,
        Some(set) => set.table == table && has_id(set.ids.as_slice(), row),
    }
}

fn rolls_back(session: &Session) -> bool
    ensures { result ≡ asks_for is_rollback session.now.asked }
{
    match kind_in(&session.asked) {
        None => false,
        Some(kind) => matches!(kind, Kind::Rollback),
    }
}

/// Whether an open transaction whose ROLLBACK is not in flight has the row in its net.
fn has_pending_write(at: RowId, session: &Session) -> bool
    ensures { result ≡ has_pending_write at.table at.row session.now }
{
    match &session.transaction {
        Transaction::Outside | Transaction::Aborted => false,
        Transaction::Open(active) => {
            net_has(active.net.as_slice(), at.table, at.row) && !rolls_back(session)
        }
    }
}

fn some_pending_write(sessions: &[Session], at: RowId) -> bool
    ensures { result ≡ list_any (has_pending_write at.table at.row) sessions.now }
{
    sessions
        .iter()
        .any(|session| has_pending_write(at, session))
}

/// The sessions before and behind one.
pub fn others(sessions: &[Session], number: u32) -> (&[Session], &[Session])
    ensures { others sessions.now number ≡ result.0.now ++ result.1.now }
{
    let number = number as u64;
    (
        first(sessions, number.saturating_sub(1)),
        rest(sessions, number),
    )
}

#[tactic(auto, using(dk_si::proofs::PlaceLemmas::any_of_both))]
fn other_has_pending_write(machine: &Machine, number: u32, at: RowId) -> bool
    ensures { result ≡ other_has_pending_write machine.now number at.table at.row }
{
    let (earlier, later) = others(machine.sessions.as_slice(), number);
    some_pending_write(earlier, at) || some_pending_write(later, at)
}

/// Whether a commit above the start changed the row, or another session's transaction has a pending write of it.
pub fn is_blocked(machine: &Machine, number: u32, start: u64, at: RowId) -> bool
    ensures { result ≡ is_blocked machine.now number start at.table at.row }
{
    some_commit_has(rest(machine.commits.as_slice(), start), at.table, at.row)
        || other_has_pending_write(machine, number, at)
}

/// Whether commit n holds the row.
pub fn commit_holds(machine: &Machine, number: u32, start: u64, n: u64, at: RowId) -> bool
    ensures { result ≡ commit_holds machine.now number start n at.table at.row }
{
    let commits = machine.commits.as_slice();
    let own = first(rest(commits, n.saturating_sub(1)), 1);
    (start < n && some_commit_has(own, at.table, at.row))
        && (!some_commit_has(rest(commits, n), at.table, at.row)
            && !other_has_pending_write(machine, number, at))
}

fn is_last_above(commits: &[Commit], start: u64, at: RowId, commit: &Option<u64>) -> bool
    ensures { result ≡ is_last_above commits.now start at.table at.row commit.now }
{
    match commit {
        None => true,
        Some(n) => start < *n && !some_commit_has(rest(commits, *n), at.table, at.row),
    }
}

/// Whether the session's open transaction has that number, and it or the session's last calls changed the row.
fn open_holds(alloc: Global, hold: &Hold<'_>, session: &Session) -> Result<bool, OutOfMemory>
    ensures { IfOk result (λ held. held ≡ open_holds hold.now.seat.opened.now
        hold.now.seat.machine.now hold.now.transaction hold.now.at.table hold.now.at.row
        session.now) }
{
    let Hold {
        seat,
        transaction,
        at,
        ..
    } = *hold;
    let writes = write_set_in_flight(alloc, &seat.log(), &session.transaction, &session.asked)?;
    match &session.transaction {
        Transaction::Outside | Transaction::Aborted => Ok(false),
        Transaction::Open(active) => Ok(
            active.number == transaction
                && (net_has(active.net.as_slice(), at.table, at.row)
                    || (writes_row(&session.writes, at.table, at.row)
                        || writes_row(&writes, at.table, at.row))),
        ),
    }
}

/// Whether the session's last transaction has that number, and held the row up to its end.
fn last_holds(hold: &Hold<'_>, session: &Session) -> bool
    ensures { result ≡ last_holds hold.now.seat.machine.now hold.now.start hold.now.transaction
        hold.now.at.table hold.now.at.row session.now }
{
    let at = hold.at;
    let commits = hold.seat.machine.commits.as_slice();
    match &session.last {
        None => false,
        Some(last) => {
            last.number == hold.transaction
                && (is_last_above(commits, hold.start, at, &last.commit)
                    && (net_has(last.net.as_slice(), at.table, at.row)
                        || writes_row(&session.writes, at.table, at.row)))
        }
    }
}

fn session_holds(alloc: Global, hold: &Hold<'_>, session: &Session) -> Result<bool, OutOfMemory>
    ensures { IfOk result (λ held. held ≡ session_holds hold.now.seat.opened.now
        hold.now.seat.machine.now hold.now.start hold.now.transaction hold.now.at.table
        hold.now.at.row session.now) }
{
    let held = open_holds(alloc, hold, session)?;
    Ok(held || last_holds(hold, session))
}

fn some_holds(alloc: Global, hold: &Hold<'_>, sessions: &[Session]) -> Result<bool, OutOfMemory>
    ensures { IfOk result (λ held. held ≡ list_any (session_holds hold.now.seat.opened.now
        hold.now.seat.machine.now hold.now.start hold.now.transaction hold.now.at.table
        hold.now.at.row) sessions.now) }
{
    for session in sessions {
        if session_holds(alloc, hold, session)? {
            return Ok(true);
        }
    }
    Ok(false)
}

/// Whether the row is held so against a transaction of the session with that start.
#[tactic(auto, using(dk_si::proofs::PlaceLemmas::any_of_both))]
fn holds_against(
    alloc: Global,
    seat: &Seat<'_>,
    start: u64,
    at: RowId,
    by: &Holder,
) -> Result<bool, OutOfMemory>
    ensures { IfOk result (λ held. held ≡ holds_against seat.now.opened.now seat.now.machine.now
        seat.now.number start at.table at.row by.now) }
{
    match by {
        Holder::Commit(n) => Ok(commit_holds(seat.machine, seat.number, start, *n, at)),
        Holder::Transaction(k) => {
            let hold = Hold {
                seat: *seat,
                start,
                transaction: *k,
                at,
            };
            let (earlier, later) = others(seat.machine.sessions.as_slice(), seat.number);
            let held = some_holds(alloc, &hold, earlier)?;
            Ok(held || some_holds(alloc, &hold, later)?)
        }
    }
}

/// Whether the session has an open transaction in this state, and the row is held so against it.
pub fn holds(alloc: Global, seat: &Seat<'_>, at: RowId, by: &Holder) -> Result<bool, OutOfMemory>
    ensures { IfOk result (λ held. held ≡ holds seat.now.opened.now seat.now.number at.table at.row
        by.now seat.now.machine.now) }
{
    let Some(session) = session_at(seat.machine, seat.number) else {
        return Ok(false);
    };
    match &session.transaction {
        Transaction::Outside | Transaction::Aborted => Ok(false),
        Transaction::Open(active) => holds_against(alloc, seat, active.start, at, by),
    }
}
