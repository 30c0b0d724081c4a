//! Rows that are held against a transaction, and who holds them.
ghost use Rattle.std.specs.Prelude.{◌≡◌, ◌+◌, ◌^◌, ◌<◌, ◌++◌, Some, None};
ghost use Rattle.std.specs.List.{list_any};
ghost use Rattle.dk_si.specs.Answer.{first_with, last_change, holder_of, least_where, least_blocked};
ghost use Rattle.dk_si.specs.HeldRows.{is_rollback, has_pending_write, other_has_pending_write, is_blocked};
ghost use Rattle.dk_si.specs.Machine.{asks_for, others};
ghost use Rattle.dk_si.specs.OneThread.{open_with};
ghost use Rattle.dk_plain_engine.specs.Held.{last_or, least_or, row_pair};
ghost use Rattle.dk_plain_engine.specs.Still.{state_of};

use crate::scene::{RowId, Scene};
use dk_plain::nets::net_has;
use dk_plain::slices::{first, rest};
use dk_plain::writers::{commit_has, some_commit_has};
use dk_si::kind::Kind;
use dk_si::machine::{Session, Transaction, WriteSet};
use dk_states::call::kind_in;
use dk_types::{Commit, Holder};

fn rolls_back(session: &Session) -> bool
    ensures { result ≡ asks_for is_rollback session.now.asked }
{
    match kind_in(&session.asked) {
        None => false,
        Some(kind) => matches!(kind, Kind::Rollback),
    }
}

/// Whether an open transaction whose ROLLBACK is not in flight has the row in its net.
fn has_pending_write(at: RowId, session: &Session) -> bool
    ensures { result ≡ has_pending_write at.table at.row session.now }
{
    match &session.transaction {
        Transaction::Outside | Transaction::Aborted => false,
        Transaction::Open(active) => {
            net_has(active.net.as_slice(), at.table, at.row) && !rolls_back(session)
        }
    }
}

fn some_pending_write(sessions: &[Session], at: RowId) -> bool
    ensures { result ≡ list_any (has_pending_write at.table at.row) sessions.now }
{
    sessions
        .iter()
        .any(|session| has_pending_write(at, session))
}

/// The sessions before and behind one.
fn others(sessions: &[Session], number: u32) -> (&[Session], &[Session])
    ensures { others sessions.now number ≡ result.0.now ++ result.1.now }
{
    let number = number as u64;
    (
        first(sessions, number.saturating_sub(1)),
        rest(sessions, number),
    )
}

#[tactic(auto, using(dk_si::proofs::PlaceLemmas::any_of_both))]
fn other_has_pending_write(scene: &Scene<'_>, at: RowId) -> bool
    ensures { result ≡ other_has_pending_write (state_of scene.now.log.commits.now scene.now.begun
        scene.now.sessions.now) scene.now.number at.table at.row }
{
    let (earlier, later) = others(scene.sessions, scene.number);
    some_pending_write(earlier, at) || some_pending_write(later, at)
}

/// Whether a commit above the start changed the row, or another session's transaction has a pending write of it.
fn is_blocked(scene: &Scene<'_>, start: u64, at: RowId) -> bool
    ensures { result ≡ is_blocked (state_of scene.now.log.commits.now scene.now.begun
        scene.now.sessions.now) scene.now.number start at.table at.row }
{
    some_commit_has(rest(scene.log.commits, start), at.table, at.row)
        || other_has_pending_write(scene, at)
}

/// The number of a session's open transaction, if it has the row in its net.
fn open_with(at: RowId, session: &Session) -> Option<u64>
    ensures { result ≡ open_with at.table at.row session.now }
{
    let Transaction::Open(active) = &session.transaction else {
        return None;
    };
    if net_has(active.net.as_slice(), at.table, at.row) {
        Some(active.number)
    } else {
        None
    }
}

/// The first open transaction among these that has the row in its net.
fn first_with(at: RowId, sessions: &[Session]) -> Option<u64>
    ensures { result ≡ first_with at.table at.row sessions.now }
{
    'sessions: for session in sessions {
        if let Some(number) = open_with(at, session) {
            return Some(number);
        }
    }
    None
}

/// The number of the commit at a place, if it changed the row, and of the last one before it otherwise.
fn last_or(last: u64, place: usize, has: bool) -> u64
    requires { place + 1 < 2 ^ 64 }
    ensures { result ≡ last_or last place has }
{
    if has { place as u64 + 1 } else { last }
}

/// The number of the last commit that changed the row, 0 where none did.
#[tactic(auto, using(crate::proofs::HolderLemmas::last_more))]
fn last_change(at: RowId, commits: &[Commit]) -> u64
    ensures { result ≡ last_change at.table at.row commits.now }
{
    let mut last: u64 = 0;
    'commits: for (place, commit) in commits.iter().enumerate() {
        last = last_or(last, place, commit_has(at.table, at.row, commit));
    }
    last
}

/// The first open transaction of another session that has the row in its net.
#[tactic(auto, using(crate::proofs::HolderLemmas::first_found, crate::proofs::HolderLemmas::first_behind))]
fn first_other(scene: &Scene<'_>, at: RowId) -> Option<u64>
    ensures { result ≡ first_with at.table at.row (others scene.now.sessions.now scene.now.number) }
{
    let (earlier, later) = others(scene.sessions, scene.number);
    match first_with(at, earlier) {
        Some(number) => Some(number),
        None => first_with(at, later),
    }
}

/// Who holds a row that is held.
pub fn holder_of(scene: &Scene<'_>, at: RowId) -> Holder
    ensures { result ≡ holder_of (state_of scene.now.log.commits.now scene.now.begun
        scene.now.sessions.now) scene.now.number at.table at.row }
{
    match first_other(scene, at) {
        None => Holder::Commit(last_change(at, scene.log.commits)),
        Some(number) => Holder::Transaction(number),
    }
}

/// The lesser of two ids, the second one where it is held.
fn least_or(least: Option<u64>, id: u64, held: bool) -> Option<u64>
    ensures { result ≡ least_or least id held }
{
    if !held {
        return least;
    }
    match least {
        None => Some(id),
        Some(other) => Some(other.min(id)),
    }
}

/// The least of the rows that a statement changes and that are held against its transaction, which has that start.
#[tactic(auto, using(crate::proofs::HolderLemmas::least_more, crate::proofs::HolderLemmas::least_end))]
fn least_row(scene: &Scene<'_>, start: u64, set: &WriteSet) -> Option<u64>
    ensures { result ≡ least_where (is_blocked (state_of scene.now.log.commits.now scene.now.begun
        scene.now.sessions.now) scene.now.number start set.now.table) set.now.ids }
{
    let table = set.table;
    let mut least = None;
    'ids: for id in set.ids.as_slice() {
        let row = *id;
        least = least_or(least, row, is_blocked(scene, start, RowId { table, row }));
    }
    least
}

/// The table and the least of the rows that a statement changes and that are held.
pub fn least_blocked(scene: &Scene<'_>, start: u64, writes: &Option<WriteSet>) -> Option<RowId>
    ensures { row_pair result ≡ least_blocked (state_of scene.now.log.commits.now scene.now.begun
        scene.now.sessions.now) scene.now.number start writes.now }
{
    let Some(set) = writes else {
        return None;
    };
    let table = set.table;
    match least_row(scene, start, set) {
        None => None,
        Some(row) => Some(RowId { table, row }),
    }
}
