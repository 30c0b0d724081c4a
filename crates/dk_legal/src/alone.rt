//! Histories of one thread: the entries of each call stand together.
ghost use Rattle.std.specs.Prelude.{◌≡◌, ◌&&◌, Some, None, false, length, not, is_none, nat_lt, IfOk};
ghost use Rattle.std.specs.List.{filter, list_all, list_any};
ghost use Rattle.dk_types.specs.declared.reply.Refusal.TheVariants as refusals;
ghost use Rattle.dk_si.specs.HeldRows.{is_blocked};
ghost use Rattle.dk_si.specs.Machine.{first_state, session_at};
ghost use Rattle.dk_si.specs.OneThread.{open_with, open_has, held_alone, is_least_held, is_conflict_alone};
ghost use Rattle.dk_si.specs.OneThread.{may_conflict, is_open, open_count, is_spent_alone, may_refuse};
ghost use Rattle.dk_si.specs.OneThread.{may_reply_alone, none_in_flight, is_step_alone, are_steps_alone};
ghost use Rattle.dk_si.specs.OneThread.{is_legal_alone};

use crate::held::{commit_holds, is_blocked, others, writes_row};
use crate::legal::run_slow;
use crate::scene::{RowId, Scene, Seat};
use crate::since::are_spent_numbers;
use dk_plain::Inside;
use dk_plain::nets::net_has;
use dk_plain::size::size_refusal;
use dk_plain::weights::committed_rows;
use dk_si::Database;
use dk_si::database::Table;
use dk_si::history::{Entries, Entry};
use dk_si::limits::{MAX_ROWS, MAX_TRANSACTIONS};
use dk_si::machine::{Machine, Session, Transaction, WriteSet};
use dk_states::call::{asks_to_begin, net_behind, write_set_in_flight};
use dk_states::machine::{first_state, next, session_at};
use dk_types::{Exhausted, Holder, OutOfMemory, Refusal, Reply, TableNet};
use std::alloc::Global;

/// Each transaction that is open, and the one that would begin, may have so many new rows.
const OPEN_ROWS: u64 = 1 << 32;

/// A row that is held, and who holds it.
#[derive(Clone, Copy)]
pub struct Conflict {
    pub at: RowId,
    pub by: Holder,
}

/// Against whom rows may be held: a session's transaction, which has that start.
#[derive(Clone, Copy)]
pub struct Against<'a> {
    pub machine: &'a Machine,
    pub number: u32,
    pub start: u64,
}

/// The number of a session's open transaction, if it has the row in its net.
fn open_with(at: RowId, session: &Session) -> Option<u64>
    ensures { result ≡ open_with at.table at.row session.now }
{
    let Transaction::Open(active) = &session.transaction else {
        return None;
    };
    if net_has(active.net.as_slice(), at.table, at.row) {
        Some(active.number)
    } else {
        None
    }
}

/// Whether the open transaction of that number has the row in its net.
fn open_has(k: u64, at: RowId, session: &Session) -> bool
    ensures { result ≡ open_has k at.table at.row session.now }
{
    match open_with(at, session) {
        None => false,
        Some(number) => number == k,
    }
}

fn some_open_has(sessions: &[Session], k: u64, at: RowId) -> bool
    ensures { result ≡ list_any (open_has k at.table at.row) sessions.now }
{
    sessions.iter().any(|session| open_has(k, at, session))
}

/// Whether the row is held so: by an open transaction of another session, or by a commit.
#[tactic(auto, using(dk_si::proofs::PlaceLemmas::any_of_both))]
fn held_alone(against: &Against<'_>, at: RowId, by: &Holder) -> bool
    ensures { result ≡ held_alone against.now.machine.now against.now.number against.now.start
        at.table at.row by.now }
{
    let Against {
        machine,
        number,
        start,
    } = *against;
    match by {
        Holder::Commit(n) => commit_holds(machine, number, start, *n, at),
        Holder::Transaction(k) => {
            let (earlier, later) = others(machine.sessions.as_slice(), number);
            some_open_has(earlier, *k, at) || some_open_has(later, *k, at)
        }
    }
}

/// Whether none of these rows of a table that are held stands below that row.
fn none_below(against: &Against<'_>, set: &WriteSet, row: u64) -> bool
    ensures { result ≡ list_all (λ other. not (is_blocked against.now.machine.now
        against.now.number against.now.start set.now.table other && nat_lt other row)) set.now.ids }
{
    let Against {
        machine,
        number,
        start,
    } = *against;
    let table = set.table;
    set.ids.as_slice().iter().all(|other| {
        !(is_blocked(machine, number, start, RowId { table, row: *other }) && *other < row)
    })
}

/// Whether the row is the least of those that a statement changes and that are held.
fn is_least_held(against: &Against<'_>, writes: &Option<WriteSet>, at: RowId) -> bool
    ensures { result ≡ is_least_held against.now.machine.now against.now.number against.now.start
        writes.now at.table at.row }
{
    let Some(set) = writes else {
        return false;
    };
    let own = RowId {
        table: set.table,
        row: at.row,
    };
    (writes_row(writes, at.table, at.row)
        && is_blocked(against.machine, against.number, against.start, own))
        && none_below(against, set, at.row)
}

/// Whether a statement that leads to this net and changes these rows is refused so for a row that is held.
pub fn is_conflict_alone(
    alloc: Global,
    against: &Against<'_>,
    writes: &Option<WriteSet>,
    net: &[TableNet],
    conflict: Conflict,
) -> Result<bool, OutOfMemory>
    ensures { IfOk result (λ so. so ≡ is_conflict_alone against.now.machine.now against.now.number
        against.now.start writes.now net.now conflict.at.table conflict.at.row conflict.by) }
{
    let Conflict { at, by } = conflict;
    let size = size_refusal(alloc, net)?;
    Ok(size.is_none() && (is_least_held(against, writes, at) && held_alone(against, at, &by)))
}

/// Whether the call in flight may be refused so for a row that is held.
fn may_conflict(alloc: Global, scene: &Scene<'_>, conflict: Conflict) -> Result<bool, OutOfMemory>
    ensures { IfOk result (λ may. may ≡ may_conflict scene.now.seat.opened.now
        scene.now.seat.machine.now scene.now.seat.number scene.now.session.now.transaction
        scene.now.session.now.asked conflict.at.table conflict.at.row conflict.by) }
{
    let Scene { seat, session, .. } = *scene;
    let Transaction::Open(active) = &session.transaction else {
        return Ok(false);
    };
    let log = seat.log();
    let writes = write_set_in_flight(alloc, &log, &session.transaction, &session.asked)?;
    let net = net_behind(alloc, &Inside { log, active }, &session.asked)?;
    let against = Against {
        machine: seat.machine,
        number: seat.number,
        start: active.start,
    };
    is_conflict_alone(alloc, &against, &writes, net.as_slice(), conflict)
}

fn is_open(session: &Session) -> bool
    ensures { result ≡ is_open session.now }
{
    matches!(session.transaction, Transaction::Open(_))
}

fn open_among(sessions: &[Session]) -> usize
    ensures { result ≡ length (filter is_open sessions.now) }
{
    sessions.iter().filter(|session| is_open(session)).count()
}

fn open_count(machine: &Machine) -> usize
    ensures { result ≡ open_count machine.now }
{
    open_among(machine.sessions.as_slice())
}

/// Whether no further transaction can begin.
pub fn is_spent_alone(seat: &Seat<'_>) -> bool
    ensures { result ≡ is_spent_alone seat.now.opened.now seat.now.machine.now }
{
    let machine = seat.machine;
    let open = (open_count(machine) as u64).saturating_add(1);
    let rows = committed_rows(&seat.log()).saturating_add(open.saturating_mul(OPEN_ROWS));
    machine.begun == MAX_TRANSACTIONS || MAX_ROWS < rows
}

/// Whether a transaction can't begin for want of these numbers, or none is to begin.
fn may_exhaust(scene: &Scene<'_>, numbers: &Exhausted) -> bool
    ensures { result ≡ may_refuse scene.now.seat.opened.now scene.now.seat.machine.now
        scene.now.seat.number scene.now.session.now.transaction scene.now.session.now.asked
        (refusals.Exhausted numbers.now) }
{
    let Scene { seat, session, .. } = *scene;
    !asks_to_begin(&session.asked)
        || (is_spent_alone(&seat) && are_spent_numbers(&seat.log(), seat.machine.begun, numbers))
}

/// What a refusal must be besides a step.
fn may_refuse(alloc: Global, scene: &Scene<'_>, refusal: &Refusal) -> Result<bool, OutOfMemory>
    ensures { IfOk result (λ may. may ≡ may_refuse scene.now.seat.opened.now
        scene.now.seat.machine.now scene.now.seat.number scene.now.session.now.transaction
        scene.now.session.now.asked refusal.now) }
{
    match refusal {
        Refusal::Conflict { table, row, by } => {
            let (table, row, by) = (*table, *row, *by);
            let at = RowId { table, row };
            may_conflict(alloc, scene, Conflict { at, by })
        }
        Refusal::Exhausted(numbers) => Ok(may_exhaust(scene, numbers)),
        _ => Ok(true),
    }
}

fn may_reply_alone(alloc: Global, scene: &Scene<'_>, reply: &Reply) -> Result<bool, OutOfMemory>
    ensures { IfOk result (λ may. may ≡ may_reply_alone scene.now.seat.opened.now
        scene.now.seat.machine.now scene.now.seat.number scene.now.session.now.transaction
        scene.now.session.now.asked reply.now) }
{
    match reply {
        Reply::Refused(refusal) => may_refuse(alloc, scene, refusal),
        _ => Ok(true),
    }
}

fn are_idle(sessions: &[Session]) -> bool
    ensures { result ≡ list_all (λ session. is_none session.asked) sessions.now }
{
    sessions.iter().all(|session| session.asked.is_none())
}

/// Whether no other session has a call in flight.
#[tactic(auto, using(crate::proofs::OthersLemmas::all_of_both))]
fn none_in_flight(machine: &Machine, number: u32) -> bool
    ensures { result ≡ none_in_flight machine.now number }
{
    let (earlier, later) = others(machine.sessions.as_slice(), number);
    are_idle(earlier) && are_idle(later)
}

/// What a reply must be besides a step, where no other session has a call in flight.
fn reply_alone(alloc: Global, seat: &Seat<'_>, reply: &Reply) -> Result<bool, OutOfMemory>
    ensures { IfOk result (λ may. may ≡ elim (session_at seat.now.machine.now.sessions
        seat.now.number) [
          | None ↦ false
          | Some session ↦ may_reply_alone seat.now.opened.now seat.now.machine.now seat.now.number
              session.transaction session.asked reply.now
        ]) }
{
    let Some(session) = session_at(seat.machine, seat.number) else {
        return Ok(false);
    };
    let scene = Scene {
        seat: *seat,
        session,
        before: &[],
    };
    may_reply_alone(alloc, &scene, reply)
}

/// What a step must be besides, where the entries of each call stand together.
fn is_step_alone(
    alloc: Global,
    opened: &[Table],
    machine: &Machine,
    entry: &Entry,
) -> Result<bool, OutOfMemory>
    ensures { IfOk result (λ may. may ≡ is_step_alone opened.now machine.now entry.now) }
{
    let number = match entry {
        Entry::Call { session, .. } | Entry::Begun { session, .. } | Entry::Reply { session, .. } =>
            *session,
    };
    if !none_in_flight(machine, number) {
        return Ok(false);
    }
    let seat = Seat {
        opened,
        machine,
        number,
    };
    match entry {
        Entry::Call { .. } => Ok(true),
        Entry::Begun { .. } => Ok(!is_spent_alone(&seat)),
        Entry::Reply { reply, .. } => reply_alone(alloc, &seat, reply),
    }
}

/// Whether each entry is what a step must be besides, from the state after those before it.
fn are_steps_alone(alloc: Global, opened: &[Table], entries: &[Entry]) -> Result<bool, OutOfMemory>
    ensures { IfOk result (λ steps. steps ≡ are_steps_alone opened.now first_state entries.now) }
{
    let mut machine = first_state(alloc)?;
    for entry in entries {
        if !is_step_alone(alloc, opened, &machine, entry)? {
            return Ok(false);
        }
        next(&mut machine, alloc, opened, entry)?;
    }
    Ok(true)
}

/// Answers whether the entries are a legal history of one thread from that database and that opened iteration.
///
/// It is as slow as `run_slow`, which it asks first.
pub fn run_slow_alone(
    alloc: Global,
    opened: &Database,
    iteration: u64,
    entries: &Entries,
) -> Result<bool, OutOfMemory>
    ensures { IfOk result (λ legal. legal ≡ is_legal_alone opened.now iteration entries.now) }
{
    let legal = run_slow(alloc, opened, iteration, entries)?;
    let alone = are_steps_alone(alloc, opened.as_slice(), entries.as_slice())?;
    Ok(legal && alone)
}
