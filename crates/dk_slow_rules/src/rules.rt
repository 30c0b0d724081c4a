//! What the rules of single events ask of a session and its seat, and of the seats of the others.
ghost use Rattle.std.specs.Prelude.{◌≡◌, ◌&&◌, not, is_none, length, nat_le, nat_lt, IfOk};
ghost use Rattle.std.specs.List.{list_all};
ghost use Rattle.dk_si.specs.HeldRows.{is_rollback};
ghost use Rattle.dk_si.specs.Machine.{asks_for};
ghost use Rattle.dk_core.specs.Allows.{is_open, is_active, may_call, may_begin, may_reply, is_committed};
ghost use Rattle.dk_core.specs.Allows.{may_stamp, may_finish, may_go_back, may_undo, may_leave, may_mark};
ghost use Rattle.dk_core.specs.Allows.{may_change, is_bound, nobody_places, nobody_creates};
ghost use Rattle.dk_core.specs.Commits.{is_placing};
ghost use Rattle.dk_core.specs.Layout.{groups_of};
ghost use Rattle.dk_slow_rules.specs.Rules.{starts_from};
ghost use Rattle.dk_slow_rules.specs.Scenes.{core_in};

use crate::changes::{Doing, is_change_of, is_empty};
use crate::commits::{is_committing, is_placing};
use crate::replies::{is_open_transaction, may_end_call};
use crate::scene::{Held, Scene};
use dk_core::Seat;
use dk_legal::lawful::is_lawful_call;
use dk_plain::Inside;
use dk_plain::slices::{first, rest};
use dk_si::history::Asked;
use dk_si::kind::Kind;
use dk_si::machine::{Session, Transaction};
use dk_si::replies::is_commit;
use dk_slow_seats::layout::groups_of;
use dk_states::call::{asks_to_begin, committed_count, kind_in, meaning_in};
use dk_types::{OutOfMemory, Reply, TableNet, VectorId};
use std::alloc::Global;

fn is_open(session: &Session) -> bool
    ensures { result ≡ is_open session.now }
{
    is_open_transaction(&session.transaction)
}

fn rolls_back(session: &Session) -> bool
    ensures { result ≡ asks_for is_rollback session.now.asked }
{
    match kind_in(&session.asked) {
        None => false,
        Some(kind) => matches!(kind, Kind::Rollback),
    }
}

/// Whether the session has an open transaction whose ROLLBACK is not in flight.
fn is_active(session: &Session) -> bool
    ensures { result ≡ is_active session.now }
{
    is_open(session) && !rolls_back(session)
}

/// Whether none is in flight, the statement is lawful, and of a transaction that is over no snapshot is left.
pub fn may_call(asked: &Asked, held: &Held<'_>) -> bool
    ensures { result ≡ may_call asked.now held.now.session.now held.now.seat.now }
{
    (held.session.asked.is_none() && is_lawful_call(asked))
        && (is_open(held.session) || held.seat.live.is_none())
}

/// Whether the call in flight begins a transaction, and no Begin of it found that none can begin.
pub fn may_begin(held: &Held<'_>) -> bool
    ensures { result ≡ may_begin held.now.session.now held.now.seat.now }
{
    let Held { session, seat } = *held;
    (asks_to_begin(&session.asked) && matches!(session.transaction, Transaction::Outside))
        && (seat.live.is_none() && seat.found.is_none())
}

/// Whether the rows are such that the statement in flight changes, in an open transaction, where no Change of the call
/// was refused.
pub fn may_change(
    alloc: Global,
    scene: &Scene<'_>,
    at: VectorId,
    part: &TableNet,
    held: &Held<'_>,
) -> Result<bool, OutOfMemory>
    ensures { IfOk result (λ may. may ≡ may_change (core_in scene.now) at part.now held.now.session.now
        held.now.seat.now) }
{
    let Held { session, seat } = *held;
    let (Transaction::Open(active), Some(asked)) = (&session.transaction, &session.asked) else {
        return Ok(false);
    };
    let inside = Inside {
        log: scene.log(),
        active,
    };
    let meaning = meaning_in(alloc, &inside, asked)?;
    let doing = Doing {
        count: committed_count(alloc, &inside, part.table)?,
        made: seat.made.as_slice(),
        meaning: &meaning,
    };
    let groups = groups_of(scene.layout, part.table);
    let is_one = is_change_of(alloc, groups, &doing, at, part)?;
    Ok((seat.found.is_none() && !is_committing(seat)) && is_one)
}

/// Whether the call may be answered so, by a reply that is no commit.
pub fn may_reply(
    alloc: Global,
    scene: &Scene<'_>,
    reply: &Reply,
    held: &Held<'_>,
) -> Result<bool, OutOfMemory>
    ensures { IfOk result (λ may. may ≡ may_reply (core_in scene.now) reply.now held.now.session.now
        held.now.seat.now) }
{
    let ends = may_end_call(alloc, scene, held, reply)?;
    Ok(!is_commit(reply) && (!is_committing(held.seat) && ends))
}

/// Whether the transaction has made its Point.
fn is_committed(seat: &Seat) -> bool
    ensures { result ≡ is_committed seat.now }
{
    match &seat.live {
        None => false,
        Some(live) => live.commit.is_some(),
    }
}

/// Whether a version still has its transaction's identifier, behind the Point.
pub fn may_stamp(held: &Held<'_>) -> bool
    ensures { result ≡ may_stamp held.now.session.now held.now.seat.now }
{
    is_committed(held.seat) && !is_empty(held.seat.versions.as_slice())
}

/// Whether no such version is left.
pub fn may_finish(held: &Held<'_>) -> bool
    ensures { result ≡ may_finish held.now.session.now held.now.seat.now }
{
    is_committed(held.seat) && is_empty(held.seat.versions.as_slice())
}

/// Whether the transaction is aborted or over without a commit, or its ROLLBACK is in flight.
pub fn may_go_back(held: &Held<'_>) -> bool
    ensures { result ≡ may_go_back held.now.session.now held.now.seat.now }
{
    (held.seat.live.is_some() && !is_committed(held.seat)) && !is_active(held.session)
}

/// Whether it then has a version to undo.
pub fn may_undo(held: &Held<'_>) -> bool
    ensures { result ≡ may_undo held.now.session.now held.now.seat.now }
{
    may_go_back(held) && !is_empty(held.seat.versions.as_slice())
}

/// Whether it then has none.
pub fn may_leave(held: &Held<'_>) -> bool
    ensures { result ≡ may_leave held.now.session.now held.now.seat.now }
{
    may_go_back(held) && is_empty(held.seat.versions.as_slice())
}

/// Whether no commit is under way.
pub fn may_mark(held: &Held<'_>) -> bool
    ensures { result ≡ may_mark held.now.session.now held.now.seat.now }
{
    !is_committing(held.seat)
}

fn none_places(seats: &[Seat]) -> bool
    ensures { result ≡ list_all (λ seat. not (is_placing seat)) seats.now }
{
    seats.iter().all(|seat| !is_placing(seat))
}

fn none_creates(seats: &[Seat]) -> bool
    ensures { result ≡ list_all (λ seat. is_none seat.creates) seats.now }
{
    seats.iter().all(|seat| seat.creates.is_none())
}

/// Whether no other session is between its first Append or Adopt and its Point.
#[tactic(auto, using(crate::proofs::ListLemmas::all_beside))]
pub fn nobody_places(scene: &Scene<'_>, number: u32) -> bool
    ensures { result ≡ nobody_places (core_in scene.now) number }
{
    none_places(first(scene.seats, (number as u64).saturating_sub(1)))
        && none_places(rest(scene.seats, number as u64))
}

/// Whether no other session is between the two Points of a creation.
#[tactic(auto, using(crate::proofs::ListLemmas::all_beside))]
pub fn nobody_creates(scene: &Scene<'_>, number: u32) -> bool
    ensures { result ≡ nobody_creates (core_in scene.now) number }
{
    none_creates(first(scene.seats, (number as u64).saturating_sub(1)))
        && none_creates(rest(scene.seats, number as u64))
}

/// Whether the snapshot of a seat, if it has one, starts from that bound or later.
fn starts_from(bound: u64, seat: &Seat) -> bool
    ensures { result ≡ starts_from bound seat.now }
{
    match &seat.live {
        None => true,
        Some(live) => bound <= live.start,
    }
}

fn all_start_from(bound: u64, seats: &[Seat]) -> bool
    ensures { result ≡ list_all (starts_from bound) seats.now }
{
    seats.iter().all(|seat| starts_from(bound, seat))
}

/// Whether a bound is no more than the last number, nor than the start of any snapshot.
pub fn is_bound(scene: &Scene<'_>, bound: u64) -> bool
    ensures { result ≡ is_bound (core_in scene.now) bound }
{
    bound <= scene.commits.len() as u64 && all_start_from(bound, scene.seats)
}

/// Whether a table has such a group.
pub fn has_group(scene: &Scene<'_>, table: u32, group: u64) -> bool
    ensures { result ≡ nat_lt group (length (groups_of scene.now.layout.now table)) }
{
    group < groups_of(scene.layout, table).len() as u64
}
