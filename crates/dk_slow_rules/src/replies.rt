//! What a reply that ends a call asks of what the call's events did.
ghost use Rattle.std.specs.Prelude.{◌≡◌, Some, None, IfOk};
ghost use Rattle.dk_types.specs.declared.reply.Refusal.TheVariants as refusal_variants;
ghost use Rattle.dk_core.specs.Replies.{is_open_transaction, leaves_open, suits_versions, same_holder, same_numbers};
ghost use Rattle.dk_core.specs.Replies.{is_found, suits_findings, may_end_call};
ghost use Rattle.dk_slow_rules.specs.Scenes.{core_in};

use crate::changes::{has_no_change, has_whole_change};
use crate::scene::{Held, Scene};
use dk_core::Seat;
use dk_legal::answers::may_answer;
use dk_plain::Inside;
use dk_si::machine::{Session, Transaction};
use dk_si::replies::has_no_iteration;
use dk_states::call::write_set_in_flight;
use dk_states::machine::transition;
use dk_types::{Exhausted, Holder, OutOfMemory, Refusal, Reply};
use std::alloc::Global;

pub fn is_open_transaction(transaction: &Transaction) -> bool
    ensures { result ≡ is_open_transaction transaction.now }
{
    matches!(transaction, Transaction::Open(_))
}

/// Whether the reply leaves the session's transaction open.
fn leaves_open(
    alloc: Global,
    scene: &Scene<'_>,
    session: &Session,
    reply: &Reply,
) -> Result<bool, OutOfMemory>
    ensures { IfOk result (λ is. is ≡ leaves_open (core_in scene.now) session.now reply.now) }
{
    let Transaction::Open(active) = &session.transaction else {
        return Ok(false);
    };
    let inside = Inside {
        log: scene.log(),
        active,
    };
    let after = transition(alloc, &inside, &session.asked, reply)?;
    Ok(is_open_transaction(&after.transaction))
}

/// Whether the versions since the call are all that the statement changes, where it is answered as a change; and none,
/// where another reply leaves the transaction open.
fn suits_versions(
    alloc: Global,
    scene: &Scene<'_>,
    held: &Held<'_>,
    reply: &Reply,
) -> Result<bool, OutOfMemory>
    ensures { IfOk result (λ is. is ≡ suits_versions (core_in scene.now) held.now.session.now held.now.seat.now
        reply.now) }
{
    let Held { session, seat } = *held;
    match reply {
        Reply::Changed { .. } => {
            let log = scene.log();
            let writes = write_set_in_flight(alloc, &log, &session.transaction, &session.asked)?;
            Ok(has_whole_change(&writes, seat))
        }
        _ => {
            let open = leaves_open(alloc, scene, session, reply)?;
            Ok(!open || has_no_change(seat))
        }
    }
}

fn same_holder(holder: &Holder, other: &Holder) -> bool
    ensures { result ≡ same_holder holder.now other.now }
{
    match (holder, other) {
        (Holder::Commit(m), Holder::Commit(n)) => *m == *n,
        (Holder::Transaction(m), Holder::Transaction(n)) => *m == *n,
        _ => false,
    }
}

fn same_numbers(a: &Exhausted, b: &Exhausted) -> bool
    ensures { result ≡ same_numbers a.now b.now }
{
    (a.clock == b.clock && a.rows == b.rows)
        && (a.transactions == b.transactions && a.iteration == b.iteration)
}

/// Whether no event has to refuse a call so: the last iteration is refused by none, and so is what is no conflict and no
/// lack of numbers.
fn needs_no_event(refusal: &Refusal) -> bool
    ensures { result ≡ is_found None refusal.now }
{
    match refusal {
        Refusal::Conflict { .. } => false,
        Refusal::Exhausted(_) => has_no_iteration(refusal),
        _ => true,
    }
}

/// Whether it is the conflict at that row, with that holder.
fn is_conflict(table: u32, row: u64, by: &Holder, refusal: &Refusal) -> bool
    ensures { result ≡ is_found (Some (refusal_variants.Conflict table row by.now)) refusal.now }
{
    match refusal {
        Refusal::Conflict {
            table: other_table,
            row: other_row,
            by: other,
        } => (table == *other_table && row == *other_row) && same_holder(by, other),
        _ => false,
    }
}

/// Whether it is the lack of those numbers.
fn lacks(numbers: &Exhausted, refusal: &Refusal) -> bool
    ensures { result ≡ is_found (Some (refusal_variants.Exhausted numbers.now)) refusal.now }
{
    match refusal {
        Refusal::Exhausted(others) => same_numbers(numbers, others),
        _ => false,
    }
}

/// Whether an event refused the call so, or none has to.
fn is_found(found: &Option<Refusal>, refusal: &Refusal) -> bool
    ensures { result ≡ is_found found.now refusal.now }
{
    match found {
        None => needs_no_event(refusal),
        Some(Refusal::Conflict { table, row, by }) => is_conflict(*table, *row, by, refusal),
        Some(Refusal::Exhausted(numbers)) => lacks(numbers, refusal),
        Some(_) => false,
    }
}

/// Whether the session is told what an event refused, and is told so only then.
fn suits_findings(seat: &Seat, reply: &Reply) -> bool
    ensures { result ≡ suits_findings seat.now reply.now }
{
    match reply {
        Reply::Refused(refusal) => is_found(&seat.found, refusal),
        _ => seat.found.is_none(),
    }
}

/// Whether the call in flight may be answered so by what its session knows, and by what its events did.
pub fn may_end_call(
    alloc: Global,
    scene: &Scene<'_>,
    held: &Held<'_>,
    reply: &Reply,
) -> Result<bool, OutOfMemory>
    ensures { IfOk result (λ is. is ≡ may_end_call (core_in scene.now) reply.now held.now.session.now
        held.now.seat.now) }
{
    let session = held.session;
    let Some(asked) = &session.asked else {
        return Ok(false);
    };
    let may = may_answer(alloc, &scene.log(), &session.transaction, asked, reply)?;
    let suits = suits_versions(alloc, scene, held, reply)?;
    Ok(may && (suits_findings(held.seat, reply) && suits))
}
