//! What must hold of the other sessions where a call is answered.
ghost use Rattle.std.specs.Prelude.{◌≡◌, not, IfOk};
ghost use Rattle.std.specs.List.{list_all};
ghost use Rattle.dk_si.specs.HeldRows.{is_blocked};
ghost use Rattle.dk_si.specs.IsStep.{start_of, none_blocked, is_founded_refusal, is_founded};

use crate::held::is_blocked;
use crate::scene::{RowId, Scene};
use crate::since::{Claim, was_since_call};
use dk_si::machine::{Machine, Session, Transaction, WriteSet};
use dk_si::replies::has_no_iteration;
use dk_states::call::write_set_in_flight;
use dk_types::{OutOfMemory, Refusal, Reply};
use std::alloc::Global;

fn start_of(transaction: &Transaction) -> u64
    ensures { result ≡ start_of transaction.now }
{
    match transaction {
        Transaction::Open(active) => active.start,
        _ => 0,
    }
}

/// Whether none of these rows of a table is blocked.
fn all_free(machine: &Machine, session: u32, start: u64, table: u32, ids: &[u64]) -> bool
    ensures { result ≡ list_all (λ row. not (is_blocked machine.now session start table row))
        ids.now }
{
    ids.iter().all(|row| !is_blocked(machine, session, start, RowId { table, row: *row }))
}

/// Whether no row that the statement changes is blocked.
fn none_blocked(machine: &Machine, session: u32, start: u64, writes: &Option<WriteSet>) -> bool
    ensures { result ≡ none_blocked machine.now session start writes.now }
{
    match writes {
        None => true,
        Some(set) => all_free(machine, session, start, set.table, set.ids.as_slice()),
    }
}

/// Whether a conflict's row is held, or the numbers are spent, in some state since the call.
fn is_founded_refusal(
    alloc: Global,
    scene: &Scene<'_>,
    refusal: &Refusal,
) -> Result<bool, OutOfMemory>
    ensures { IfOk result (λ founded. founded ≡ is_founded_refusal scene.now.seat.opened.now
        scene.now.seat.number scene.now.before.now refusal.now) }
{
    let Scene { seat, before, .. } = *scene;
    match refusal {
        Refusal::Conflict { table, row, by } => {
            let (table, row, by) = (*table, *row, *by);
            was_since_call(alloc, &seat, before, &Claim::Held { table, row, by })
        }
        Refusal::Exhausted(numbers) => {
            if has_no_iteration(refusal) {
                return Ok(true);
            }
            was_since_call(alloc, &seat, before, &Claim::Spent { numbers: *numbers })
        }
        _ => Ok(true),
    }
}

/// Whether the other sessions allow the reply.
pub fn is_founded(alloc: Global, scene: &Scene<'_>, reply: &Reply) -> Result<bool, OutOfMemory>
    ensures { IfOk result (λ founded. founded ≡ is_founded scene.now.seat.opened.now
        scene.now.seat.number scene.now.before.now scene.now.seat.machine.now scene.now.session.now
        reply.now) }
{
    let Scene { seat, session, .. } = *scene;
    match reply {
        Reply::Changed { .. } => {
            let transaction = &session.transaction;
            let writes = write_set_in_flight(alloc, &seat.log(), transaction, &session.asked)?;
            let start = start_of(transaction);
            Ok(none_blocked(seat.machine, seat.number, start, &writes))
        }
        Reply::Refused(refusal) => is_founded_refusal(alloc, scene, refusal),
        _ => Ok(true),
    }
}
