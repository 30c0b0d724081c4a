//! What was so in a state after a session's call in flight.
ghost use Rattle.std.specs.Prelude.{◌≡◌, ◌==◌, ◌&&◌, IfOk};
ghost use Rattle.dk_si.specs.Weight.{cap};
ghost use Rattle.dk_si.specs.Spent.{committed_rows, is_spent};
ghost use Rattle.dk_si.specs.StatesSince.{is_call_of, was_since_call};
ghost use Rattle.dk_legal.specs.Claims.{claim_holds};

use crate::held::holds;
use crate::scene::{RowId, Seat};
use dk_plain::CommitLog;
use dk_plain::weights::committed_rows;
use dk_si::database::Table;
use dk_si::history::Entry;
use dk_si::limits::{MAX_ROWS, MAX_TRANSACTIONS, SPARE_ROWS};
use dk_si::machine::Machine;
use dk_states::machine::{first_state, next};
use dk_types::{Exhausted, Holder, OutOfMemory};
use std::alloc::Global;

/// What a refusal claims of a state.
#[derive(Clone, Copy)]
pub enum Claim {
    /// The row is held so against the session's transaction.
    Held { table: u32, row: u64, by: Holder },
    /// No further transaction can begin, and these are the numbers.
    Spent { numbers: Exhausted },
}

/// Whether these are the numbers that are compared where a transaction is to begin.
pub fn are_spent_numbers(log: &CommitLog<'_>, begun: u64, numbers: &Exhausted) -> bool
    ensures { result ≡ ((numbers.now.clock == 0 && numbers.now.iteration == 0)
        && (numbers.now.transactions == begun
        && numbers.now.rows == cap (committed_rows log.now.opened.now log.now.commits.now))) }
{
    (numbers.clock == 0 && numbers.iteration == 0)
        && (numbers.transactions == begun && numbers.rows == committed_rows(log))
}

fn is_spent(seat: &Seat<'_>, numbers: &Exhausted) -> bool
    ensures { result ≡ is_spent seat.now.opened.now numbers.now seat.now.machine.now }
{
    let log = &seat.log();
    let begun = seat.machine.begun;
    let rows = committed_rows(log).saturating_add(SPARE_ROWS);
    (begun == MAX_TRANSACTIONS || MAX_ROWS < rows) && are_spent_numbers(log, begun, numbers)
}

/// Whether the claim is so in that state.
fn claim_holds(alloc: Global, seat: &Seat<'_>, claim: &Claim) -> Result<bool, OutOfMemory>
    ensures { IfOk result (λ so. so ≡ claim_holds seat.now.opened.now seat.now.number claim.now
        seat.now.machine.now) }
{
    match claim {
        Claim::Held { table, row, by } => {
            let (table, row) = (*table, *row);
            holds(alloc, seat, RowId { table, row }, by)
        }
        Claim::Spent { numbers } => Ok(is_spent(seat, numbers)),
    }
}

fn is_call_of(session: u32, entry: &Entry) -> bool
    ensures { result ≡ is_call_of session entry.now }
{
    match entry {
        Entry::Call {
            session: caller,
            ..
        } => *caller == session,
        Entry::Begun { .. } | Entry::Reply { .. } => false,
    }
}

/// Whether it was so in a state after the session's call in flight and before now.
#[tactic(auto, using(dk_si::proofs::ForwardLemmas::since_is))]
pub fn was_since_call(
    alloc: Global,
    seat: &Seat<'_>,
    before: &[Entry],
    claim: &Claim,
) -> Result<bool, OutOfMemory>
    ensures { IfOk result (λ so. so ≡ was_since_call (claim_holds seat.now.opened.now
        seat.now.number claim.now) seat.now.opened.now seat.now.number before.now) }
{
    let Seat { opened, number, .. } = *seat;
    let mut machine = first_state(alloc)?;
    let mut so = false;
    for entry in before {
        next(&mut machine, alloc, opened, entry)?;
        let found = claim_in(alloc, opened, &machine, number, claim)?;
        so = (so && !is_call_of(number, entry)) || found;
    }
    Ok(so)
}

/// The same of a state that goes on after it.
fn claim_in(
    alloc: Global,
    opened: &[Table],
    machine: &Machine,
    number: u32,
    claim: &Claim,
) -> Result<bool, OutOfMemory>
    ensures { IfOk result (λ so. so ≡ claim_holds opened.now number claim.now machine.now) }
{
    let seat = Seat {
        opened,
        machine,
        number,
    };
    claim_holds(alloc, &seat, claim)
}
