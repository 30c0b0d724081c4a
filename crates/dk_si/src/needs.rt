//! What replies need of calls before them: that one stopped the engine or wrote an iteration, or may have.
ghost use Rattle.std.specs.Prelude.{◌≡◌, option_to_list, OnErr, OnOk};
ghost use Rattle.std.specs.List.{list_any};
ghost use Rattle.dk_si.specs.ShortStanding.{add_need, is_same_cause};
ghost use Rattle.dk_si.specs.Standing.{waits, settles, owes, owes_iteration, owes_refused, pays, may_pay};

use crate::limits::MAX_ITERATION;
use crate::replies::{has_no_iteration, is_disk_stop, is_iteration};
use crate::standing::{Cause, Flight, Need, is_of};
use dk_types::{List, OutOfMemory, Refusal, Reply};

/// Whether a call in flight may still be the cause.
fn waits(cause: Cause, checkpoint: bool) -> bool
    ensures { result ≡ waits cause checkpoint }
{
    match cause {
        Cause::Stop => true,
        Cause::Iteration { .. } => checkpoint,
    }
}

/// Whether the reply says that its call is the cause.
fn settles(cause: Cause, checkpoint: bool, reply: &Reply) -> bool
    ensures { result ≡ settles cause checkpoint reply.now }
{
    match cause {
        Cause::Stop => is_disk_stop(reply),
        Cause::Iteration { iteration } => checkpoint && is_iteration(iteration, reply),
    }
}

/// An iteration that is not the opened one was written by a call.
fn owes_iteration(opened: u64, iteration: u64) -> Option<Cause>
    ensures { option_to_list result ≡ owes_iteration opened iteration }
{
    if iteration == opened {
        return None;
    }
    Some(Cause::Iteration { iteration })
}

fn owes_refused(opened: u64, checkpoint: bool, refusal: &Refusal) -> Option<Cause>
    ensures { option_to_list result ≡ owes_refused opened checkpoint refusal.now }
{
    match refusal {
        Refusal::Stopped { .. } => Some(Cause::Stop),
        Refusal::Exhausted(_) => {
            if checkpoint && has_no_iteration(refusal) {
                owes_iteration(opened, MAX_ITERATION)
            } else {
                None
            }
        }
        _ => None,
    }
}

/// What a reply needs of a call before it.
pub fn owes(opened: u64, checkpoint: bool, reply: &Reply) -> Option<Cause>
    ensures { option_to_list result ≡ owes opened checkpoint reply.now }
{
    match reply {
        Reply::Checkpointed { iteration } => {
            if checkpoint {
                owes_iteration(opened, iteration.saturating_sub(1))
            } else {
                None
            }
        }
        Reply::Refused(refusal) => owes_refused(opened, checkpoint, refusal),
        _ => None,
    }
}

/// Whether the reply to a call in flight settles the need.
pub fn is_paid(session: u32, reply: &Reply, need: &Need, flights: &[Flight]) -> bool
    ensures { result ≡ list_any (pays session reply.now need.now) flights.now }
{
    flights.iter().any(|flight| {
        is_of(session, flight)
            && (flight.place < need.place && settles(need.cause, flight.checkpoint, reply))
    })
}

/// Whether a call in flight may still settle the need.
pub fn is_payable(need: &Need, flights: &[Flight]) -> bool
    ensures { result ≡ list_any (may_pay need.now) flights.now }
{
    flights.iter().any(|flight| flight.place < need.place && waits(need.cause, flight.checkpoint))
}

fn is_same_cause(first: Cause, second: Cause) -> bool
    ensures { result ≡ is_same_cause first second }
{
    match first {
        Cause::Stop => match second {
            Cause::Stop => true,
            Cause::Iteration { .. } => false,
        },
        Cause::Iteration { iteration } => match second {
            Cause::Stop => false,
            Cause::Iteration { iteration: other } => iteration == other,
        },
    }
}

/// Whether there is a need of that cause.
fn has_cause(needs: &[Need], cause: Cause) -> bool
    ensures { result ≡ list_any (λ other. is_same_cause other.cause cause) needs.now }
{
    needs.iter().any(|other| is_same_cause(other.cause, cause))
}

/// Adds a need, unless one of its cause is there: of the needs of one cause the earliest will do.
pub fn add_need(needs: &mut List<Need>, need: Need) -> Result<(), OutOfMemory>
    ensures ok { OnOk result (needs.new ≡ add_need needs.old need) }
    ensures err { OnErr result (needs.new ≡ needs.old) }
{
    if has_cause(needs.as_slice(), need.cause) {
        return Ok(());
    }
    needs.push(need)
}
