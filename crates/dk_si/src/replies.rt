//! What a reply says of stops and iterations.
ghost use Rattle.std.specs.Prelude.{◌≡◌};
ghost use Rattle.dk_si.specs.ReplyTests.{is_refused, has_no_iteration, is_commit, is_disk_stop, is_stopped_refusal, is_stop, iteration_of, is_iteration};

use crate::limits::MAX_ITERATION;
use dk_types::{Refusal, Reply};

/// Whether a reply carries a receipt.
pub fn is_commit(reply: &Reply) -> bool
    ensures { result ≡ is_commit reply.now }
{
    match reply {
        Reply::Created { .. } | Reply::Committed { .. } => true,
        Reply::Changed { receipt, .. } => receipt.is_some(),
        _ => false,
    }
}

/// Whether a fault of the disk stopped the engine.
pub fn is_disk_stop(reply: &Reply) -> bool
    ensures { result ≡ is_refused is_disk_stop reply.now }
{
    match reply {
        Reply::Refused(Refusal::DiskFault { stops }) => *stops,
        _ => false,
    }
}

/// Whether the engine was stopped before.
pub fn is_stopped_refusal(reply: &Reply) -> bool
    ensures { result ≡ is_refused is_stopped_refusal reply.now }
{
    matches!(reply, Reply::Refused(Refusal::Stopped { .. }))
}

/// Whether nothing is committed after the reply.
pub fn is_stop(reply: &Reply) -> bool
    ensures { result ≡ is_stop reply.now }
{
    is_disk_stop(reply) || is_stopped_refusal(reply)
}

/// The iteration that a checkpoint was answered.
pub fn iteration_of(reply: &Reply) -> Option<u64>
    ensures { result ≡ iteration_of reply.now }
{
    match reply {
        Reply::Checkpointed { iteration } => Some(*iteration),
        _ => None,
    }
}

pub fn is_iteration(iteration: u64, reply: &Reply) -> bool
    ensures { result ≡ is_iteration iteration reply.now }
{
    match reply {
        Reply::Checkpointed { iteration: other } => *other == iteration,
        _ => false,
    }
}

/// Whether no further iteration can be written.
pub fn has_no_iteration(refusal: &Refusal) -> bool
    ensures { result ≡ has_no_iteration refusal.now }
{
    match refusal {
        Refusal::Exhausted(numbers) => {
            (numbers.clock == 0 && numbers.rows == 0)
                && (numbers.transactions == 0 && numbers.iteration == MAX_ITERATION)
        }
        _ => false,
    }
}
