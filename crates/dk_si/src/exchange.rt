//! A session's call with its reply.
ghost use Rattle.std.specs.Prelude.{◌≡◌, Some};
ghost use Rattle.dk_si.specs.Machine.{asks_for};
ghost use Rattle.dk_si.specs.Exchanges.{is_checkpoint};

use crate::history::Asked;
use crate::kind::Kind;
use dk_types::Reply;

/// A reply at its place.
#[derive(Debug, Drop)]
pub struct Replied {
    pub place: u64,
    pub reply: Reply,
}

/// A session's call at its place, whether it asks for a checkpoint, and its reply, if there is one.
#[derive(Debug, Drop)]
pub struct Exchange {
    pub session: u32,
    pub place: u64,
    pub checkpoint: bool,
    pub replied: Option<Replied>,
}

/// Whether the call is a CHECKPOINT.
pub fn is_checkpoint(asked: &Asked) -> bool
    ensures { result ≡ asks_for is_checkpoint (Some asked.now) }
{
    match asked {
        Asked::Good(statement) => matches!(Kind::of(statement), Kind::Checkpoint),
        _ => false,
    }
}
