//! The calls of a history with their replies, each at its place.
ghost use Rattle.std.specs.Prelude.{◌≡◌, ◌+◌, ◌^◌, ◌<◌, length, IfOk};
ghost use Rattle.dk_si.specs.Exchanges.{reply_from, exchanges};

use dk_si::exchange::{Exchange, Replied, is_checkpoint};
use dk_si::history::Entry;
use dk_types::{OutOfMemory, TryCopy};
use std::alloc::Global;

/// The first reply to the session in these entries, the first of which has that place.
fn reply_from(session: u32, place: u64, entries: &[Entry]) -> Result<Option<Replied>, OutOfMemory>
    requires { place + length entries.now < 2 ^ 64 }
    ensures { IfOk result (λ replied. replied ≡ reply_from session place entries.now) }
{
    let mut at = place;
    for entry in entries {
        if let Entry::Reply {
            session: caller,
            reply,
        } = entry
        {
            if *caller == session {
                let reply = reply.copy()?;
                return Ok(Some(Replied { place: at, reply }));
            }
        }
        at += 1;
    }
    Ok(None)
}

/// The calls of these entries with their replies.
pub fn exchanges(alloc: Global, entries: &[Entry]) -> Result<Vec<Exchange>, OutOfMemory>
    ensures { IfOk result (λ all. all.items ≡ exchanges entries.now) }
{
    let mut all = Vec::new(alloc);
    for (i, entry) in entries.iter().enumerate() {
        if let Entry::Call { session, asked } = entry {
            let place = i as u64;
            let session = *session;
            let replied = reply_from(session, place + 1, &entries[i + 1..])?;
            let checkpoint = is_checkpoint(asked);
            all.push(Exchange {
                session,
                place,
                checkpoint,
                replied,
            })?;
        }
    }
    Ok(all)
}
