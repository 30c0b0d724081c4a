//! Writing a whole text to a sink.
ghost use Rattle.std.specs.Prelude.{OnOk, OnErr};
ghost use Rattle.std.specs.Io.KnownBytes.{Appends};
ghost use Rattle.dk_fault.specs.Causes.{HasCause};
ghost use Rattle.dk_io.specs.Sinks.{TakesFront};

use crate::streams::Sink;
use dk_fault::Failed;

/// Hands all of `bytes` to the sink, in as many calls as it needs. Where it fails the sink has taken a front of them.
#[tactic(auto, using(crate::proofs::WriteLemmas::more_taken))]
pub fn write_all<K: Sink>(sink: &mut K, bytes: &[u8]) -> Result<(), Failed>
    ensures ok { OnOk result (Appends (K.taken sink.old) (K.taken sink.new) bytes.now) }
    ensures err { OnErr result (TakesFront (K.taken sink.old) (K.taken sink.new) bytes.now) }
    ensures cause { HasCause (K.faults sink.old) (K.faults sink.new) result }
{
    let mut at = 0;
    'writes: while at < bytes.len() {
        at += sink.write(&bytes[at..])?;
    }
    Ok(())
}
