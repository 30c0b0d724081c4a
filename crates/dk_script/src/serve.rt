//! The whole of what the program does, between its words, its input and its output.
ghost use Rattle.std.specs.Prelude.{◌≡◌, ◌≤◌, ◌↔◌, Err, true, false, [], map, string_bytes};
ghost use Rattle.dk_script.specs.LineSteps.{IfBothKnown};
ghost use Rattle.dk_script.specs.RunEnds.{Replies, IsTooLongScript, EndsWithLastLine, Prints, end_line, status_of};
ghost use Rattle.dk_script.specs.LastLine.{last_line};
ghost use Rattle.dk_script.specs.Script.{is_run};
ghost use Rattle.dk_script.specs.Sinks.{SinkFailed, SourceFailed, HasCauseIn};

use crate::engine_runner::EngineRunner;
use crate::output::write_last_line;
use crate::run::run_script;
use crate::runner::Runner;
use crate::trouble::{Trouble, status_for};
use dk_device::Disk;
use dk_io::{Pause, Sink, Source};
use dk_types::Status;
use std::alloc::Global;

/// Whether the words are the one command that there is.
fn is_run(words: &[String]) -> bool
    ensures { result ≡ is_run (map string_bytes words.now) }
{
    match words {
        [word] => word.as_str() == "run",
        _ => false,
    }
}

/// Writes the last line of a run, if it has one, and says its status. Where the sink fails there, the status stays as
/// it is.
fn close<K: Sink>(sink: &mut K, ending: Result<Trouble, Status>) -> Status
    ensures status { result ≡ status_of ending }
    ensures last { EndsWithLastLine K.Sink sink.old sink.new [] (end_line ending) }
    ensures later { K.faults sink.old ≤ K.faults sink.new }
{
    match ending {
        Ok(trouble) => status_for(trouble),
        Err(status) => {
            let _ = write_last_line(sink, status);
            status
        }
    }
}

/// Carries out the command that the words are, up to the last line.
fn carry_out<R: Runner, S: Source, K: Sink>(
    alloc: Global,
    words: &[String],
    source: &mut S,
    sink: &mut K,
) -> Result<Trouble, Status>
    ensures usage { (result ≡ Err Status.Usage) ↔ (is_run (map string_bytes words.now) ≡ false) }
    ensures untouched { result ≡ Err Status.Usage → (source.new ≡ source.old) × (sink.new ≡ sink.old) }
    ensures replies { IfBothKnown (S.left source.old) (S.left source.new) (λ script rest.
        Replies result script rest (K.taken sink.old) (K.taken sink.new)) }
    ensures cause { HasCauseIn (is_run (map string_bytes words.now) ≡ false)
        (SourceFailed S.Source source.old source.new)
        (SinkFailed K.Sink sink.old sink.new) (status_of result) }
    ensures too_long { is_run (map string_bytes words.now) ≡ true
        → IfBothKnown (S.left source.old) (S.left source.new) (IsTooLongScript (status_of result)) }
    ensures later { K.faults sink.old ≤ K.faults sink.new }
{
    if !is_run(words) {
        return Err(Status::Usage);
    }
    run_script::<R, S, K>(alloc, source, sink)
}

/// Carries out the command that the words are: `run` answers the script that the source gives over a runner that it
/// opens, line by line, and hands each reply to the sink before it reads on.
pub fn serve_over<R: Runner, S: Source, K: Sink>(
    alloc: Global,
    words: &[String],
    source: &mut S,
    sink: &mut K,
) -> Status
    // Wrong words get the usage line, and nothing is read.
    ensures usage { (result ≡ Status.Usage) ↔ (is_run (map string_bytes words.now) ≡ false) }
    ensures usage_line { result ≡ Status.Usage → (source.new ≡ source.old)
        × EndsWithLastLine K.Sink sink.old sink.new [] (last_line Status.Usage) }

    // The replies and the last line, by the end of the run.
    ensures output { IfBothKnown (S.left source.old) (S.left source.new) (λ script rest.
        Prints K.Sink sink.old sink.new result script rest) }
    ensures too_long { is_run (map string_bytes words.now) ≡ true
        → IfBothKnown (S.left source.old) (S.left source.new) (IsTooLongScript result) }
    ensures cause { HasCauseIn (is_run (map string_bytes words.now) ≡ false)
        (SourceFailed S.Source source.old source.new)
        (SinkFailed K.Sink sink.old sink.new) result }
{
    let ending = carry_out::<R, S, K>(alloc, words, source, sink);
    close(sink, ending)
}

/// Carries out the command that the words are, over a database in memory. The disk is not used yet, and nothing
/// pauses. It returns the status and the disk.
pub fn serve<S: Source, K: Sink, D: Disk + Send, P: Pause + Sync>(
    alloc: Global,
    words: &[String],
    source: &mut S,
    sink: &mut K,
    disk: D,
    pause: &P,
) -> (Status, D)
    // Wrong words get the usage line, and nothing is read.
    ensures usage { (result.0 ≡ Status.Usage) ↔ (is_run (map string_bytes words.now) ≡ false) }
    ensures usage_line { result.0 ≡ Status.Usage → (source.new ≡ source.old)
        × EndsWithLastLine K.Sink sink.old sink.new [] (last_line Status.Usage) }

    // The replies and the last line, by the end of the run.
    ensures output { IfBothKnown (S.left source.old) (S.left source.new) (λ script rest.
        Prints K.Sink sink.old sink.new result.0 script rest) }
    ensures too_long { is_run (map string_bytes words.now) ≡ true
        → IfBothKnown (S.left source.old) (S.left source.new) (IsTooLongScript result.0) }
    ensures cause { HasCauseIn (is_run (map string_bytes words.now) ≡ false)
        (SourceFailed S.Source source.old source.new)
        (SinkFailed K.Sink sink.old sink.new) result.0 }
    ensures disk { result.1 ≡ disk }
{
    let _ = pause;
    let status = serve_over::<EngineRunner, S, K>(alloc, words, source, sink);
    (status, disk)
}
