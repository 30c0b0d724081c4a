//! The run of a script: from a source, line by line, to a sink.
ghost use Rattle.std.specs.Prelude.{◌≡◌, ◌+◌, ◌<◌, ◌≤◌, true, false, Ok, [], Some, IfErr, OnOk, IsErrOf};
ghost use Rattle.dk_script.specs.LineSteps.{IfBothKnown, AnswersLine, AnswersNext, CountsScript, EndsHere, StopsLine, StopsNext};
ghost use Rattle.dk_script.specs.RunEnds.{IsTooLongScript, Replies, RunsScript, status_of};
ghost use Rattle.dk_script.specs.RunState.{IsReady, IsToAnswer, start};
ghost use Rattle.dk_script.specs.Sinks.{SinkFailed, SourceFailed, HasCauseIn};

use crate::line::{MAX_LINE, request_of};
use crate::output::write_reply;
use crate::runner::Runner;
use crate::trouble::{Trouble, trouble_behind};
use dk_io::lines::{LineError, LineReader, Next};
use dk_io::{Sink, Source};
use dk_types::Status;
use std::alloc::Global;

/// How many bytes a script may have.
const MAX_SCRIPT: u64 = 1 << 40;

/// What a run keeps from line to line.
#[derive(Debug, Drop)]
pub struct Run<R: Drop> {
    pub reader: LineReader,
    pub runner: R,
    /// What of a reply has not gone out yet.
    pub page: Vec<u8>,
    /// What the replies so far told went wrong.
    pub trouble: Trouble,
}

/// Answers the line that was read last.
fn answer_line<R: Runner, K: Sink>(run: &mut Run<R>, sink: &mut K) -> Result<(), Status>
    requires { IsToAnswer run.old.reader run.old.page.items }
    ensures ok { OnOk result (AnswersLine R.stands run.old run.new
        (K.taken sink.old) (K.taken sink.new) (Some run.old.reader.line)) }
    ensures page { OnOk result (run.new.page.items ≡ []) }
    ensures stop { IfErr result (λ status.
        StopsLine R.stands run.old run.new (K.taken sink.old) (K.taken sink.new) status) }
    ensures fault { IsErrOf result Status.WriteFault → SinkFailed K.Sink sink.old sink.new }
    ensures later { K.faults sink.old ≤ K.faults sink.new }
    ensures reader { run.new.reader ≡ run.old.reader }
{
    let number = run.reader.number();
    let Some((session, text)) = request_of(run.reader.line()) else {
        return Err(Status::BadLine { line: number });
    };
    let answer = run.runner.run_statement(session, text, b"");
    run.trouble = trouble_behind(run.trouble, &answer.reply);
    write_reply(sink, &mut run.page, session, &answer)
}

/// Reads a line and answers it: false where the source has no more. Once the input has ended the source is asked
/// no more.
fn answer_next_line<R: Runner, S: Source, K: Sink>(
    run: &mut Run<R>,
    source: &mut S,
    sink: &mut K,
) -> Result<bool, Status>
    requires { IsReady run.old.reader run.old.page.items (S.left source.old) }
    ensures ready { OnOk result (
        IsReady run.new.reader run.new.page.items (S.left source.new)) }
    ensures more { result ≡ Ok true → AnswersNext R.stands run.old run.new
        (S.left source.old) (S.left source.new) (K.taken sink.old) (K.taken sink.new) }
    ensures end { result ≡ Ok false → EndsHere run.old run.new
        (S.left source.old) (S.left source.new) (K.taken sink.old) (K.taken sink.new) }
    ensures stop { IfErr result (λ status. StopsNext R.stands run.old run.new
        (S.left source.old) (S.left source.new) (K.taken sink.old) (K.taken sink.new) status) }
    ensures cause { IfErr result (λ status. HasCauseIn ⊥
        (SourceFailed S.Source source.old source.new)
        (SinkFailed K.Sink sink.old sink.new) status) }
    ensures counts { CountsScript S.Source
        run.old.reader run.new.reader source.old source.new result }
    ensures later { K.faults sink.old ≤ K.faults sink.new }
{
    if run.reader.has_ended() {
        return Ok(false);
    }
    let number = run.reader.number();
    match run.reader.next_line(source) {
        Ok(Next::End) => Ok(false),
        Ok(Next::Passed) => Ok(true),
        Ok(Next::Line) => {
            answer_line(run, sink)?;
            Ok(true)
        }
        Err(LineError::TooLong { .. }) => Err(Status::BadLine { line: number + 1 }),
        Err(LineError::TooMuch) => Err(Status::ScriptTooLong),
        Err(LineError::Fault) => Err(Status::ReadFault),
        Err(LineError::OutOfMemory) => Err(Status::OutOfMemory),
    }
}

/// Answers all lines of a source, up to the first that is outside the grammar.
fn answer_lines<R: Runner, S: Source, K: Sink>(
    run: &mut Run<R>,
    source: &mut S,
    sink: &mut K,
) -> Result<Trouble, Status>
    requires reader { run.old.reader ≡ start }
    requires runner { R.stands run.old.runner [] }
    requires page { run.old.page.items ≡ [] }
    requires trouble { run.old.trouble ≡ Trouble.Nothing }
    ensures replies { IfBothKnown (S.left source.old) (S.left source.new) (λ script rest.
        Replies result script rest (K.taken sink.old) (K.taken sink.new)) }
    ensures too_long { IfBothKnown (S.left source.old) (S.left source.new)
        (IsTooLongScript (status_of result)) }
    ensures cause { HasCauseIn ⊥ (SourceFailed S.Source source.old source.new)
        (SinkFailed K.Sink sink.old sink.new) (status_of result) }
    ensures later { K.faults sink.old ≤ K.faults sink.new }
{
    'lines: loop {
        match answer_next_line(run, source, sink) {
            Ok(true) => {}
            Ok(false) => return Ok(run.trouble),
            Err(status) => return Err(status),
        }
    }
}

/// Opens a runner, and runs the script of a source over it, up to the last line. It is Ok at the end of the script,
/// with what the replies told went wrong, and Err where something stopped it before.
pub fn run_script<R: Runner, S: Source, K: Sink>(
    alloc: Global,
    source: &mut S,
    sink: &mut K,
) -> Result<Trouble, Status>
    ensures { RunsScript S.Source K.Sink source.old source.new sink.old sink.new result }
{
    let Ok(reader) = LineReader::new(alloc, MAX_LINE, MAX_SCRIPT) else {
        return Err(Status::OutOfMemory);
    };
    let Ok(runner) = R::open(alloc) else {
        return Err(Status::OutOfMemory);
    };
    let mut run = Run {
        reader,
        runner,
        page: Vec::new(alloc),
        trouble: Trouble::Nothing,
    };
    answer_lines(&mut run, source, sink)
}
