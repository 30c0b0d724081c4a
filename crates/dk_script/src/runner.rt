//! What a script is run over: sessions whose statements are answered one at a time.
ghost use Rattle.std.specs.Prelude.{◌≤◌, ◌<◌, ◌^◌, List, [], IsUtf8, IfOk, length};
ghost use Rattle.dk_si.specs.declared.history.Entry.{Entry};
ghost use Rattle.dk_script.specs.RunnerCalls.{AnswersCall, IsWhole};
ghost use Rattle.dk_script.specs.declared.line.TheConstants.{MAX_SESSION};

use dk_plain_engine::Answer;
use dk_types::OutOfMemory;
use std::alloc::Global;

/// Answers the statements of the sessions 1 to 32, one after another on the calling thread, from a database that has
/// no table.
pub trait Runner: Drop {
    // These entries may be all that was made so far.
    ghost stands: { Self → List Entry → Type 0 };

    /// A database without tables, whose sessions have made no call.
    fn open(alloc: Global) -> Result<Self, OutOfMemory>
        ensures { IfOk result (λ runner. stands runner []) };

    /// Answers the text of a statement; `copy` are the data of a COPY, which stand outside its text.
    fn run_statement(&mut self, session: u32, text: &[u8], copy: &[u8]) -> Answer
        requires least { 1 ≤ session }
        requires most { session ≤ MAX_SESSION }
        requires utf8 { IsUtf8 text.now }
        requires short { length text.now < 2 ^ 32 }
        ensures { (entries : List Entry) → stands self.old entries
            → AnswersCall stands self.new entries session text.now copy.now result };

    // What may have been made is a legal history, in which each call has its reply.
    ghost legal: { (runner : Self) (entries : List Entry) → stands runner entries → IsWhole entries };
}
