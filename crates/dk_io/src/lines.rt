//! The lines of a source, one after another, whatever pieces it gives them in.
ghost use Rattle.std.specs.Prelude.{◌≡◌, ℕ, ◌+◌, ◌^◌, ◌<◌, ◌≤◌, ◌↔◌, false, true, Ok, [], Some, length, slice_get, Contains, IfOk, IfErr, OnOk, OnErr, IsErrOf};
ghost use Rattle.std.specs.Io.KnownBytes.{IsAtEnd};
ghost use Rattle.std.specs.Str.Lines.{strip_carriage_return};
ghost use Rattle.dk_io.specs.Lines.{is_too_long, line_content};
ghost use Rattle.dk_io.specs.LinesLeft.{answer_content, line_count};
ghost use Rattle.dk_io.specs.LineMoves.{CountsTo, Fills, StopsFilling, Moves, StopsMoving, EndsLine, EndsText};
ghost use Rattle.dk_io.specs.NextLine.{GoesOn};
ghost use Rattle.dk_io.specs.ReaderState.{fresh_reader};

use crate::begun_line::{end_line, find_end, is_passed, is_too_long, keep};
use crate::pieces::Piece;
use crate::streams::Source;
use dk_fault::Failed;
use std::alloc::{AllocError as OutOfMemory, Global};
use std::marker::Model;
use thiserror::Error;

/// What a reader came to.
#[derive(Clone, Copy, Debug, PartialEq, Eq)]
pub enum Next {
    /// The end of the input: nothing is left.
    End,
    /// A line that is passed over: an empty one, or one that begins with `--`.
    Passed,
    /// A line, which [`LineReader::line`] lends.
    Line,
}

/// Why no line came.
#[derive(Clone, Copy, Debug, PartialEq, Eq, Error)]
pub enum LineError {
    /// The next line, which has this number, is longer than the limit.
    #[error("line {line} is too long")]
    TooLong { line: u64 },
    /// The source gave more bytes than the limit of the whole text.
    #[error("the text is too long")]
    TooMuch,
    /// The source failed.
    #[error("the source failed")]
    Fault,
    /// There is no memory for the line.
    #[error("out of memory")]
    OutOfMemory,
}

impl From<OutOfMemory> for LineError {
    ghost use Rattle.std.specs.Prelude.{◌≡◌};
    ghost use Rattle.dk_io.specs.declared.lines.LineError.TheVariants.{OutOfMemory};

    ghost from_gives = { λ _ e. e ≡ OutOfMemory };

    fn from(_e: OutOfMemory) -> LineError {
        LineError::OutOfMemory
    }
}

impl From<Failed> for LineError {
    ghost use Rattle.std.specs.Prelude.{◌≡◌};
    ghost use Rattle.dk_io.specs.declared.lines.LineError.TheVariants.{Fault};

    ghost from_gives = { λ _ e. e ≡ Fault };

    fn from(_e: Failed) -> LineError {
        LineError::Fault
    }
}

/// Reads the lines of a source. A line ends with a line feed or with the input, and one carriage return before that end
/// is dropped. The source is asked for another piece of at most 64 KiB only where no whole line is held. An empty line
/// and one that begins with `--` are passed over: no limit is set on them, and they are not kept in memory. Memory is
/// one piece, the line that was read last and the one that has begun.
#[derive(Debug, Drop)]
pub struct LineReader {
    piece: Piece,
    begun: Vec<u8>,
    line: Vec<u8>,
    number: u64,
    taken: u64,
    ended: bool,
    limit: usize,
    total: u64,
}

impl Model for LineReader {
    ghost use Rattle.std.specs.Prelude.{ℕ, List, ◌+◌, ◌^◌, ◌<◌, ◌≤◌, length, vec_len};
    ghost use Rattle.dk_io.specs.ReaderState.{ReaderState};

    ghost Value = { ReaderState };

    ghost view = { λ r. record {
      begun = r.begun.items;
      held = r.piece;
      line = r.line.items;
      number = r.number;
      taken = r.taken;
      ended = r.ended;
      limit = r.limit;
      total = r.total;
    } };

    // Each line that was read took a byte at least, and no more than one byte past the limit was taken.
    ghost invariant = { λ r. (r.number + (vec_len r.begun + length r.piece) ≤ r.taken)
        × (r.taken ≤ r.total + 1) × (r.total + 1 < 2 ^ 64) × (0 < r.limit) };
}

impl LineReader {
    /// A reader of lines of at most `limit` bytes, neither line feed nor dropped carriage return counted, in a text of
    /// at most `total` bytes.
    pub fn new(alloc: Global, limit: usize, total: u64) -> Result<LineReader, OutOfMemory>
        requires limit { 0 < limit }
        requires total { total + 1 < 2 ^ 64 }
        ensures { IfOk result (λ reader. reader ≡ fresh_reader limit total) }
    {
        Ok(LineReader {
            piece: Piece::new(alloc)?,
            begun: Vec::new(alloc),
            line: Vec::new(alloc),
            number: 0,
            taken: 0,
            ended: false,
            limit,
            total,
        })
    }

    /// The line that was read last.
    pub fn line(&self) -> &[u8]
        ensures { result.now ≡ self.now.line }
    {
        self.line.as_slice()
    }

    /// How many lines were read, those that were passed over included: the number of the last one, counted from 1.
    pub fn number(&self) -> u64
        ensures number { result ≡ self.now.number }
        ensures bound { result ≤ self.now.total + 1 }
        ensures fits { self.now.total + 1 < 2 ^ 64 }
    {
        self.number
    }

    /// Whether the last call found the end of the input.
    pub fn has_ended(&self) -> bool
        ensures { result ≡ self.now.ended }
    {
        self.ended
    }

    /// Goes on to the next line, and says whether there is one, whether it is passed over, or whether the input ends.
    pub fn next_line<S: Source>(&mut self, source: &mut S) -> Result<Next, LineError>
        ensures goes_on { GoesOn S.Source self.old self.new source.old source.new result }

        // The source is asked only where no whole line is held.
        ensures asks { Contains self.old.held 10 → source.new ≡ source.old }
    {
        self.begin_call();
        if self.taken > self.total {
            return Err(LineError::TooMuch);
        }
        if self.take_held()? {
            return Ok(self.end_held());
        }
        self.read_on(source)
    }

    // Forgets what the last call found.
    fn begin_call(&mut self)
        ensures { self.new ≡ record self.old { ended = false } }
    {
        self.ended = false;
    }

    // Reads pieces until the line that has begun ends.
    fn read_on<S: Source>(&mut self, source: &mut S) -> Result<Next, LineError>
        requires held { self.old.held ≡ [] }
        requires taken { self.old.taken ≤ self.old.total }
        requires fits { is_too_long self.old.limit self.old.begun ≡ false }
        requires going { self.old.ended ≡ false }
        ensures { GoesOn S.Source self.old self.new source.old source.new result }
    {
        'pieces: loop {
            if !self.fill(source)? {
                return Ok(self.end_text());
            }
            if self.take_held()? {
                return Ok(self.end_held());
            }
        }
    }

    // Reads another piece, and says whether there was one. No more is asked for than the text may still have, and one
    // byte where it may have none.
    fn fill<S: Source>(&mut self, source: &mut S) -> Result<bool, LineError>
        requires held { self.old.held ≡ [] }
        requires taken { self.old.taken ≤ self.old.total }
        ensures fills { Fills S.Source self.old self.new source.old source.new }
        ensures more { result ≡ Ok true → 0 < length self.new.held }
        ensures end { result ≡ Ok false → (self.new.held ≡ []) × IsAtEnd (S.left source.new) }
        ensures reason { IfErr result (λ e.
            StopsFilling S.Source self.new source.old source.new e) }
        ensures much { IsErrOf result LineError.TooMuch ↔ (self.new.total < self.new.taken) }
        ensures counts { CountsTo self.old self.new
            self.old.number (self.old.taken + length self.new.held) self.old.ended }
    {
        let most = (self.total - self.taken).max(1) as usize;
        let count = self.piece.refill(source, most)?;
        self.taken += count as u64;
        if self.taken > self.total {
            return Err(LineError::TooMuch);
        }
        Ok(count > 0)
    }

    // What is held up to a line feed goes to the line that has begun. Says whether there is one.
    fn move_held(&mut self) -> Result<bool, LineError>
        ensures moved { Moves self.old self.new }
        ensures found { result ≡ Ok true → slice_get self.new.held 0 ≡ Some 10 }
        ensures none { result ≡ Ok false → (self.new.held ≡ []) × ¬ Contains self.old.held 10 }
        ensures memory { IfErr result (λ e. e ≡ LineError.OutOfMemory) }
        ensures counts { CountsTo self.old self.new
            self.old.number self.old.taken self.old.ended }
    {
        let held = self.piece.held();
        let (count, found) = find_end(held);
        let (part, _) = held.split_at(count);
        keep(&mut self.begun, part)?;
        self.piece.pass(count);
        Ok(found)
    }

    // Whether a line ends in what is held, which goes to the line that has begun, as far as the limit allows.
    fn take_held(&mut self) -> Result<bool, LineError>
        ensures moved { Moves self.old self.new }
        ensures found { result ≡ Ok true → slice_get self.new.held 0 ≡ Some 10 }
        ensures none { result ≡ Ok false → (self.new.held ≡ []) × ¬ Contains self.old.held 10 }
        ensures fits { OnOk result (is_too_long self.old.limit self.new.begun ≡ false) }
        ensures reason { IfErr result (λ e. StopsMoving self.old self.new e) }
        ensures counts { CountsTo self.old self.new
            self.old.number self.old.taken self.old.ended }
    {
        let found = self.move_held()?;
        if is_too_long(self.begun.as_slice(), self.limit) {
            return Err(LineError::TooLong {
                line: self.number + 1,
            });
        }
        Ok(found)
    }

    // Ends the line that has begun at the line feed that is held.
    fn end_held(&mut self) -> Next
        requires held { slice_get self.old.held 0 ≡ Some 10 }
        requires fits { is_too_long self.old.limit self.old.begun ≡ false }
        ensures line { EndsLine self.old self.new result }
        ensures short { result ≡ Next.Line → length self.new.line ≤ self.old.limit }
        ensures counts { CountsTo self.old self.new
            (self.old.number + line_count result) self.old.taken self.old.ended }
    {
        self.piece.pass(1);
        self.end_begun()
    }

    // Ends the line that has begun, if one has, at the end of the input.
    fn end_text(&mut self) -> Next
        requires held { self.old.held ≡ [] }
        requires fits { is_too_long self.old.limit self.old.begun ≡ false }
        ensures line { EndsText self.old self.new result }
        ensures short { result ≡ Next.Line → length self.new.line ≤ self.old.limit }
        ensures empty { (self.new.begun ≡ []) × (self.new.held ≡ []) }
        ensures counts { CountsTo self.old self.new
            (self.old.number + line_count result) self.old.taken true }
    {
        self.ended = true;
        if self.begun.is_empty() {
            return Next::End;
        }
        self.end_begun()
    }

    // Ends the line that has begun.
    fn end_begun(&mut self) -> Next
        requires room { self.old.number + length self.old.held < self.old.taken }
        requires fits { is_too_long self.old.limit self.old.begun ≡ false }
        ensures content { answer_content result self.new.line
            ≡ Some (line_content (strip_carriage_return self.old.begun)) }
        ensures short { result ≡ Next.Line → length self.new.line ≤ self.old.limit }
        ensures begun { self.new.begun ≡ [] }
        ensures held { self.new.held ≡ self.old.held }
        ensures counts { CountsTo self.old self.new
            (self.old.number + line_count result) self.old.taken self.old.ended }
    {
        end_line(&mut self.begun, &mut self.line);
        self.number += 1;
        if is_passed(self.line.as_slice()) {
            Next::Passed
        } else {
            Next::Line
        }
    }
}
