//! What replies print, written plainly, to compare a run with: it takes memory for the whole output.
ghost use Rattle.std.specs.Prelude.{◌≡◌, ◌++◌, unwrap_or, [], IfOk, OnOk};
ghost use Rattle.std.specs.Str.Lines.{strip_carriage_return};
ghost use Rattle.dk_io.specs.Lines.{line_content, line_contents};
ghost use Rattle.dk_script.specs.GrammarLines.{AreLines};
ghost use Rattle.dk_script.specs.LastLine.{end_text};
ghost use Rattle.dk_script.specs.PlainTexts.{answers_text};
ghost use Rattle.dk_script.specs.ReplyTexts.{body_text};
ghost use Rattle.dk_texts.specs.Texts.{rows_text, session_text};

use crate::output::put_head;
use dk_plain_engine::Answer;
use dk_texts::{put, put_counted, put_row};
use dk_types::{Bytes, List, OutOfMemory, Reply, Rows};
use std::alloc::Global;

/// An answer, and the session that it is for.
#[derive(Debug, Drop)]
pub struct SessionAnswer {
    pub session: u32,
    pub answer: Answer,
}

/// A line without the carriage return at its end, none where it is passed over.
fn line_content(line: Vec<u8>) -> Option<Bytes>
    ensures { result ≡ line_content (strip_carriage_return line.items) }
{
    let mut line = line;
    if let [.., b'\r'] = line.as_slice() {
        line.pop();
    }
    match line.as_slice() {
        [] => None,
        [b'-', b'-', ..] => None,
        _ => Some(List::from_vec(line)),
    }
}

/// The lines of a script, a byte at a time.
fn read_lines(alloc: Global, script: &[u8]) -> Result<Vec<Option<Bytes>>, OutOfMemory>
    ensures { IfOk result (λ lines. lines.items ≡ line_contents script.now) }
{
    let mut lines = Vec::new(alloc);
    let mut begun = Vec::new(alloc);
    for byte in script {
        if *byte == b'\n' {
            lines.push(line_content(begun))?;
            begun = Vec::new(alloc);
        } else {
            begun.push(*byte)?;
        }
    }
    if !begun.is_empty() {
        lines.push(line_content(begun))?;
    }
    Ok(lines)
}

/// The lines of a script, none for one that is passed over.
pub fn lines_of(alloc: Global, script: &[u8]) -> Result<Vec<Option<Bytes>>, OutOfMemory>
    // What is read are the lines of the grammar, and it has no others.
    ensures found { IfOk result (λ read. AreLines script.now read.items) }
    ensures only { (lines : _) → AreLines script.now lines
        → IfOk result (λ read. read.items ≡ lines) }
    ensures exact { IfOk result (λ read. read.items ≡ line_contents script.now) }
{
    read_lines(alloc, script)
}

/// Puts rows at the end, a line each.
fn put_rows(out: &mut Vec<u8>, rows: &Rows) -> Result<(), OutOfMemory>
    ensures { OnOk result (out.new.items ≡ out.old.items ++ rows_text rows.now) }
{
    'rows: for i in 0..rows.len() {
        put_row(out, &rows.get(i))?;
    }
    Ok(())
}

/// Puts the rows of a reply, if it has rows.
fn put_body(out: &mut Vec<u8>, reply: &Reply) -> Result<(), OutOfMemory>
    ensures { OnOk result (out.new.items ≡ out.old.items ++ body_text reply.now) }
{
    match reply {
        Reply::Rows { rows } => put_rows(out, rows),
        _ => Ok(()),
    }
}

/// Puts a whole reply.
#[tactic(auto, using(crate::proofs::ReplyLemmas::session_put))]
fn put_answer(out: &mut Vec<u8>, session: u32, answer: &Answer) -> Result<(), OutOfMemory>
    ensures { OnOk result (out.new.items ≡ out.old.items
        ++ session_text session (unwrap_or answer.now.name []) answer.now.reply) }
{
    put_head(out, session, answer)?;
    put_body(out, &answer.reply)
}

/// Puts the last line of a script whose first line outside the grammar has that number, if it has one.
fn put_end(out: &mut Vec<u8>, bad: Option<u64>) -> Result<(), OutOfMemory>
    ensures { OnOk result (out.new.items ≡ out.old.items ++ end_text bad) }
{
    match bad {
        Some(line) => {
            put_counted(out, b"bad line ", line)?;
            put(out, b"\n")
        }
        None => Ok(()),
    }
}

/// What answers print, one after another, and behind them the last line of a script whose first line outside the
/// grammar has that number.
pub fn plain_output(
    alloc: Global,
    answers: &[SessionAnswer],
    bad: Option<u64>,
) -> Result<Vec<u8>, OutOfMemory>
    ensures { IfOk result (λ out. out.items ≡ answers_text answers.now ++ end_text bad) }
{
    let mut out = Vec::new(alloc);
    'answers: for told in answers {
        put_answer(&mut out, told.session, &told.answer)?;
    }
    put_end(&mut out, bad)?;
    Ok(out)
}
