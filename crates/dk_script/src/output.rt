//! Replies on their way to a sink: a page of some tens of kilobytes at a time.
ghost use Rattle.std.specs.Prelude.{◌≡◌, ◌++◌, [], decimal, unwrap_or, OnOk, OnErr};
ghost use Rattle.dk_fault.specs.Causes.{HasCause};
ghost use Rattle.dk_texts.specs.Texts.{row_text, rows_text, session_text};
ghost use Rattle.dk_script.specs.LastLine.{bad_line_text, last_line};
ghost use Rattle.dk_script.specs.ReplyTexts.{head_text, words_text, body_text};
ghost use Rattle.dk_script.specs.Paging.{MayStop, WritesText};
ghost use Rattle.dk_script.specs.Sinks.{Sends, SendsFront};

use dk_io::{Failed, Sink, write_all};
use dk_plain_engine::Answer;
use dk_texts::{put, put_counted, put_number, put_refusal, put_row};
use dk_types::{OutOfMemory, Reply, RowRef, Rows, Status};
use itoa::Buffer;

/// A page goes out once it has that many bytes.
const PAGE: usize = 32_768;

/// Hands the page to the sink, and empties it.
fn send<K: Sink>(sink: &mut K, page: &mut Vec<u8>) -> Result<(), Status>
    ensures ok { OnOk result (Sends K.Sink sink.old sink.new page.old.items) }
    ensures empty { OnOk result (page.new.items ≡ []) }
    ensures err { OnErr result (SendsFront K.Sink sink.old sink.new page.old.items) }
    ensures stops { MayStop K.Sink sink.old sink.new result }
{
    match write_all(sink, page.as_slice()) {
        Ok(()) => {
            page.clear();
            Ok(())
        }
        Err(_) => Err(Status::WriteFault),
    }
}

/// Hands the page to the sink where it is full.
#[tactic(auto, using(crate::proofs::PageLemmas::leaves_sent, crate::proofs::PageLemmas::leaves_kept))]
fn send_full<K: Sink>(sink: &mut K, page: &mut Vec<u8>) -> Result<(), Status>
    ensures { WritesText K.Sink sink.old sink.new page.new.items page.old.items result }
{
    if page.len() < PAGE {
        return Ok(());
    }
    send(sink, page)
}

/// Puts a row on the page, and hands the page to the sink where it is full.
#[tactic(auto, using(crate::proofs::PageLemmas::front_nothing))]
fn write_row<K: Sink>(sink: &mut K, page: &mut Vec<u8>, row: &RowRef<'_>) -> Result<(), Status>
    ensures { WritesText K.Sink sink.old sink.new
        page.new.items (page.old.items ++ row_text row.now) result }
{
    match put_row(page, row) {
        Ok(()) => send_full(sink, page),
        Err(_) => Err(Status::OutOfMemory),
    }
}

/// Writes rows, a line each.
fn write_rows<K: Sink>(sink: &mut K, page: &mut Vec<u8>, rows: &Rows) -> Result<(), Status>
    ensures { WritesText K.Sink sink.old sink.new
        page.new.items (page.old.items ++ rows_text rows.now) result }
{
    'rows: for i in 0..rows.len() {
        write_row(sink, page, &rows.get(i))?;
    }
    Ok(())
}

/// The name that an answer tells, empty where it has none.
fn name_of(answer: &Answer) -> &[u8]
    ensures { result.now ≡ unwrap_or answer.now.name [] }
{
    match &answer.name {
        Some(name) => name.as_slice(),
        None => b"",
    }
}

/// Puts the words of a reply on the page, where that is the name of the table that it is about.
fn put_words(page: &mut Vec<u8>, name: &[u8], reply: &Reply) -> Result<(), OutOfMemory>
    ensures ok { OnOk result (page.new.items ≡ page.old.items ++ words_text name.now reply.now) }
{
    match reply {
        Reply::Created { .. } => put(page, b"created"),
        Reply::Changed { count, .. } => put_counted(page, b"changed ", *count),
        Reply::Rows { rows } => put_counted(page, b"rows ", rows.len() as u64),
        Reply::Begun { start } => put_counted(page, b"begun ", *start),
        Reply::Committed { receipt } => put_counted(page, b"committed ", receipt.number),
        Reply::Ended => put(page, b"ended"),
        Reply::Checkpointed { iteration } => put_counted(page, b"checkpointed ", *iteration),
        Reply::Refused(refusal) => put_refusal(page, name, *refusal),
    }
}

/// Puts a reply without rows on the page, and of one with rows the line that counts them.
pub fn put_head(page: &mut Vec<u8>, session: u32, answer: &Answer) -> Result<(), OutOfMemory>
    ensures ok { OnOk result (page.new.items
        ≡ page.old.items ++ head_text session (unwrap_or answer.now.name []) answer.now.reply) }
{
    put_number(page, session)?;
    put(page, b" ")?;
    put_words(page, name_of(answer), &answer.reply)?;
    put(page, b"\n")
}

/// Writes the rows of a reply, if it has rows.
fn write_body<K: Sink>(sink: &mut K, page: &mut Vec<u8>, reply: &Reply) -> Result<(), Status>
    ensures { WritesText K.Sink sink.old sink.new
        page.new.items (page.old.items ++ body_text reply.now) result }
{
    match reply {
        Reply::Rows { rows } => write_rows(sink, page, rows),
        _ => Ok(()),
    }
}

/// Writes a whole reply, and hands all of it to the sink.
#[tactic(auto, using(crate::proofs::PageLemmas::front_nothing))]
pub fn write_reply<K: Sink>(
    sink: &mut K,
    page: &mut Vec<u8>,
    session: u32,
    answer: &Answer,
) -> Result<(), Status>
    requires { page.old.items ≡ [] }
    ensures ok { OnOk result (Sends K.Sink sink.old sink.new
        (session_text session (unwrap_or answer.now.name []) answer.now.reply)) }
    ensures empty { OnOk result (page.new.items ≡ []) }
    ensures err { OnErr result (SendsFront K.Sink sink.old sink.new
        (session_text session (unwrap_or answer.now.name []) answer.now.reply)) }
    ensures stops { MayStop K.Sink sink.old sink.new result }
{
    match put_head(page, session, answer) {
        Ok(()) => {
            write_body(sink, page, &answer.reply)?;
            send(sink, page)
        }
        Err(_) => Err(Status::OutOfMemory),
    }
}

/// Writes a number in decimal.
fn write_number<K: Sink>(sink: &mut K, number: u64) -> Result<(), Failed>
    ensures ok { OnOk result (Sends K.Sink sink.old sink.new (decimal number)) }
    ensures err { OnErr result (SendsFront K.Sink sink.old sink.new (decimal number)) }
    ensures cause { HasCause (K.faults sink.old) (K.faults sink.new) result }
{
    let mut digits = Buffer::new();
    write_all(sink, digits.format(number).as_bytes())
}

/// Writes the last line of a script that has a bad line.
fn write_bad_line<K: Sink>(sink: &mut K, line: u64) -> Result<(), Failed>
    ensures ok { OnOk result (Sends K.Sink sink.old sink.new (bad_line_text line)) }
    ensures err { OnErr result (SendsFront K.Sink sink.old sink.new (bad_line_text line)) }
    ensures cause { HasCause (K.faults sink.old) (K.faults sink.new) result }
{
    write_all(sink, b"bad line ")?;
    write_number(sink, line)?;
    write_all(sink, b"\n")
}

/// Writes the last line of a status, where it has one. It takes no memory.
pub fn write_last_line<K: Sink>(sink: &mut K, status: Status) -> Result<(), Failed>
    ensures ok { OnOk result (Sends K.Sink sink.old sink.new (last_line status)) }
    ensures err { OnErr result (SendsFront K.Sink sink.old sink.new (last_line status)) }
    ensures cause { HasCause (K.faults sink.old) (K.faults sink.new) result }
{
    match status {
        Status::Usage => write_all(sink, b"usage: run | beside | fill N SEED\n"),
        Status::BadLine { line } => write_bad_line(sink, line),
        Status::ReadFault => write_all(sink, b"read fault\n"),
        Status::OutOfMemory => write_all(sink, b"out of memory\n"),
        Status::ScriptTooLong => write_all(sink, b"script too long\n"),
        _ => Ok(()),
    }
}
