//! The line that has begun.
ghost use Rattle.std.specs.Prelude.{◌≡◌, ◌≢◌, ◌≤◌, ◌+◌, true, false, [], ◌++◌, length, take, slice_get, vec_len, All, Some, OnOk, OnErr};
ghost use Rattle.std.specs.Str.Lines.{strip_carriage_return};
ghost use Rattle.dk_io.specs.Lines.{is_comment, is_passed, is_too_long, kept_part};

use memchr::memchr;
use std::alloc::AllocError as OutOfMemory;
use std::mem;

/// The number of bytes before the first line feed, and whether there is one; else the number of all.
pub fn find_end(held: &[u8]) -> (usize, bool)
    ensures within { result.0 ≤ length held.now }
    ensures before { All (λ b. b ≢ 10) (take result.0 held.now) }
    ensures found { result.1 ≡ true → slice_get held.now result.0 ≡ Some 10 }
    ensures all { result.1 ≡ false → result.0 ≡ length held.now }
{
    match memchr(b'\n', held) {
        Some(at) => (at, true),
        None => (held.len(), false),
    }
}

fn is_comment(line: &[u8]) -> bool
    ensures { result ≡ is_comment line.now }
{
    matches!(line, [b'-', b'-', ..])
}

/// Whether a line is passed over.
pub fn is_passed(line: &[u8]) -> bool
    ensures { result ≡ is_passed line.now }
{
    line.is_empty() || is_comment(line)
}

// The length of a line without the carriage return at its end.
fn text_len(line: &[u8]) -> usize
    ensures { result ≡ length (strip_carriage_return line.now) }
{
    match line {
        [.., b'\r'] => line.len() - 1,
        _ => line.len(),
    }
}

/// Whether a line that has begun is longer than the limit, whatever comes.
pub fn is_too_long(begun: &[u8], limit: usize) -> bool
    ensures { result ≡ is_too_long limit begun.now }
{
    !is_comment(begun) && limit < text_len(begun)
}

/// Puts bytes behind a line that has begun. Of a comment only its dashes are kept.
pub fn keep(begun: &mut Vec<u8>, bytes: &[u8]) -> Result<(), OutOfMemory>
    ensures ok { OnOk result (begun.new.items ≡ kept_part (begun.old.items ++ bytes.now)) }
    ensures err { OnErr result (begun.new.items ≡ begun.old.items) }
    ensures len { vec_len begun.new ≤ vec_len begun.old + length bytes.now }
{
    if is_comment(begun.as_slice()) {
        begun.truncate(2);
        return Ok(());
    }
    begun.extend_from_slice(bytes)?;
    if is_comment(begun.as_slice()) {
        begun.truncate(2);
    }
    Ok(())
}

/// Makes the line that has begun the whole line, without the carriage return at its end, and begins another.
pub fn end_line(begun: &mut Vec<u8>, line: &mut Vec<u8>)
    ensures line { line.new.items ≡ strip_carriage_return begun.old.items }
    ensures begun { begun.new.items ≡ [] }
{
    let count = text_len(begun.as_slice());
    begun.truncate(count);
    mem::swap(begun, line);
    begun.clear();
}
