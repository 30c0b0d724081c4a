//! A value as a field of a line.
ghost use Rattle.std.specs.Prelude.{◌≡◌, ◌++◌, OnOk};
ghost use Rattle.dk_rows.specs.Cells.{value_of};
ghost use Rattle.dk_texts.specs.Fields.{is_mark, wants_quotes, doubled_byte, doubled, quoted, field_text, value_text};

use crate::pieces::{put, put_number};
use dk_types::{Cell, OutOfMemory};

/// Whether a field with that byte stands between quotes.
fn is_mark(byte: u8) -> bool
    ensures { result ≡ is_mark byte }
{
    byte == b',' || byte == b'"' || byte == b'\r' || byte == b'\n'
}

fn wants_quotes(bytes: &[u8]) -> bool
    ensures { result ≡ wants_quotes bytes.now }
{
    bytes.iter().any(|byte| is_mark(*byte))
}

/// Puts a quote twice, or another byte once.
fn put_doubled_byte(out: &mut Vec<u8>, byte: u8) -> Result<(), OutOfMemory>
    ensures ok { OnOk result (out.new.items ≡ out.old.items ++ doubled_byte byte) }
{
    if byte == b'"' {
        return put(out, b"\"\"");
    }
    out.push(byte)?;
    Ok(())
}

/// Puts bytes with each quote doubled.
fn put_doubled(out: &mut Vec<u8>, bytes: &[u8]) -> Result<(), OutOfMemory>
    ensures ok { OnOk result (out.new.items ≡ out.old.items ++ doubled bytes.now) }
{
    'bytes: for byte in bytes {
        put_doubled_byte(out, *byte)?;
    }
    Ok(())
}

fn put_quoted(out: &mut Vec<u8>, bytes: &[u8]) -> Result<(), OutOfMemory>
    ensures ok { OnOk result (out.new.items ≡ out.old.items ++ quoted bytes.now) }
{
    put(out, b"\"")?;
    put_doubled(out, bytes)?;
    put(out, b"\"")
}

/// Puts bytes as a field: whole where no byte of them is a mark.
fn put_field(out: &mut Vec<u8>, bytes: &[u8]) -> Result<(), OutOfMemory>
    ensures ok { OnOk result (out.new.items ≡ out.old.items ++ field_text bytes.now) }
{
    if wants_quotes(bytes) {
        return put_quoted(out, bytes);
    }
    put(out, bytes)
}

/// Puts a value as a field: nothing for null.
pub fn put_cell(out: &mut Vec<u8>, cell: Cell<'_>) -> Result<(), OutOfMemory>
    ensures ok { OnOk result (out.new.items ≡ out.old.items ++ value_text (value_of cell.entry)) }
{
    match cell {
        Cell::Null => Ok(()),
        Cell::Bool(true) => put(out, b"true"),
        Cell::Bool(false) => put(out, b"false"),
        Cell::Int(number) => put_number(out, number),
        Cell::Big(number) => put_number(out, number),
        Cell::Text(bytes) => put_field(out, bytes),
        Cell::Huge(number) => put_number(out, number),
    }
}
