//! Names, each behind its length in one byte.
ghost use Rattle.std.specs.Prelude.{◌≡◌, ◌≤◌, ◌+◌, ◌++◌, ℕ, List, length, Ok, IfOk, OnOk, OnErr};
ghost use Rattle.dk_values.specs.declared.column.TheConstants.{MAX_NAME};
ghost use Rattle.dk_bytes.specs.Fields.{Place};
ghost use Rattle.dk_bytes.specs.Reading.{Reads, Spells};
ghost use Rattle.dk_bytes.specs.ColumnFields.{IsName, name_bytes, name_at};

use crate::cursor::Cursor;
use crate::field_error::FieldError;
use crate::put::{cut_if_failed, put_u8};
use dk_values::{Bytes, List, MAX_NAME, OutOfMemory};
use std::alloc::Global;

/// How many bytes the field of a name has.
pub fn name_len(name: &[u8]) -> usize
    requires { IsName name.now }
    ensures length { result ≡ length (name_bytes name.now) }
    ensures small { result ≤ MAX_NAME + 1 }
{
    1 + name.len()
}

/// Appends a name.
pub fn put_name(out: &mut Vec<u8>, name: &[u8]) -> Result<(), OutOfMemory>
    requires { IsName name.now }
    ensures ok { OnOk result (out.new.items ≡ out.old.items ++ name_bytes name.now) }
    ensures err { OnErr result (out.new.items ≡ out.old.items) }
{
    let start = out.len();
    put_u8(out, name.len() as u8)?;
    let put = out.extend_from_slice(name);
    cut_if_failed(out, start, put)
}

/// Reads a name. Where it fails the cursor may stand behind the length.
pub fn read_name(alloc: Global, cursor: &mut Cursor) -> Result<Bytes, FieldError>
    ensures found { IfOk result (λ name. Spells IsName name_bytes name cursor.old cursor.new) }
    ensures only { (name : List ℕ) (behind : Place) → Spells IsName name_bytes name cursor.old behind
        → Reads (λ n. n) result cursor.new (Ok (name, behind)) }
    ensures place { Reads (λ name. name) result cursor.new (name_at cursor.old) }
{
    // What is left are bytes, and so each number has one spelling.
    let _left = cursor.left();
    owned_name(alloc, cursor)
}

fn owned_name(alloc: Global, cursor: &mut Cursor) -> Result<Bytes, FieldError>
    ensures { Reads (λ name. name) result cursor.new (name_at cursor.old) }
{
    let name = take_name(cursor)?;
    Ok(List::from_vec(Vec::from_slice(alloc, name)?))
}

/// Lends the name that stands next. Where it fails the cursor may stand behind the length.
#[tactic(auto, unfolding(crate::specs::ColumnFields::name_at))]
pub fn take_name<'a>(cursor: &mut Cursor<'a>) -> Result<&'a [u8], FieldError>
    ensures { Reads (λ name. name.now) result cursor.new (name_at cursor.old) }
{
    let at = cursor.at();
    let len = cursor.u8()?;
    if len == 0 || len as usize > MAX_NAME {
        return Err(FieldError::Malformed { at });
    }
    Ok(cursor.take(len as usize)?)
}
