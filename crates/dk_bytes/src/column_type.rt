//! The types of columns, each as one byte.
ghost use Rattle.std.specs.Prelude.{◌≡◌, ◌++◌, Ok, IfOk, OnOk, OnErr};
ghost use Rattle.dk_values.specs.declared.value.ColType.{ColType};
ghost use Rattle.dk_bytes.specs.Fields.{Place};
ghost use Rattle.dk_bytes.specs.Reading.{Reads, Spells, or_fault};
ghost use Rattle.dk_bytes.specs.ColumnFields.{IsType, type_byte, type_bytes, type_of, type_at};

use crate::cursor::Cursor;
use crate::field_error::FieldError;
use crate::put::put_u8;
use dk_values::{ColType, OutOfMemory};

/// The byte that names a type.
fn type_byte(kind: ColType) -> u8
    ensures { result ≡ type_byte kind }
{
    match kind {
        ColType::Bool => 0,
        ColType::Int => 1,
        ColType::Big => 2,
        ColType::Text => 3,
    }
}

/// The type that a byte names.
fn type_of(byte: u8) -> Option<ColType>
    ensures { result ≡ type_of byte }
{
    match byte {
        0 => Some(ColType::Bool),
        1 => Some(ColType::Int),
        2 => Some(ColType::Big),
        3 => Some(ColType::Text),
        _ => None,
    }
}

/// Appends a type.
pub fn put_type(out: &mut Vec<u8>, kind: ColType) -> Result<(), OutOfMemory>
    ensures ok { OnOk result (out.new.items ≡ out.old.items ++ type_bytes kind) }
    ensures err { OnErr result (out.new.items ≡ out.old.items) }
{
    put_u8(out, type_byte(kind))
}

/// Reads a type. Where it fails the cursor may stand behind it.
pub fn read_type(cursor: &mut Cursor) -> Result<ColType, FieldError>
    ensures found { IfOk result (λ kind. Spells IsType type_bytes kind cursor.old cursor.new) }
    ensures only { (kind : ColType) (behind : Place) → Spells IsType type_bytes kind cursor.old behind
        → Reads (λ k. k) result cursor.new (Ok (kind, behind)) }
    ensures place { Reads (λ kind. kind) result cursor.new (type_at cursor.old) }
{
    // What is left are bytes, and so each number has one spelling.
    let _left = cursor.left();
    next_type(cursor)
}

#[tactic(auto, unfolding(crate::specs::ColumnFields::type_at))]
fn next_type(cursor: &mut Cursor) -> Result<ColType, FieldError>
    ensures { Reads (λ kind. kind) result cursor.new (type_at cursor.old) }
{
    let at = cursor.at();
    match type_of(cursor.u8()?) {
        Some(kind) => Ok(kind),
        None => Err(FieldError::Malformed { at }),
    }
}
