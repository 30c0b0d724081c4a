//! Values of a column's type as plain bytes, written and read again.
ghost use Rattle.std.specs.Prelude.{◌≡◌, ◌+◌, ◌++◌, ◌<◌, ◌≤◌, ◌^◌, ◌↔◌, true, [], ◌∷◌, length, Ok, IsTrue, IsSome, IfSome, IsUtf8, IfOk, OnOk, OnErr};
ghost use Rattle.std.specs.Int.{to_le_bytes, w16};
ghost use Rattle.std.specs.List.{AllByRecursion};
ghost use Rattle.dk_values.specs.declared.value.Value.TheVariants as values;
ghost use Rattle.dk_bytes.specs.Reading.{Gives, Reads, Spells};
ghost use Rattle.dk_bytes.specs.Fields.{Place};
ghost use Rattle.dk_values.specs.declared.value.Value.{Value};
ghost use Rattle.dk_bytes.specs.PlainValue.{IsPlain, same, plain_bytes, present, value_at, bool_at, int_at, big_at, text_at};

use crate::cursor::Cursor;
use crate::field_error::FieldError;
use crate::present::split_present;
use crate::put::{cut_if_failed, put_u8, put_u16, put_u32, put_u64};
use dk_values::{ColType, List, OutOfMemory, Value, is_utf8};
use std::alloc::Global;

/// Whether two values are the same one.
#[tactic(auto, using(crate::proofs::SameLemmas::tests_same))]
pub fn is_same(one: &Value, other: &Value) -> bool
    ensures fact { IsTrue result ↔ (one.now ≡ other.now) }
    ensures test { result ≡ same one.now other.now }
{
    one == other
}

/// How many bytes the value takes as a plain value of the type, if it is one.
pub fn plain_len(value: &Value, kind: ColType) -> Option<usize>
    ensures held { IsSome result ↔ IsPlain kind value.now }
    ensures length { IfSome result (λ n. n ≡ length (plain_bytes value.now)) }
    ensures small { IfSome result (λ n. n ≤ 65537) }
{
    match (kind, value) {
        (ColType::Bool, Value::Bool(_)) => Some(1),
        (ColType::Int, Value::Int(number)) => {
            let _number = *number;
            Some(4)
        }
        (ColType::Big, Value::Big(number)) => {
            let _number = *number;
            Some(8)
        }
        (ColType::Text, Value::Text(text)) => text_len(text.as_slice()),
        _ => None,
    }
}

/// How many bytes the text takes behind its length, if it is one that a column may store.
fn text_len(text: &[u8]) -> Option<usize>
    ensures held { IsSome result ↔ ((length text.now < 2 ^ 16) × IsUtf8 text.now) }
    ensures length { IfSome result (λ n. n ≡ 2 + length text.now) }
    ensures small { IfSome result (λ n. n ≤ 65537) }
{
    if text.len() > u16::MAX as usize || !is_utf8(text) {
        return None;
    }
    Some(2 + text.len())
}

/// Whether all values that are present are of the type, and so have plain bytes.
pub fn are_plain(values: &[Value], kind: ColType) -> bool
    ensures { IsTrue result ↔ AllByRecursion (IsPlain kind) (present values.now) }
{
    let mut left = values;
    'values: while let Some((value, rest)) = split_present(left) {
        if plain_len(value, kind).is_none() {
            return false;
        }
        left = rest;
    }
    true
}

/// Appends the plain bytes of a value.
pub fn put_value(out: &mut Vec<u8>, value: &Value, kind: ColType) -> Result<(), OutOfMemory>
    requires { IsPlain kind value.now }
    ensures ok { OnOk result (out.new.items ≡ out.old.items ++ plain_bytes value.now) }
    ensures err { OnErr result (out.new.items ≡ out.old.items) }
{
    match (kind, value) {
        (ColType::Bool, Value::Bool(truth)) => put_u8(out, *truth as u8),
        (ColType::Int, Value::Int(number)) => put_u32(out, number.cast_unsigned()),
        (ColType::Big, Value::Big(number)) => put_u64(out, number.cast_unsigned()),
        (ColType::Text, Value::Text(text)) => put_text(out, text.as_slice()),
        _ => unreachable!(),
    }
}

/// Appends a text behind its length.
fn put_text(out: &mut Vec<u8>, text: &[u8]) -> Result<(), OutOfMemory>
    requires { length text.now < 2 ^ 16 }
    ensures ok { OnOk result (out.new.items ≡ out.old.items ++ (to_le_bytes w16 (length text.now) ++ text.now)) }
    ensures err { OnErr result (out.new.items ≡ out.old.items) }
{
    let start = out.len();
    put_u16(out, text.len() as u16)?;
    let put = out.extend_from_slice(text);
    cut_if_failed(out, start, put)
}

/// An equal value. Only a text takes memory.
pub fn copy_value(alloc: Global, value: &Value) -> Result<Value, OutOfMemory>
    ensures { IfOk result (λ copied. copied ≡ value.now) }
{
    match value {
        Value::Text(text) => Ok(Value::Text(List::from_vec(Vec::from_slice(
            alloc,
            text.as_slice(),
        )?))),
        Value::Null => Ok(Value::Null),
        Value::Bool(truth) => Ok(Value::Bool(*truth)),
        Value::Int(number) => Ok(Value::Int(*number)),
        Value::Big(number) => Ok(Value::Big(*number)),
        Value::Huge(number) => Ok(Value::Huge(*number)),
    }
}

/// Reads the plain bytes of a value. Where it fails the cursor may stand behind fields that were read.
pub fn read_value(alloc: Global, cursor: &mut Cursor, kind: ColType) -> Result<Value, FieldError>
    ensures found { IfOk result (λ value. Spells (IsPlain kind) plain_bytes value cursor.old cursor.new) }
    ensures only { (value : Value) (behind : Place)
        → Spells (IsPlain kind) plain_bytes value cursor.old behind
        → Reads (λ v. v) result cursor.new (Ok (value, behind)) }
    ensures reads { Reads (λ value. value) result cursor.new (value_at kind cursor.old) }
{
    // What is left are bytes, and so each number has one spelling.
    let _left = cursor.left();
    next_value(alloc, cursor, kind)
}

fn next_value(alloc: Global, cursor: &mut Cursor, kind: ColType) -> Result<Value, FieldError>
    ensures { Reads (λ value. value) result cursor.new (value_at kind cursor.old) }
{
    match kind {
        ColType::Bool => read_bool(cursor),
        ColType::Int => read_int(cursor),
        ColType::Big => read_big(cursor),
        ColType::Text => read_text(alloc, cursor),
    }
}

#[tactic(auto, unfolding(crate::specs::PlainValue::bool_at))]
fn read_bool(cursor: &mut Cursor) -> Result<Value, FieldError>
    ensures { Gives (λ v. (v, cursor.new)) result (bool_at cursor.old) }
{
    let at = cursor.at();
    match cursor.u8()? {
        0 => Ok(Value::Bool(false)),
        1 => Ok(Value::Bool(true)),
        _ => Err(FieldError::Malformed { at }),
    }
}

#[tactic(auto, unfolding(crate::specs::PlainValue::int_at))]
fn read_int(cursor: &mut Cursor) -> Result<Value, FieldError>
    ensures { Gives (λ v. (v, cursor.new)) result (int_at cursor.old) }
{
    let number = cursor.u32()?;
    Ok(Value::Int(number.cast_signed()))
}

#[tactic(auto, unfolding(crate::specs::PlainValue::big_at))]
fn read_big(cursor: &mut Cursor) -> Result<Value, FieldError>
    ensures { Gives (λ v. (v, cursor.new)) result (big_at cursor.old) }
{
    let number = cursor.u64()?;
    Ok(Value::Big(number.cast_signed()))
}

fn read_text(alloc: Global, cursor: &mut Cursor) -> Result<Value, FieldError>
    ensures { Gives (λ v. (v, cursor.new)) result (text_at cursor.old) }
{
    let text = take_text(cursor)?;
    Ok(Value::Text(List::from_vec(Vec::from_slice(alloc, text)?)))
}

/// Lends the text that stands next, behind its length. Where it fails the cursor may stand behind the length.
#[tactic(auto, unfolding(crate::specs::PlainValue::text_at))]
pub fn take_text<'a>(cursor: &mut Cursor<'a>) -> Result<&'a [u8], FieldError>
    ensures { Gives (λ text. (values.Text text.now, cursor.new)) result (text_at cursor.old) }
{
    let len = cursor.u16()?;
    let at = cursor.at();
    let text = cursor.take(len as usize)?;
    if is_utf8(text) {
        Ok(text)
    } else {
        Err(FieldError::Malformed { at })
    }
}
