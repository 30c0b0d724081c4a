//! The body has the values one behind the other; nulls are passed over.

ghost use Rattle.std.specs.Prelude.{◌≡◌, ◌++◌, ◌↔◌, [], length, take, IsSome, IfSome, IfOk, OnOk, OnErr};
ghost use Rattle.std.specs.List.{AllByRecursion};
ghost use Rattle.dk_values.specs.declared.value.ColType.TheVariants as types;
ghost use Rattle.dk_bytes.specs.PlainValue.{IsPlain, present, plain_bytes, value_at, bool_at, int_at, big_at};
ghost use Rattle.dk_columns.specs.Stored.{IsNumeric};
ghost use Rattle.dk_seg_body.specs.Numbers.{StandsFor, AllStandFor, value_for, values_for};
ghost use Rattle.dk_bytes.specs.Reading.{Gives};
ghost use Rattle.dk_seg_text.specs.Plain.{plain_body, values_at};

use dk_bytes::{Cursor, SegError, cut_if_failed, plain_len, put_value, split_present, take_text};
use dk_columns::Cells;
use dk_rows::Cell;
use dk_seg_body::{Body, put_number};
use dk_values::{ColType, OutOfMemory, Value};
use std::alloc::Global;

/// Each value as it is.
pub struct Plain;

impl Body for Plain {
    ghost use Rattle.dk_seg_text.specs.Plain.{plain_grammar};

    ghost grammar = { plain_grammar };

    fn size(values: &[Value], kind: ColType) -> Option<usize> {
        let mut len = 0usize;
        let mut left = values;
        'values: while let Some((value, rest)) = split_present(left) {
            let more = plain_len(value, kind)?;
            len = len.checked_add(more)?;
            left = rest;
        }
        Some(len)
    }

    fn encode(values: &[Value], kind: ColType, out: &mut Vec<u8>) -> Result<(), OutOfMemory> {
        let start = out.len();
        let put = put_values(values, kind, out);
        cut_if_failed(out, start, put)
    }

    fn fill(alloc: Global, bytes: &[u8], count: usize, cells: &mut Cells) -> Result<(), SegError> {
        let mut cursor = Cursor::new(bytes);
        read_values(&mut cursor, count, cells)?;
        cursor.finish()?;
        Ok(())
    }

    fn read(alloc: Global, bytes: &[u8], count: usize, cells: &mut Cells) -> Result<(), SegError> {
        Self::fill(alloc, bytes, count, cells)
    }
}

/// Appends the values. Without memory some of them may have been appended.
pub(crate) fn put_values(
    values: &[Value],
    kind: ColType,
    out: &mut Vec<u8>,
) -> Result<(), OutOfMemory>
    requires { AllByRecursion (IsPlain kind) (present values.now) }
    ensures ok { OnOk result (out.new.items ≡ out.old.items ++ plain_body (present values.now)) }
    ensures kept { take (length out.old.items) out.new.items ≡ out.old.items }
{
    let mut left = values;
    'values: while let Some((value, rest)) = split_present(left) {
        put_value(out, value, kind)?;
        left = rest;
    }
    Ok(())
}

/// Appends the values that the numbers stand for.
pub fn put_numbers(numbers: &[i64], kind: ColType, out: &mut Vec<u8>) -> Result<(), OutOfMemory>
    requires { AllStandFor kind numbers.now }
    ensures ok { OnOk result (out.new.items ≡ out.old.items ++ plain_body (values_for kind numbers.now)) }
    ensures err { OnErr result (out.new.items ≡ out.old.items) }
{
    let start = out.len();
    let put = put_each(numbers, kind, out);
    cut_if_failed(out, start, put)
}

/// Appends the values that the numbers stand for. Without memory some of them may have been appended.
fn put_each(numbers: &[i64], kind: ColType, out: &mut Vec<u8>) -> Result<(), OutOfMemory>
    requires { AllStandFor kind numbers.now }
    ensures ok { OnOk result (out.new.items ≡ out.old.items ++ plain_body (values_for kind numbers.now)) }
    ensures kept { take (length out.old.items) out.new.items ≡ out.old.items }
{
    let mut left = numbers;
    'numbers: while let [number, rest @ ..] = left {
        put_at(number, kind, out)?;
        left = rest;
    }
    Ok(())
}

/// Appends the value that a number stands for.
fn put_at(number: &i64, kind: ColType, out: &mut Vec<u8>) -> Result<(), OutOfMemory>
    requires { StandsFor kind number.now }
    ensures ok { OnOk result (out.new.items ≡ out.old.items ++ plain_bytes (value_for kind number.now)) }
    ensures err { OnErr result (out.new.items ≡ out.old.items) }
{
    put_number(out, *number, kind)
}

/// So many values of the column's type, one behind the other.
fn read_values(cursor: &mut Cursor, count: usize, cells: &mut Cells) -> Result<(), SegError>
    requires { cells.old.values ≡ [] }
    ensures kind { cells.new.kind ≡ cells.old.kind }
    ensures values { Gives (λ _. (cells.new.values, cursor.new)) result
        (values_at cells.old.kind count cursor.old) }
{
    match cells.kind() {
        ColType::Text => read_texts(cursor, count, cells),
        _ => read_numbers(cursor, count, cells),
    }
}

/// So many texts.
fn read_texts(cursor: &mut Cursor, count: usize, cells: &mut Cells) -> Result<(), SegError>
    requires kind { cells.old.kind ≡ types.Text }
    requires none { cells.old.values ≡ [] }
    ensures kind { cells.new.kind ≡ cells.old.kind }
    ensures values { Gives (λ _. (cells.new.values, cursor.new)) result
        (values_at types.Text count cursor.old) }
{
    'texts: for _ in 0..count {
        let text = take_text(cursor)?;
        cells.push(&Cell::Text(text))?;
    }
    Ok(())
}

/// So many truths or numbers, as words of the column's own buffer.
fn read_numbers(cursor: &mut Cursor, count: usize, cells: &mut Cells) -> Result<(), SegError>
    requires numeric { IsNumeric cells.old.kind }
    requires none { cells.old.values ≡ [] }
    ensures kind { cells.new.kind ≡ cells.old.kind }
    ensures values { Gives (λ _. (cells.new.values, cursor.new)) result
        (values_at cells.old.kind count cursor.old) }
{
    let kind = cells.kind();
    let mut numbers = cells.take_numbers();
    numbers.reserve(count)?;
    'numbers: for _ in 0..count {
        let number = read_number(cursor, kind)?;
        numbers.push(number)?;
    }
    cells.put_numbers(numbers);
    Ok(())
}

/// The number that stands for the value of the type that stands next.
fn read_number(cursor: &mut Cursor, kind: ColType) -> Result<i64, SegError>
    requires { IsNumeric kind }
    ensures reads { Gives (λ number. (value_for kind number, cursor.new)) result (value_at kind cursor.old) }
    ensures stands { IfOk result (λ number. StandsFor kind number) }
{
    match kind {
        ColType::Bool => read_bit(cursor),
        ColType::Int => read_int(cursor),
        ColType::Big => read_big(cursor),
        ColType::Text => unreachable!(),
    }
}

#[tactic(auto, unfolding(dk_bytes::specs::PlainValue::bool_at))]
fn read_bit(cursor: &mut Cursor) -> Result<i64, SegError>
    ensures reads { Gives (λ number. (value_for types.Bool number, cursor.new)) result (bool_at cursor.old) }
    ensures stands { IfOk result (λ number. StandsFor types.Bool number) }
{
    let at = cursor.at();
    match cursor.u8()? {
        0 => Ok(0),
        1 => Ok(1),
        _ => Err(SegError::Malformed { at }),
    }
}

#[tactic(auto, unfolding(dk_bytes::specs::PlainValue::int_at))]
fn read_int(cursor: &mut Cursor) -> Result<i64, SegError>
    ensures reads { Gives (λ number. (value_for types.Int number, cursor.new)) result (int_at cursor.old) }
    ensures stands { IfOk result (λ number. StandsFor types.Int number) }
{
    Ok(cursor.u32()?.cast_signed() as i64)
}

#[tactic(auto, unfolding(dk_bytes::specs::PlainValue::big_at))]
fn read_big(cursor: &mut Cursor) -> Result<i64, SegError>
    ensures reads { Gives (λ number. (value_for types.Big number, cursor.new)) result (big_at cursor.old) }
    ensures stands { IfOk result (λ number. StandsFor types.Big number) }
{
    Ok(cursor.u64()?.cast_signed())
}
