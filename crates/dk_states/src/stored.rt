//! Values and rows as the columns that take them hold them.
ghost use Rattle.std.specs.Prelude.{◌≡◌, ◌^◌, IfOk, length};
ghost use Rattle.dk_eval.specs.Values.{within};
ghost use Rattle.dk_query.specs.Kept.{Gives};
ghost use Rattle.dk_si.specs.Stored.{within_integer, stored_number, stored_truth, stored_text, stored, stored_row, stored_rows};

use dk_query::QueryError;
use dk_types::{Bytes, ColType, Column, List, OutOfMemory, Row, RowRef, Rows, Value};
use dk_values::is_utf8;
use std::alloc::Global;

/// How many bytes a text has at most, and one more.
const TEXT_END: usize = 65_536;

/// The value of an INTEGER, if 32 bits hold it.
fn within_integer(number: i128) -> Option<Value>
    ensures { result ≡ within_integer number }
{
    if number >= i128::from(i32::MIN) && number <= i128::from(i32::MAX) {
        Some(Value::Int(number as i32))
    } else {
        None
    }
}

/// The value of a BIGINT, if 64 bits hold it.
fn within(number: i128) -> Option<Value>
    ensures { result ≡ within number }
{
    if number >= i128::from(i64::MIN) && number <= i128::from(i64::MAX) {
        Some(Value::Big(number as i64))
    } else {
        None
    }
}

/// A number as its column holds it, if it fits.
fn stored_number(kind: ColType, number: i128) -> Option<Value>
    ensures { result ≡ stored_number kind number }
{
    match kind {
        ColType::Int => within_integer(number),
        ColType::Big => within(number),
        ColType::Bool | ColType::Text => None,
    }
}

fn stored_truth(kind: ColType, value: Value) -> Option<Value>
    ensures { result ≡ stored_truth kind value }
{
    match kind {
        ColType::Bool => Some(value),
        _ => None,
    }
}

/// A text of at most 65,535 bytes, in UTF-8.
fn stored_text(kind: ColType, bytes: Bytes) -> Option<Value>
    ensures { result ≡ stored_text kind bytes }
{
    match kind {
        ColType::Text if bytes.len() < TEXT_END && is_utf8(bytes.as_slice()) => {
            Some(Value::Text(bytes))
        }
        _ => None,
    }
}

/// What a column of that type holds of a value, if it fits.
pub fn stored(kind: ColType, value: Value) -> Option<Value>
    ensures { result ≡ stored kind value }
{
    match value {
        Value::Null => Some(Value::Null),
        Value::Bool(truth) => stored_truth(kind, Value::Bool(truth)),
        Value::Int(number) => stored_number(kind, i128::from(number)),
        Value::Big(number) => stored_number(kind, i128::from(number)),
        Value::Huge(number) => stored_number(kind, number),
        Value::Text(bytes) => stored_text(kind, bytes),
    }
}

/// A row with one value for each column, as they hold it, if each fits.
#[tactic(auto, using(crate::proofs::StoredLemmas::other_length, crate::proofs::StoredLemmas::is_stored))]
fn stored_row(
    alloc: Global,
    columns: &[Column],
    row: &RowRef<'_>,
) -> Result<Option<Row>, OutOfMemory>
    ensures { IfOk result (λ found. found ≡ stored_row columns.now row.now) }
{
    let mut found = List::new(alloc);
    if row.len() != columns.len() {
        return Ok(None);
    }
    'columns: for (place, column) in columns.iter().enumerate() {
        let value = row.get(place).to_value(alloc)?;
        match stored(column.kind, value) {
            None => return Ok(None),
            Some(value) => found.push(value)?,
        }
    }
    Ok(Some(found))
}

/// Rows as the columns hold them. The first that doesn't fit is named by its number.
#[tactic(auto, using(crate::proofs::StoredLemmas::misfit, crate::proofs::StoredLemmas::one_more))]
pub fn stored_rows(alloc: Global, columns: &[Column], given: &Rows) -> Result<Rows, QueryError>
    ensures { Gives (λ rows. rows) result (stored_rows columns.now 0 given.now) }
{
    let mut rows = Rows::new(alloc);
    'rows: for i in 0..given.len() {
        match stored_row(alloc, columns, &given.get(i))? {
            None => return Err(QueryError::OutOfRange { row: i as u64 }),
            Some(row) => rows.push_slice(row.as_slice())?,
        }
    }
    Ok(rows)
}
