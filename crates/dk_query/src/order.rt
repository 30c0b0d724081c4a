//! The order of rows by their columns: null is the lowest, DESC is the reverse, and rows that tie stay in their order.
ghost use Rattle.std.specs.Prelude.{◌≡◌, slice_get, IfOk, OnOk, OnErr};
ghost use Rattle.std.specs.Option.{option_copied};
ghost use Rattle.dk_values.specs.declared.value.Value.TheVariants.{Null};
ghost use Rattle.dk_eval.specs.Values.{value_at};
ghost use Rattle.dk_query.specs.Order.{rank, truth_in, number_in, text_in, value_cmp, column_cmp, key_cmp, keys_cmp, goes_before, order_keys, group_keys};
ghost use Rattle.dk_query.specs.Sorted.{sorted};

use crate::lines::Line;
use dk_types::BoundKey;
use dk_values::{OutOfMemory, Row, Value};
use std::alloc::Global;
use std::cmp::Ordering;

/// A column that rows are sorted by.
#[derive(Clone, Copy, Debug, PartialEq, Eq)]
pub struct SortKey {
    pub column: u32,
    pub descending: bool,
}

/// The keys of ORDER BY.
pub fn order_keys(alloc: Global, keys: &[BoundKey]) -> Result<Vec<SortKey>, OutOfMemory>
    ensures { IfOk result (λ found. found.items ≡ order_keys keys.now) }
{
    let mut found = Vec::new(alloc);
    'keys: for key in keys {
        let key = SortKey {
            column: u32::from(key.column),
            descending: key.descending,
        };
        found.push(key).map_err(|_| OutOfMemory)?;
    }
    Ok(found)
}

/// The columns of GROUP BY, in ascending order.
pub fn group_keys(alloc: Global, columns: &[u32]) -> Result<Vec<SortKey>, OutOfMemory>
    ensures { IfOk result (λ keys. keys.items ≡ group_keys columns.now) }
{
    let mut keys = Vec::new(alloc);
    'columns: for column in columns {
        let key = SortKey {
            column: *column,
            descending: false,
        };
        keys.push(key).map_err(|_| OutOfMemory)?;
    }
    Ok(keys)
}

/// Null, then truths, then numbers, then texts.
fn rank(value: &Value) -> u8
    ensures { result ≡ rank value.now }
{
    match value {
        Value::Null => 0,
        Value::Bool(_) => 1,
        Value::Int(_) | Value::Big(_) | Value::Huge(_) => 2,
        Value::Text(_) => 3,
    }
}

fn truth_in(value: &Value) -> bool
    ensures { result ≡ truth_in value.now }
{
    match value {
        Value::Bool(truth) => *truth,
        _ => false,
    }
}

fn number_in(value: &Value) -> i128
    ensures { result ≡ number_in value.now }
{
    match value {
        Value::Int(number) => i128::from(*number),
        Value::Big(number) => i128::from(*number),
        Value::Huge(number) => *number,
        _ => 0,
    }
}

fn text_in(value: &Value) -> &[u8]
    ensures { result.now ≡ text_in value.now }
{
    match value {
        Value::Text(bytes) => bytes.as_slice(),
        _ => &[],
    }
}

/// The order of values: null is the lowest, false is below true, numbers by value, texts by bytes.
pub fn compare_values(left: &Value, right: &Value) -> Ordering
    ensures { result ≡ value_cmp left.now right.now }
{
    rank(left)
        .cmp(&rank(right))
        .then(truth_in(left).cmp(&truth_in(right)))
        .then(number_in(left).cmp(&number_in(right)))
        .then(text_in(left).cmp(text_in(right)))
}

/// Lends the value of a column, if the row is as long.
pub fn column_of(row: &[Value], column: usize) -> Option<&Value>
    ensures { option_copied result ≡ slice_get row.now column }
{
    row.get(column)
}

/// Lends the value of a column, or null where the row is too short for it.
fn value_in<'a>(row: &'a Row, column: u32, null: &'a Value) -> &'a Value
    requires { null.now ≡ Null }
    ensures { result.now ≡ value_at row.now column }
{
    match column_of(row.as_slice(), column as usize) {
        None => null,
        Some(value) => value,
    }
}

/// The order of two rows by a column.
fn compare_columns(column: u32, left: &Row, right: &Row) -> Ordering
    ensures { result ≡ column_cmp column left.now right.now }
{
    let null = Value::Null;
    compare_values(
        value_in(left, column, &null),
        value_in(right, column, &null),
    )
}

/// The order of two rows by a key.
fn compare_by(key: SortKey, left: &Row, right: &Row) -> Ordering
    ensures { result ≡ key_cmp key left.now right.now }
{
    if key.descending {
        compare_columns(key.column, right, left)
    } else {
        compare_columns(key.column, left, right)
    }
}

/// The order of two rows by keys: the first that tells them apart.
pub fn compare_rows(keys: &[SortKey], left: &Row, right: &Row) -> Ordering
    ensures { result ≡ keys_cmp keys.now left.now right.now }
{
    'keys: for key in keys {
        match compare_by(*key, left, right) {
            Ordering::Equal => {}
            order => return order,
        }
    }
    Ordering::Equal
}

/// Sorts lines by keys of their rows. Without memory they stay as they are.
pub fn sort_lines(lines: &mut Vec<Line>, keys: &[SortKey]) -> Result<(), OutOfMemory>
    ensures ok { OnOk result (lines.new.items ≡ sorted (goes_before keys.now) lines.old.items) }
    ensures err { OnErr result (lines.new.items ≡ lines.old.items) }
{
    lines.sort_by(|a, b| compare_rows(keys, &a.row, &b.row))
}
