//! Groups: lines with the same keys, and one line of values for each.
ghost use Rattle.std.specs.Prelude.{◌≡◌, ◌<◌, ◌^◌, [], ◌∷◌, ◌++◌, length, map, slice_get, IfOk, OnOk};
ghost use Rattle.std.specs.Option.{option_copied};
ghost use Rattle.dk_eval.specs.Values.{value_at};
ghost use Rattle.dk_eval.specs.Aggregates.{aggregate};
ghost use Rattle.dk_query.specs.Order.{goes_before};
ghost use Rattle.dk_query.specs.Sorted.{sorted};
ghost use Rattle.dk_query.specs.Groups.{joins, groups_in, group_value, group_values, first_row, first_values, group_line, group_lines, values_at};

use crate::lines::Line;
use crate::order::{SortKey, compare_rows, group_keys, sort_lines};
use dk_eval::Accumulator;
use dk_types::{BoundItem, FoldKind};
use dk_values::{List, OutOfMemory, Row, TryCopy, Value};
use std::alloc::Global;

/// A group has fewer lines than a number of 64 bits counts, or there is no memory for it.
const MOST_LINES: usize = 9_223_372_036_854_775_807;

/// Whether a line has the keys of a group's first line.
fn joins(keys: &[SortKey], group: &[Line], line: &Line) -> bool
    ensures { result ≡ joins keys.now group.now line.now }
{
    match group {
        [] => false,
        [first, ..] => compare_rows(keys, &first.row, &line.row).is_eq(),
    }
}

/// Lends the value of a column, if the row is as long.
fn value_of(values: &[Value], place: usize) -> Option<&Value>
    ensures { option_copied result ≡ slice_get values.now place }
{
    values.get(place)
}

/// A copy of the value of an item, which is null behind the last one.
fn value_at(values: &Row, place: usize) -> Result<Value, OutOfMemory>
    ensures { IfOk result (λ value. value ≡ value_at values.now place) }
{
    match value_of(values.as_slice(), place) {
        None => Ok(Value::Null),
        Some(value) => value.copy(),
    }
}

/// An aggregate over the values of the item of that place.
fn fold_values(kind: FoldKind, group: &[Line], place: usize) -> Result<Value, OutOfMemory>
    requires { length group.now < 2 ^ 63 }
    ensures { IfOk result (λ value. value ≡ aggregate kind (values_at place group.now)) }
{
    let mut taken = Accumulator::new(kind);
    'lines: for line in group {
        let value = value_at(&line.values, place)?;
        taken.push(&value)?;
    }
    Ok(taken.finish())
}

/// The value of a plain item on a group, which is that on its first line.
fn first_value(group: &[Line], place: usize) -> Result<Value, OutOfMemory>
    ensures { IfOk result (λ value. value ≡ value_at (first_values group.now) place) }
{
    match group {
        [] => Ok(Value::Null),
        [first, ..] => value_at(&first.values, place),
    }
}

/// The value of the item of that place on a group.
fn group_value(item: &BoundItem, group: &[Line], place: usize) -> Result<Value, OutOfMemory>
    requires { length group.now < 2 ^ 63 }
    ensures { IfOk result (λ value. value ≡ group_value group.now place item.now) }
{
    match item {
        BoundItem::Plain(_) => first_value(group, place),
        BoundItem::CountAll => Ok(Value::Big(group.len() as i64)),
        BoundItem::Fold { kind, of: _ } => fold_values(*kind, group, place),
    }
}

/// The values of items on a group.
fn group_values(alloc: Global, items: &[BoundItem], group: &[Line]) -> Result<Row, OutOfMemory>
    requires { length group.now < 2 ^ 63 }
    ensures { IfOk result (λ values. values ≡ group_values group.now 0 items.now) }
{
    let mut values = List::new(alloc);
    'items: for (place, item) in items.iter().enumerate() {
        values.push(group_value(item, group, place)?)?;
    }
    Ok(values)
}

/// A copy of the row of a group's first line.
fn first_row(alloc: Global, group: &[Line]) -> Result<Row, OutOfMemory>
    ensures { IfOk result (λ row. row ≡ first_row group.now) }
{
    match group {
        [] => Ok(List::new(alloc)),
        [first, ..] => first.row.copy(),
    }
}

/// The line of a group.
fn group_line(alloc: Global, items: &[BoundItem], group: &[Line]) -> Result<Line, OutOfMemory>
    ensures { IfOk result (λ line. line ≡ group_line items.now group.now) }
{
    if group.len() >= MOST_LINES {
        return Err(OutOfMemory);
    }
    Ok(Line {
        row: first_row(alloc, group)?,
        values: group_values(alloc, items, group)?,
    })
}

/// Adds the line of a group.
fn push_group(items: &[BoundItem], found: &mut Vec<Line>, group: &[Line]) -> Result<(), OutOfMemory>
    ensures { OnOk result (found.new.items ≡ found.old.items ++ group_line items.now group.now ∷ []) }
{
    let line = group_line(*found.allocator(), items, group)?;
    found.push(line).map_err(|_| OutOfMemory)
}

/// The lines of the groups that sorted lines are cut into.
fn cut_lines(
    alloc: Global,
    keys: &[SortKey],
    items: &[BoundItem],
    lines: &[Line],
) -> Result<Vec<Line>, OutOfMemory>
    ensures { IfOk result (λ found. found.items ≡ map (group_line items.now) (groups_in keys.now lines.now)) }
{
    let mut found = Vec::new(alloc);
    if lines.is_empty() {
        return Ok(found);
    }
    let mut start = 0;
    let mut at = 1;
    'lines: while at < lines.len() {
        if !joins(keys, &lines[start..at], &lines[at]) {
            push_group(items, &mut found, &lines[start..at])?;
            start = at;
        }
        at += 1;
    }
    push_group(items, &mut found, &lines[start..])?;
    Ok(found)
}

/// The lines of the groups of a query.
pub fn group_lines(
    alloc: Global,
    columns: &[u32],
    items: &[BoundItem],
    mut lines: Vec<Line>,
) -> Result<Vec<Line>, OutOfMemory>
    ensures { IfOk result (λ found. found.items ≡ group_lines columns.now items.now lines.items) }
{
    if columns.is_empty() {
        let mut found = Vec::new(alloc);
        push_group(items, &mut found, lines.as_slice())?;
        return Ok(found);
    }
    let keys = group_keys(alloc, columns)?;
    sort_lines(&mut lines, keys.as_slice())?;
    cut_lines(alloc, keys.as_slice(), items, lines.as_slice())
}
