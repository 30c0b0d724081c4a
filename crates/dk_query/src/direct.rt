//! The rows of a query without groups and keys, in the order of their ids: no line is made of a row.
ghost use Rattle.std.specs.Prelude.{◌≡◌, [], ◌∷◌, ◌++◌, Some, option_map, length, if◌then◌else◌};
ghost use Rattle.dk_rows.specs.Cells.{value_of as cell_value};
ghost use Rattle.dk_eval.specs.Values.{value_at, value_of};
ghost use Rattle.dk_query.specs.Kept.{item_value, item_values, line_of, kept_from, Gives};
ghost use Rattle.dk_query.specs.Direct.{is_direct, has_room, with_values, rows_behind, Makes};

use crate::fault::QueryError;
use crate::lines::passes;
use crate::order::column_of;
use dk_eval::{EvalError, eval};
use dk_rows::values::Values;
use dk_rows::{Cell, RowRef, Rows};
use dk_types::{BoundExpr, BoundItem, BoundQuery};
use dk_values::Row;
use std::alloc::Global;

/// Whether the rows stand in the order of their ids, one for each that is kept.
pub fn is_direct(query: &BoundQuery) -> bool
    ensures { result ≡ is_direct query.now }
{
    match query.keys.as_slice() {
        [] => !query.grouped,
        [_, ..] => false,
    }
}

/// Whether a limit lets a row through behind so many.
fn has_room(limit: Option<u64>, count: usize) -> bool
    ensures { result ≡ has_room limit count }
{
    match limit {
        None => true,
        Some(most) => (count as u64) < most,
    }
}

/// Lends the value of a column. Behind the last one it is null.
fn lend_column(row: &Row, column: u16) -> Cell<'_>
    ensures { cell_value result ≡ value_at row.now column }
{
    match column_of(row.as_slice(), usize::from(column)) {
        None => Cell::Null,
        Some(value) => Cell::of(value),
    }
}

/// Adds the value of an expression on a row. That of a column is lent.
fn push_value(values: &mut Values, expr: &BoundExpr, row: &Row) -> Result<(), EvalError>
    ensures { Makes result values.new (option_map (λ v. values.old ++ v ∷ []) (value_of row.now expr.now)) }
{
    match expr {
        BoundExpr::Col(column) => Ok(values.push(&lend_column(row, *column))?),
        _ => {
            let value = eval(expr, row)?;
            Ok(values.push(&Cell::of(&value))?)
        }
    }
}

/// Adds the value of an item on a row.
fn push_item(values: &mut Values, item: &BoundItem, row: &Row) -> Result<(), EvalError>
    ensures { Makes result values.new (option_map (λ v. values.old ++ v ∷ []) (item_value row.now item.now)) }
{
    match item {
        BoundItem::Plain(expr) => push_value(values, expr, row),
        BoundItem::CountAll => Ok(values.push(&Cell::Null)?),
        BoundItem::Fold { kind: _, of } => push_value(values, of, row),
    }
}

/// Adds the values of items on a row.
fn push_items(values: &mut Values, items: &[BoundItem], row: &Row) -> Result<(), EvalError>
    ensures { Makes result values.new (option_map (λ more. values.old ++ more) (item_values row.now items.now)) }
{
    'items: for item in items {
        push_item(values, item, row)?;
    }
    Ok(())
}

/// Adds a row of these values, if the limit has room for it.
fn push_row(found: &mut Rows, limit: Option<u64>, values: &Values) -> Result<(), EvalError>
    ensures { Makes result found.new
        (Some (if has_room limit (length found.old) then found.old ++ values.now ∷ [] else found.old)) }
{
    if has_room(limit, found.len()) {
        found.push_copy(&RowRef::new(values, 0, values.len()))?;
    }
    Ok(())
}

/// Adds the values of a row that the filter keeps. They are made in `values`, whatever stood there.
fn push_kept(
    values: &mut Values,
    found: &mut Rows,
    query: &BoundQuery,
    row: &Row,
) -> Result<(), EvalError>
    ensures { Makes result found.new
        (option_map (with_values query.now.limit found.old) (line_of query.now row.now)) }
{
    if !passes(&query.filter, row)? {
        return Ok(());
    }
    values.truncate(0);
    push_items(values, query.items.as_slice(), row)?;
    push_row(found, query.limit, values)
}

/// The values of the rows that the filter keeps, as many as the limit has it. Rows behind the limit are looked at too:
/// one may have no value.
pub fn direct_rows(
    alloc: Global,
    query: &BoundQuery,
    rows: &[Option<Row>],
) -> Result<Rows, QueryError>
    ensures { Gives (λ found. found) result (rows_behind query.now.limit [] (kept_from query.now 0 rows.now)) }
{
    let mut values = Values::new(alloc);
    let mut found = Rows::new(alloc);
    'rows: for (id, place) in rows.iter().enumerate() {
        if let Some(row) = place {
            match push_kept(&mut values, &mut found, query, row) {
                Ok(()) => {}
                Err(EvalError::OutOfRange) => return Err(QueryError::OutOfRange { row: id as u64 }),
                Err(EvalError::OutOfMemory) => return Err(QueryError::OutOfMemory),
            }
        }
    }
    Ok(found)
}
