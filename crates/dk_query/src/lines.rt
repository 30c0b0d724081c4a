//! The rows that a query keeps, with the values of its items on them.
ghost use Rattle.std.specs.Prelude.{◌≡◌};
ghost use Rattle.dk_query.specs.Kept.{passes, item_value, item_values, line_of, kept_from, Gives, HasValue};

use crate::fault::QueryError;
use dk_eval::{EvalError, eval, is_true};
use dk_types::{BoundExpr, BoundItem, BoundQuery};
use dk_values::{List, OutOfMemory, Row, TryCopy, Value};
use std::alloc::Global;

/// A row that the filter keeps, and the values of the items on it: of an aggregate the value that it takes.
#[derive(Debug, Drop)]
pub struct Line {
    pub row: Row,
    pub values: Row,
}

/// Whether the filter keeps the row.
pub fn passes(filter: &Option<BoundExpr>, row: &Row) -> Result<bool, EvalError>
    ensures { HasValue result (passes filter.now row.now) }
{
    match filter {
        None => Ok(true),
        Some(expr) => {
            let value = eval(expr, row)?;
            Ok(is_true(&value))
        }
    }
}

/// The value of an item on a row. `count(*)` takes none.
fn item_value(item: &BoundItem, row: &Row) -> Result<Value, EvalError>
    ensures { HasValue result (item_value row.now item.now) }
{
    match item {
        BoundItem::Plain(expr) => eval(expr, row),
        BoundItem::CountAll => Ok(Value::Null),
        BoundItem::Fold { kind: _, of } => eval(of, row),
    }
}

/// The values of items on a row.
fn item_values(alloc: Global, items: &[BoundItem], row: &Row) -> Result<Row, EvalError>
    ensures { HasValue result (item_values row.now items.now) }
{
    let mut values = List::new(alloc);
    'items: for item in items {
        values.push(item_value(item, row)?)?;
    }
    Ok(values)
}

/// The line of a row, if the filter keeps it.
fn line_of(alloc: Global, query: &BoundQuery, row: &Row) -> Result<Option<Line>, EvalError>
    ensures { HasValue result (line_of query.now row.now) }
{
    if !passes(&query.filter, row)? {
        return Ok(None);
    }
    let values = item_values(alloc, query.items.as_slice(), row)?;
    Ok(Some(Line {
        row: row.copy()?,
        values,
    }))
}

/// The lines of the rows that the filter keeps, in the order of their ids.
pub fn kept_lines(
    alloc: Global,
    query: &BoundQuery,
    rows: &[Option<Row>],
) -> Result<List<Line>, QueryError>
    ensures { Gives (λ lines. lines) result (kept_from query.now 0 rows.now) }
{
    let mut lines = List::new(alloc);
    'rows: for (id, place) in rows.iter().enumerate() {
        if let Some(row) = place {
            match line_of(alloc, query, row) {
                Ok(None) => {}
                Ok(Some(line)) => lines.push(line)?,
                Err(EvalError::OutOfRange) => return Err(QueryError::OutOfRange { row: id as u64 }),
                Err(EvalError::OutOfMemory) => return Err(QueryError::OutOfMemory),
            }
        }
    }
    Ok(lines)
}
