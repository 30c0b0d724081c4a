//! The rows of a table that a statement updates or deletes.
ghost use Rattle.std.specs.Prelude.{◌≡◌, ℕ, List, Option, slice_set};
ghost use Rattle.dk_query.specs.Kept.{Gives, HasValue};
ghost use Rattle.dk_si.specs.Picked.{picked, stored_at, set_value, with_sets, new_row, gone_id};

use crate::stored::stored;
use dk_eval::{EvalError, eval};
use dk_query::{QueryError, passes};
use dk_types::{BoundExpr, BoundSet, Column, Ids, List, OutOfMemory, Row, TryCopy, Updates, Value};
use std::alloc::Global;

/// What makes a `T` of a row that it keeps.
trait Pick<T: Drop> {
    ghost use Rattle.dk_values.specs.declared.value.Value.{Value as StoredValue};

    /// Of the row of an id: no value, nothing for a row that is passed over, or what is made of it.
    ghost meaning: { Self → ℕ → List StoredValue → Option (Option T) };

    fn pick(&self, alloc: Global, id: u64, row: &Row) -> Result<Option<T>, EvalError>
        ensures { HasValue result (meaning self.now id row.now) };
}

/// What is made of the rows that are there, in the order of their ids, or the first row that has no value.
fn pick_rows<T: Drop, P: Pick<T>>(
    alloc: Global,
    by: &P,
    rows: &[Option<Row>],
) -> Result<List<T>, QueryError>
    ensures { Gives (λ picks. picks) result (picked (P.meaning by.now) 0 rows.now) }
{
    let mut picks = List::new(alloc);
    'rows: for (id, place) in rows.iter().enumerate() {
        let id = id as u64;
        if let Some(row) = place {
            match by.pick(alloc, id, row) {
                Ok(None) => {}
                Ok(Some(pick)) => picks.push(pick)?,
                Err(EvalError::OutOfRange) => return Err(QueryError::OutOfRange { row: id }),
                Err(EvalError::OutOfMemory) => return Err(QueryError::OutOfMemory),
            }
        }
    }
    Ok(picks)
}

/// A value as the column of that place holds it.
fn stored_at(columns: &[Column], place: u16, value: Value) -> Option<Value>
    ensures { result ≡ stored_at columns.now place value }
{
    match columns.get(usize::from(place)) {
        None => None,
        Some(column) => stored(column.kind, value),
    }
}

/// What a set puts into its column.
fn set_value(columns: &[Column], old: &Row, set: &BoundSet) -> Result<Value, EvalError>
    ensures { HasValue result (set_value columns.now old.now set.now) }
{
    let value = eval(&set.value, old)?;
    match stored_at(columns, set.column, value) {
        None => Err(EvalError::OutOfRange),
        Some(value) => Ok(value),
    }
}

/// Puts a value in the place of a column, if the row is as long.
fn put(row: &mut Vec<Value>, place: u16, value: Value)
    ensures { row.new.items ≡ slice_set row.old.items place value }
{
    let place = usize::from(place);
    if place < row.len() {
        row[place] = value;
    }
}

/// A row with the values of sets, all taken from the row as it was.
fn with_sets(columns: &[Column], sets: &[BoundSet], old: &Row) -> Result<Row, EvalError>
    ensures { HasValue result (with_sets columns.now old.now sets.now old.now) }
{
    let mut row = old.copy()?.into_vec();
    'sets: for set in sets {
        let value = set_value(columns, old, set)?;
        put(&mut row, set.column, value);
    }
    Ok(List::from_vec(row))
}

/// An UPDATE of a table of these columns.
#[derive(Clone, Copy)]
pub struct Update<'a> {
    pub columns: &'a [Column],
    pub sets: &'a [BoundSet],
    pub filter: &'a Option<BoundExpr>,
}

impl Pick<(u64, Row)> for Update<'_> {
    ghost use Rattle.dk_si.specs.Picked.{new_row};

    ghost meaning = { λ update. new_row update.columns.now update.sets.now update.filter.now };

    fn pick(&self, _alloc: Global, id: u64, row: &Row) -> Result<Option<(u64, Row)>, EvalError> {
        if !passes(self.filter, row)? {
            return Ok(None);
        }
        let new = with_sets(self.columns, self.sets, row)?;
        Ok(Some((id, new)))
    }
}

/// A DELETE.
#[derive(Clone, Copy)]
struct Delete<'a> {
    filter: &'a Option<BoundExpr>,
}

impl Pick<u64> for Delete<'_> {
    ghost use Rattle.dk_si.specs.Picked.{gone_id};

    ghost meaning = { λ delete. gone_id delete.filter.now };

    fn pick(&self, _alloc: Global, id: u64, row: &Row) -> Result<Option<u64>, EvalError> {
        if passes(self.filter, row)? {
            Ok(Some(id))
        } else {
            Ok(None)
        }
    }
}

/// The rows that an UPDATE changes, with their new values.
pub fn updated_rows(
    alloc: Global,
    update: &Update<'_>,
    rows: &[Option<Row>],
) -> Result<Updates, QueryError>
    ensures { Gives (λ updates. updates) result (picked (new_row update.now.columns.now
        update.now.sets.now update.now.filter.now) 0 rows.now) }
{
    pick_rows(alloc, update, rows)
}

/// The ids of the rows that a DELETE takes away.
pub fn deleted_ids(
    alloc: Global,
    filter: &Option<BoundExpr>,
    rows: &[Option<Row>],
) -> Result<Ids, QueryError>
    ensures { Gives (λ ids. ids) result (picked (gone_id filter.now) 0 rows.now) }
{
    pick_rows(alloc, &Delete { filter }, rows)
}
