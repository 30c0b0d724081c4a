//! The meaning of a statement on a database.
ghost use Rattle.std.specs.Prelude.{◌≡◌, ◌≤◌, length, map, slice_get, IfOk};
ghost use Rattle.std.specs.Option.{option_copied};
ghost use Rattle.dk_bind.specs.declared.statements.TheConstants.{MAX_TABLES};
ghost use Rattle.dk_types.specs.declared.bound.Bound.TheVariants as bound_variants;
ghost use Rattle.dk_types.specs.declared.reply.Refusal.TheVariants.{Unsupported};
ghost use Rattle.dk_si.specs.declared.meaning.Meaning.TheVariants.{Refused};
ghost use Rattle.dk_si.specs.Meaning.{meaning, meaning_of, meant_by, in_table, entries_of};
ghost use Rattle.dk_si.specs.Meaning.{insert_rows, copy_rows, update as update_of, update_rows, delete_rows};
ghost use Rattle.dk_si.specs.Picked.{picked, new_row};
ghost use Rattle.dk_states.specs.Entries.{entry_of};
ghost use Rattle.dk_states.specs.Means.{Means};

use crate::picks::{Update, deleted_ids, updated_rows};
use crate::stored::stored_rows;
use dk_bind::{BindError, MAX_TABLES, bind};
use dk_copy::{CopyError, FieldPlace, copied_rows};
use dk_pages::{TableEntry, Tree};
use dk_query::{QueryError, select};
use dk_si::database::Table;
use dk_si::meaning::Meaning;
use dk_types::{
    Bound, BoundExpr, BoundQuery, BoundSet, List, OutOfMemory, Refusal, Row, Rows, Statement,
    TableNet, TryCopy,
};
use std::alloc::Global;

/// A table as binding sees it.
fn entry_of(alloc: Global, table: &Table) -> Result<TableEntry, OutOfMemory>
    ensures { IfOk result (λ entry. entry ≡ entry_of table.now) }
{
    Ok(TableEntry {
        name: table.name.copy()?,
        schema: table.schema.copy()?,
        groups: List::new(alloc),
    })
}

fn entries(alloc: Global, tables: &[Table]) -> Result<Tree, OutOfMemory>
    ensures { IfOk result (λ entries. entries ≡ map entry_of tables.now) }
{
    let mut entries = List::new(alloc);
    'tables: for table in tables {
        entries.push(entry_of(alloc, table)?)?;
    }
    Ok(entries)
}

/// The tables as binding sees them, the first 64.
#[tactic(auto, using(crate::proofs::EntryLemmas::first_entries, crate::proofs::EntryLemmas::few_entries))]
fn entries_of(alloc: Global, tables: &[Table]) -> Result<Tree, OutOfMemory>
    ensures entries { IfOk result (λ entries. entries ≡ entries_of tables.now) }
    ensures few { IfOk result (λ entries. length entries ≤ MAX_TABLES) }
{
    let count = tables.len().min(MAX_TABLES);
    let first = entries(alloc, &tables[..count])?;
    Ok(first)
}

/// INSERT of rows into the table of that place.
fn insert(alloc: Global, place: u32, given: &Rows, table: &Table) -> Result<Meaning, QueryError>
    ensures { Means result (insert_rows place given.now table.now) }
{
    let rows = stored_rows(alloc, table.schema.as_slice(), given)?;
    let count = rows.len() as u64;
    let part = TableNet {
        table: place,
        updates: List::new(alloc),
        deletes: List::new(alloc),
        rows,
    };
    Ok(Meaning::Change { count, part })
}

/// COPY of data into the table of that place.
fn copy(alloc: Global, place: u32, bytes: &[u8], table: &Table) -> Result<Meaning, QueryError>
    ensures { Means result (copy_rows place bytes.now table.now) }
{
    match copied_rows(alloc, &table.schema, bytes) {
        Ok(rows) => insert(alloc, place, &rows, table),
        Err(CopyError::BadField(FieldPlace { row, field })) => {
            Ok(Meaning::Refused(Refusal::BadField { row, field }))
        }
        Err(CopyError::OutOfMemory) => Err(QueryError::OutOfMemory),
    }
}

/// UPDATE of the table of that place.
fn update(
    alloc: Global,
    place: u32,
    update: &Update<'_>,
    rows: &[Option<Row>],
) -> Result<Meaning, QueryError>
    ensures { Means result (meant_by (update_of place) (picked (new_row update.now.columns.now
        update.now.sets.now update.now.filter.now) 0 rows.now)) }
{
    let updates = updated_rows(alloc, update, rows)?;
    let count = updates.len() as u64;
    let part = TableNet {
        table: place,
        updates,
        deletes: List::new(alloc),
        rows: Rows::new(alloc),
    };
    Ok(Meaning::Change { count, part })
}

/// DELETE in the table of that place.
fn delete(
    alloc: Global,
    place: u32,
    filter: &Option<BoundExpr>,
    table: &Table,
) -> Result<Meaning, QueryError>
    ensures { Means result (delete_rows place filter.now table.now) }
{
    let deletes = deleted_ids(alloc, filter, table.rows.as_slice())?;
    let count = deletes.len() as u64;
    let part = TableNet {
        table: place,
        updates: List::new(alloc),
        deletes,
        rows: Rows::new(alloc),
    };
    Ok(Meaning::Change { count, part })
}

/// Lends the table of that place, if there is one.
fn table_at(tables: &[Table], place: u32) -> Option<&Table>
    ensures { option_copied result ≡ slice_get tables.now place }
{
    tables.get(place as usize)
}

/// A statement of a form that is not built, or about no table of the database.
fn unbuilt() -> Meaning
    ensures { result ≡ Refused Unsupported }
{
    Meaning::Refused(Refusal::Unsupported)
}

/// INSERT of what a query gives.
fn insert_query(
    alloc: Global,
    tables: &[Table],
    place: u32,
    query: &BoundQuery,
) -> Result<Meaning, QueryError>
    ensures { Means result (meaning_of tables.now (bound_variants.InsertSelect place query.now)) }
{
    let Some(source) = table_at(tables, query.table) else {
        return Ok(unbuilt());
    };
    let rows = select(alloc, query, source.rows.as_slice())?;
    match table_at(tables, place) {
        None => Ok(unbuilt()),
        Some(table) => insert(alloc, place, &rows, table),
    }
}

/// The rows of a query.
fn rows_of(alloc: Global, tables: &[Table], query: &BoundQuery) -> Result<Meaning, QueryError>
    ensures { Means result (meaning_of tables.now (bound_variants.Select query.now)) }
{
    match table_at(tables, query.table) {
        None => Ok(unbuilt()),
        Some(table) => {
            let rows = select(alloc, query, table.rows.as_slice())?;
            Ok(Meaning::Rows { rows })
        }
    }
}

/// UPDATE of a table of the database.
fn update_at(
    alloc: Global,
    tables: &[Table],
    place: u32,
    sets: &[BoundSet],
    filter: &Option<BoundExpr>,
) -> Result<Meaning, QueryError>
    ensures { Means result (in_table tables.now place (update_rows place sets.now filter.now)) }
{
    match table_at(tables, place) {
        None => Ok(unbuilt()),
        Some(table) => {
            let columns = table.schema.as_slice();
            let change = Update {
                columns,
                sets,
                filter,
            };
            update(alloc, place, &change, table.rows.as_slice())
        }
    }
}

/// The meaning of a bound statement.
fn meaning_of(alloc: Global, tables: &[Table], bound: Bound) -> Result<Meaning, QueryError>
    ensures { Means result (meaning_of tables.now bound) }
{
    match bound {
        Bound::Create { name, schema } => Ok(Meaning::Create { name, schema }),
        Bound::Insert { table, rows } => match table_at(tables, table) {
            None => Ok(unbuilt()),
            Some(found) => insert(alloc, table, &rows, found),
        },
        Bound::InsertSelect { table, query } => insert_query(alloc, tables, table, &query),
        Bound::Copy { table, bytes } => match table_at(tables, table) {
            None => Ok(unbuilt()),
            Some(found) => copy(alloc, table, bytes.as_slice(), found),
        },
        Bound::Select { query } => rows_of(alloc, tables, &query),
        Bound::Update {
            table,
            sets,
            filter,
        } => update_at(alloc, tables, table, sets.as_slice(), &filter),
        Bound::Delete { table, filter } => match table_at(tables, table) {
            None => Ok(unbuilt()),
            Some(found) => delete(alloc, table, &filter, found),
        },
        Bound::Other => Ok(Meaning::Nothing),
    }
}

/// The meaning of a statement on a database.
pub fn meaning(
    alloc: Global,
    tables: &[Table],
    statement: &Statement,
) -> Result<Meaning, OutOfMemory>
    ensures { IfOk result (λ meant. meant ≡ meaning tables.now statement.now) }
{
    let entries = entries_of(alloc, tables)?;
    let bound = match bind(alloc, statement, &entries) {
        Ok(bound) => bound,
        Err(BindError::Refused(refusal)) => return Ok(Meaning::Refused(refusal)),
        Err(BindError::OutOfMemory) => return Err(OutOfMemory),
    };
    match meaning_of(alloc, tables, bound) {
        Ok(meant) => Ok(meant),
        Err(QueryError::OutOfRange { row }) => Ok(Meaning::Refused(Refusal::OutOfRange { row })),
        Err(QueryError::OutOfMemory) => Err(OutOfMemory),
    }
}
