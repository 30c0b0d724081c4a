//! The database behind commits, and what a transaction sees of it.
ghost use Rattle.std.specs.Prelude.{◌≡◌, ◌++◌, map, Some, IfOk, OnOk, slice_set};
ghost use Rattle.dk_si.specs.Database.{present, put_rows, clear_rows, rows_after, apply_part, apply_net, apply};
ghost use Rattle.dk_si.specs.Database.{after_all, after, view};

use crate::log::{CommitLog, Inside};
use crate::slices::first;
use dk_si::database::Table;
use dk_types::{Commit, List, OutOfMemory, Row, TableNet, TryCopy};
use std::alloc::Global;

/// Puts a row, or none, in a place, if there is such a place.
fn set_row(rows: &mut Vec<Option<Row>>, place: u64, row: Option<Row>)
    ensures { rows.new.items ≡ slice_set rows.old.items place row }
{
    let place = place as usize;
    if place < rows.len() {
        rows[place] = row;
    }
}

/// Puts new values in the places of rows.
pub fn put_rows(rows: &mut Vec<Option<Row>>, updates: &[(u64, Row)]) -> Result<(), OutOfMemory>
    ensures { OnOk result (rows.new.items ≡ put_rows updates.now rows.old.items) }
{
    for update in updates {
        set_row(rows, update.0, Some(update.1.copy()?));
    }
    Ok(())
}

/// Empties places of rows.
pub fn clear_rows(rows: &mut Vec<Option<Row>>, ids: &[u64])
    ensures { rows.new.items ≡ clear_rows ids.now rows.old.items }
{
    for id in ids {
        set_row(rows, *id, None);
    }
}

/// Adds rows at the end.
pub fn add_rows(rows: &mut Vec<Option<Row>>, more: &[Row]) -> Result<(), OutOfMemory>
    ensures { OnOk result (rows.new.items ≡ rows.old.items ++ map Some more.now) }
{
    for row in more {
        rows.push(Some(row.copy()?))?;
    }
    Ok(())
}

/// The rows that are there, in the order of their ids.
pub fn present(alloc: Global, places: &[Option<Row>]) -> Result<List<Row>, OutOfMemory>
    ensures { IfOk result (λ rows. rows ≡ present places.now) }
{
    let mut rows = List::new(alloc);
    for place in places {
        if let Some(row) = place {
            rows.push(row.copy()?)?;
        }
    }
    Ok(rows)
}

/// Makes a part's changes of its table's rows: updated, deleted, and the new ones at the end.
fn change_rows(
    alloc: Global,
    part: &TableNet,
    rows: &mut Vec<Option<Row>>,
) -> Result<(), OutOfMemory>
    ensures { OnOk result (rows.new.items ≡ rows_after part.now rows.old.items) }
{
    put_rows(rows, part.updates.as_slice())?;
    clear_rows(rows, part.deletes.as_slice());
    add_rows(rows, part.rows.to_list(alloc)?.as_slice())
}

/// The table after a net's part of it.
fn table_after(alloc: Global, part: &TableNet, table: &Table) -> Result<Table, OutOfMemory>
    ensures { IfOk result (λ after. after ≡ record table.now {
      rows = rows_after part.now
          table.now.rows;
    }) }
{
    let mut rows = table.rows.copy()?.into_vec();
    change_rows(alloc, part, &mut rows)?;
    Ok(Table {
        name: table.name.copy()?,
        schema: table.schema.copy()?,
        rows: List::from_vec(rows),
    })
}

fn apply_part(alloc: Global, tables: &mut Vec<Table>, part: &TableNet) -> Result<(), OutOfMemory>
    ensures { OnOk result (tables.new.items ≡ apply_part part.now tables.old.items) }
{
    let place = part.table as usize;
    if place < tables.len() {
        let table = table_after(alloc, part, &tables[place])?;
        tables[place] = table;
    }
    Ok(())
}

/// Makes the changes of a net.
fn apply_net(alloc: Global, tables: &mut Vec<Table>, net: &[TableNet]) -> Result<(), OutOfMemory>
    ensures { OnOk result (tables.new.items ≡ apply_net net.now tables.old.items) }
{
    for part in net {
        apply_part(alloc, tables, part)?;
    }
    Ok(())
}

/// Makes the changes of a commit.
fn apply(alloc: Global, tables: &mut Vec<Table>, commit: &Commit) -> Result<(), OutOfMemory>
    ensures { OnOk result (tables.new.items ≡ apply commit.now tables.old.items) }
{
    match commit {
        Commit::Create { name, schema } => {
            let name = name.copy()?;
            let schema = schema.copy()?;
            let rows = List::new(alloc);
            tables.push(Table { name, schema, rows })?;
            Ok(())
        }
        Commit::Change { net } => apply_net(alloc, tables, net.as_slice()),
    }
}

fn copy_of(alloc: Global, tables: &[Table]) -> Result<Vec<Table>, OutOfMemory>
    ensures { IfOk result (λ copy. copy.items ≡ tables.now) }
{
    let mut copy = Vec::new(alloc);
    for table in tables {
        copy.push(table.copy()?)?;
    }
    Ok(copy)
}

/// The database after all of these commits.
fn after_all(alloc: Global, opened: &[Table], commits: &[Commit]) -> Result<Vec<Table>, OutOfMemory>
    ensures { IfOk result (λ tables. tables.items ≡ after_all commits.now opened.now) }
{
    let mut tables = copy_of(alloc, opened)?;
    for commit in commits {
        apply(alloc, &mut tables, commit)?;
    }
    Ok(tables)
}

/// The database after the first n commits.
pub fn after(alloc: Global, log: &CommitLog<'_>, n: u64) -> Result<Vec<Table>, OutOfMemory>
    ensures { IfOk result (λ tables. tables.items ≡ after log.now.opened.now log.now.commits.now n) }
{
    after_all(alloc, log.opened, first(log.commits, n))
}

/// What a transaction sees: the state at its start, with its own changes.
pub fn view(alloc: Global, inside: &Inside<'_>) -> Result<Vec<Table>, OutOfMemory>
    ensures { IfOk result (λ tables. tables.items ≡ view inside.now.log.opened.now
        inside.now.log.commits.now inside.now.active.now.start inside.now.active.now.net) }
{
    let active = inside.active;
    let mut tables = after(alloc, &inside.log, active.start)?;
    apply_net(alloc, &mut tables, active.net.as_slice())?;
    Ok(tables)
}
