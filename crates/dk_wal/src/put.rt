//! The payload of a commit, appended part by part where room was taken before.
ghost use Rattle.std.specs.Prelude.{◌≡◌, ◌<◌, ◌^◌, ◌++◌, length, OnOk};
ghost use Rattle.std.specs.List.{flat_map, AllByRecursion};
ghost use Rattle.std.specs.Int.{w16, w32};
ghost use Rattle.dk_values.specs.declared.value.Value.TheVariants as values;
ghost use Rattle.dk_rows.specs.Cells.{value_of};
ghost use Rattle.dk_bytes.specs.ColumnFields.{IsName, name_bytes, columns_bytes};
ghost use Rattle.dk_bytes.specs.RowFields.{cell_bytes, row_bytes};
ghost use Rattle.dk_wal.specs.Counted.{counted};
ghost use Rattle.dk_wal.specs.Payload.{id_bytes, update_bytes, table_bytes, payload_bytes};
ghost use Rattle.dk_wal.specs.Writable.{IsShort, AreShort, ShortUpdate, ShortTable, IsWritable};

use crate::limits::{CHANGE_TAG, CREATE_TAG};
use crate::part::put_each;
use dk_bytes::{put_columns, put_name, put_u8, put_u16, put_u32, put_u64};
use dk_pages::{LogCommit, LogTable};
use dk_rows::{Cell, RowRef, Rows};
use dk_types::{OutOfMemory, Row};
use dk_values::Value;

/// Appends a text behind a flag and its length.
fn put_text(out: &mut Vec<u8>, text: &[u8]) -> Result<(), OutOfMemory>
    requires { length text.now < 2 ^ 16 }
    ensures { OnOk result (out.new.items ≡ out.old.items ++ cell_bytes (values.Text text.now)) }
{
    put_u8(out, 1)?;
    put_u16(out, text.len() as u16)?;
    out.extend_from_slice(text)
}

/// Appends a cell.
fn put_cell(out: &mut Vec<u8>, cell: &Cell<'_>) -> Result<(), OutOfMemory>
    requires { IsShort (value_of cell.now) }
    ensures { OnOk result (out.new.items ≡ out.old.items ++ cell_bytes (value_of cell.now)) }
{
    match cell {
        Cell::Null => put_u8(out, 0),
        Cell::Bool(truth) => {
            put_u8(out, 1)?;
            put_u8(out, *truth as u8)
        }
        Cell::Int(number) => {
            put_u8(out, 1)?;
            put_u32(out, number.cast_unsigned())
        }
        Cell::Big(number) => {
            put_u8(out, 1)?;
            put_u64(out, number.cast_unsigned())
        }
        Cell::Text(text) => put_text(out, text),
        Cell::Huge(_) => put_u8(out, 1),
    }
}

/// Appends the cell of a value.
pub(crate) fn put_value(out: &mut Vec<u8>, value: &Value) -> Result<(), OutOfMemory>
    requires { IsShort value.now }
    ensures { OnOk result (out.new.items ≡ out.old.items ++ cell_bytes value.now) }
{
    put_cell(out, &Cell::of(value))
}

/// Appends the cells of a row that is lent.
fn put_lent(out: &mut Vec<u8>, row: &RowRef<'_>) -> Result<(), OutOfMemory>
    requires { AreShort row.now }
    ensures { OnOk result (out.new.items ≡ out.old.items ++ row_bytes row.now) }
{
    'cells: for j in 0..row.len() {
        put_cell(out, &row.get(j))?;
    }
    Ok(())
}

/// Appends the cells of a row.
fn put_row(out: &mut Vec<u8>, row: &Row) -> Result<(), OutOfMemory>
    requires { AreShort row.now }
    ensures { OnOk result (out.new.items ≡ out.old.items ++ row_bytes row.now) }
{
    put_each(out, row.as_slice())
}

/// Appends the id of a row and its new values.
pub(crate) fn put_update(out: &mut Vec<u8>, update: &(u64, Row)) -> Result<(), OutOfMemory>
    requires { AreShort update.now.1 }
    ensures { OnOk result (out.new.items ≡ out.old.items ++ update_bytes update.now) }
{
    put_u64(out, update.0)?;
    put_row(out, &update.1)
}

/// Appends the number of updates, and the updates.
fn put_updates(out: &mut Vec<u8>, updates: &[(u64, Row)]) -> Result<(), OutOfMemory>
    requires few { length updates.now < 2 ^ 32 }
    requires short { AllByRecursion ShortUpdate updates.now }
    ensures { OnOk result (out.new.items ≡ out.old.items ++ counted w32 update_bytes updates.now) }
{
    put_u32(out, updates.len() as u32)?;
    put_each(out, updates)
}

/// Appends the number of ids, and the ids.
fn put_ids(out: &mut Vec<u8>, ids: &[u64]) -> Result<(), OutOfMemory>
    requires { length ids.now < 2 ^ 32 }
    ensures { OnOk result (out.new.items ≡ out.old.items ++ counted w32 id_bytes ids.now) }
{
    put_u32(out, ids.len() as u32)?;
    let mut left = ids;
    'ids: while let [id, rest @ ..] = left {
        put_u64(out, *id)?;
        left = rest;
    }
    Ok(())
}

/// Appends the number of rows, and the rows.
fn put_rows(out: &mut Vec<u8>, rows: &Rows) -> Result<(), OutOfMemory>
    requires few { length rows.now < 2 ^ 32 }
    requires short { AllByRecursion AreShort rows.now }
    ensures { OnOk result (out.new.items ≡ out.old.items ++ counted w32 row_bytes rows.now) }
{
    put_u32(out, rows.len() as u32)?;
    'rows: for i in 0..rows.len() {
        put_lent(out, &rows.get(i))?;
    }
    Ok(())
}

/// Appends what changed in a table.
pub(crate) fn put_table(out: &mut Vec<u8>, table: &LogTable) -> Result<(), OutOfMemory>
    requires { ShortTable table.now }
    ensures { OnOk result (out.new.items ≡ out.old.items ++ table_bytes table.now) }
{
    put_u32(out, table.table)?;
    put_updates(out, table.updates.as_slice())?;
    put_ids(out, table.deletes.as_slice())?;
    put_ids(out, table.groups.as_slice())?;
    put_rows(out, &table.tail)
}

/// Appends the number of tables, and the tables.
fn put_tables(out: &mut Vec<u8>, tables: &[LogTable]) -> Result<(), OutOfMemory>
    requires few { length tables.now < 2 ^ 16 }
    requires short { AllByRecursion ShortTable tables.now }
    ensures { OnOk result (out.new.items ≡ out.old.items ++ counted w16 table_bytes tables.now) }
{
    put_u16(out, tables.len() as u16)?;
    put_each(out, tables)
}

/// Appends the payload of a commit. Without memory a part may have been appended.
pub(crate) fn put_payload(out: &mut Vec<u8>, commit: &LogCommit) -> Result<(), OutOfMemory>
    requires { IsWritable commit.now }
    ensures { OnOk result (out.new.items ≡ out.old.items ++ payload_bytes commit.now) }
{
    match commit {
        LogCommit::Create { name, schema } => {
            put_u8(out, CREATE_TAG)?;
            put_name(out, name.as_slice())?;
            put_columns(out, schema)
        }
        LogCommit::Change { tables } => {
            put_u8(out, CHANGE_TAG)?;
            put_tables(out, tables.as_slice())
        }
    }
}
