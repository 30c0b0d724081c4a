//! How many bytes the payload of a commit has. The greatest number of 64 bits stands for all above.
ghost use Rattle.std.specs.Prelude.{◌≡◌, length};
ghost use Rattle.std.specs.List.{flat_map};
ghost use Rattle.std.specs.Int.{w16, w32};
ghost use Rattle.dk_fault.specs.Counts.{capped};
ghost use Rattle.dk_rows.specs.Cells.{value_of};
ghost use Rattle.dk_bytes.specs.RowFields.{cell_bytes, row_bytes};
ghost use Rattle.dk_wal.specs.Counted.{counted};
ghost use Rattle.dk_wal.specs.Payload.{id_bytes, update_bytes, table_bytes, payload_bytes};
ghost use Rattle.dk_wal.specs.Weights.{HasWeight};

use crate::part::len_each;
use dk_bytes::columns_len;
use dk_pages::{LogCommit, LogTable};
use dk_rows::{Cell, RowRef, Rows};
use dk_types::Row;
use dk_values::Value;

fn cell_len(cell: &Cell<'_>) -> u64
    ensures { result ≡ capped (length (cell_bytes (value_of cell.now))) }
{
    match cell {
        Cell::Null => 1,
        Cell::Bool(_) => 2,
        Cell::Int(_) => 5,
        Cell::Big(_) => 9,
        Cell::Text(text) => (text.len() as u64).saturating_add(3),
        Cell::Huge(_) => 1,
    }
}

/// The cell of a value.
pub(crate) fn value_len(value: &Value) -> u64
    ensures { result ≡ capped (length (cell_bytes value.now)) }
{
    cell_len(&Cell::of(value))
}

/// The cells of a row that is lent.
fn lent_len(row: &RowRef<'_>) -> u64
    ensures { result ≡ capped (length (row_bytes row.now)) }
{
    let mut len: u64 = 0;
    'cells: for j in 0..row.len() {
        len = len.saturating_add(cell_len(&row.get(j)));
    }
    len
}

/// The cells of a row.
fn row_len(row: &Row) -> u64
    ensures { result ≡ capped (length (row_bytes row.now)) }
{
    len_each(row.as_slice())
}

/// An update has its row's id in eight bytes, and the row.
pub(crate) fn update_len(update: &(u64, Row)) -> u64
    ensures { result ≡ capped (length (update_bytes update.now)) }
{
    row_len(&update.1).saturating_add(8)
}

/// The updates, and their number.
fn updates_len(updates: &[(u64, Row)]) -> u64
    ensures { result ≡ capped (length (counted w32 update_bytes updates.now)) }
{
    len_each(updates).saturating_add(4)
}

/// The ids, and their number.
fn ids_len(ids: &[u64]) -> u64
    ensures { result ≡ capped (length (counted w32 id_bytes ids.now)) }
{
    (ids.len() as u64).saturating_mul(8).saturating_add(4)
}

/// The rows, and their number.
fn rows_len(rows: &Rows) -> u64
    ensures { result ≡ capped (length (counted w32 row_bytes rows.now)) }
{
    let mut len: u64 = 4;
    'rows: for i in 0..rows.len() {
        len = len.saturating_add(lent_len(&rows.get(i)));
    }
    len
}

/// What changed in a table.
pub(crate) fn table_len(table: &LogTable) -> u64
    ensures { result ≡ capped (length (table_bytes table.now)) }
{
    let changes = updates_len(table.updates.as_slice());
    let ids = ids_len(table.deletes.as_slice()).saturating_add(ids_len(table.groups.as_slice()));
    let rows = rows_len(&table.tail);
    changes
        .saturating_add(ids)
        .saturating_add(rows)
        .saturating_add(4)
}

/// The tables, and their number.
fn tables_len(tables: &[LogTable]) -> u64
    ensures { result ≡ capped (length (counted w16 table_bytes tables.now)) }
{
    len_each(tables).saturating_add(2)
}

/// How many bytes the payload of a commit's record has. The greatest number of 64 bits stands for all above.
fn bytes_len(commit: &LogCommit) -> u64
    ensures { result ≡ capped (length (payload_bytes commit.now)) }
{
    match commit {
        LogCommit::Create { name, schema } => {
            let columns = columns_len(schema) as u64;
            (name.len() as u64)
                .saturating_add(columns)
                .saturating_add(2)
        }
        LogCommit::Change { tables } => tables_len(tables.as_slice()).saturating_add(1),
    }
}

/// The same. Of a net's record they are as many as the machine says that the net weighs.
pub fn payload_len(commit: &LogCommit) -> u64
    ensures len { result ≡ capped (length (payload_bytes commit.now)) }
    ensures weight { HasWeight commit.now result }
{
    bytes_len(commit)
}
