//! A commit, read from the payload of its record with the tables that are there.
ghost use Rattle.std.specs.Prelude.{◌≡◌, ◌+◌, true, [], IfOk, Ok, length};
ghost use Rattle.std.proofs.Common.{option_map};
ghost use Rattle.std.specs.Int.{w16, w32, w64};
ghost use Rattle.dk_bytes.specs.Fields.{number_at};
ghost use Rattle.dk_values.specs.declared.column.Column.{Column};
ghost use Rattle.dk_bytes.specs.Reading.{Gives, Reads, list_at};
ghost use Rattle.dk_pages.specs.declared.log.LogCommit.{LogCommit};
ghost use Rattle.dk_wal.specs.Counted.{is_behind, counted_at, any_number};
ghost use Rattle.dk_wal.specs.Ascending.{Ascends, first, itself};
ghost use Rattle.dk_wal.specs.Payload.{update_at, delete_at, deletes_at, root_at, tail_row_at, is_tail, columns_of, has_entries, is_named, may_create, are_tables, table_at, creation_at, change_at, commit_at, payload_read, IsPayload};

use crate::each::{Next, read_each};
use crate::limits::{CHANGE_TAG, CREATE_TAG, GROUP_ROWS, MAX_TABLES};
use crate::shared_ids::shares_id;
use dk_bytes::{Cursor, FieldError, read_columns, read_name, read_row};
use dk_pages::{LogCommit, LogTable, TableEntry, Tree};
use dk_rows::Rows;
use dk_types::{Row, Schema};
use dk_values::{Ids, List};
use std::alloc::Global;

/// Whether an id stands behind those of the updates before it.
fn is_behind_updates(earlier: &[(u64, Row)], id: u64) -> bool
    ensures { result ≡ is_behind first earlier.now id }
{
    match earlier.last() {
        None => true,
        Some(update) => update.0 < id,
    }
}

/// Whether an id stands behind those before it.
fn is_behind_ids(earlier: &[u64], id: u64) -> bool
    ensures { result ≡ is_behind itself earlier.now id }
{
    match earlier.last() {
        None => true,
        Some(last) => *last < id,
    }
}

/// Whether a table's number stands behind those of the tables before it.
fn is_behind_tables(earlier: &[LogTable], number: u32) -> bool
    ensures { result ≡ is_behind (λ t. t.table) earlier.now number }
{
    match earlier.last() {
        None => true,
        Some(table) => table.table < number,
    }
}

/// The update that stands next, behind these.
#[tactic(auto, unfolding(crate::specs::Payload::update_at))]
fn read_update(
    alloc: Global,
    cursor: &mut Cursor,
    columns: &Schema,
    earlier: &[(u64, Row)],
) -> Result<(u64, Row), FieldError>
    ensures reads { Reads (λ u. u) result cursor.new (update_at columns.now earlier.now cursor.old) }
    ensures behind { IfOk result (λ u. is_behind first earlier.now (first u) ≡ true) }
{
    let at = cursor.at();
    let id = cursor.u64()?;
    if !is_behind_updates(earlier, id) {
        return Err(FieldError::Malformed { at });
    }
    let row = read_row(alloc, cursor, columns)?;
    Ok((id, row))
}

impl Next<Schema> for (u64, Row) {
    ghost use Rattle.std.specs.Prelude.{◌≡◌, true};
    ghost use Rattle.dk_wal.specs.Counted.{is_behind};
    ghost use Rattle.dk_wal.specs.Ascending.{first};
    ghost use Rattle.dk_wal.specs.Payload.{update_at};

    ghost read_at = { update_at };

    ghost fits_behind = { λ earlier u. is_behind first earlier (first u) ≡ true };

    fn read_next(
        alloc: Global,
        cursor: &mut Cursor,
        context: &Schema,
        earlier: &[(u64, Row)],
    ) -> Result<(u64, Row), FieldError> {
        read_update(alloc, cursor, context, earlier)
    }
}

/// The updates behind their number.
#[tactic(auto, unfolding(crate::specs::Counted::counted_at))]
fn read_updates(
    alloc: Global,
    cursor: &mut Cursor,
    columns: &Schema,
) -> Result<Vec<(u64, Row)>, FieldError>
    ensures reads { Reads (λ us. us.items) result cursor.new
        (counted_at w32 any_number (update_at columns.now) cursor.old) }
    ensures ascends { IfOk result (λ us. Ascends first us.items) }
{
    let count = cursor.u32()?;
    read_each(alloc, cursor, columns, count)
}

/// The id that stands next, behind these.
#[tactic(auto, unfolding(crate::specs::Payload::delete_at))]
fn read_delete(cursor: &mut Cursor, earlier: &[u64]) -> Result<u64, FieldError>
    ensures reads { Reads (λ id. id) result cursor.new (delete_at earlier.now cursor.old) }
    ensures behind { IfOk result (λ id. is_behind itself earlier.now (itself id) ≡ true) }
{
    let at = cursor.at();
    let id = cursor.u64()?;
    if !is_behind_ids(earlier, id) {
        return Err(FieldError::Malformed { at });
    }
    Ok(id)
}

/// The ids of rows that went.
struct Deletes;

impl Next<Deletes> for u64 {
    ghost use Rattle.std.specs.Prelude.{◌≡◌, true};
    ghost use Rattle.dk_wal.specs.Counted.{is_behind};
    ghost use Rattle.dk_wal.specs.Ascending.{itself};
    ghost use Rattle.dk_wal.specs.Payload.{delete_at};

    ghost read_at = { λ _. delete_at };

    ghost fits_behind = { λ earlier id. is_behind itself earlier (itself id) ≡ true };

    fn read_next(
        _alloc: Global,
        cursor: &mut Cursor,
        _context: &Deletes,
        earlier: &[u64],
    ) -> Result<u64, FieldError> {
        read_delete(cursor, earlier)
    }
}

/// Ascending ids behind their number.
#[tactic(auto, unfolding(crate::specs::Counted::counted_at))]
fn read_ids(alloc: Global, cursor: &mut Cursor) -> Result<Vec<u64>, FieldError>
    ensures reads { Reads (λ ids. ids.items) result cursor.new (counted_at w32 any_number delete_at cursor.old) }
    ensures ascends { IfOk result (λ ids. Ascends itself ids.items) }
{
    let count = cursor.u32()?;
    read_each(alloc, cursor, &Deletes, count)
}

/// The ids of the rows that went, none of which got new values.
#[tactic(auto, unfolding(crate::specs::Payload::deletes_at))]
fn read_deletes(
    alloc: Global,
    cursor: &mut Cursor,
    updates: &[(u64, Row)],
) -> Result<Vec<u64>, FieldError>
    requires { Ascends first updates.now }
    ensures { Reads (λ ids. ids.items) result cursor.new (deletes_at updates.now cursor.old) }
{
    let at = cursor.at();
    let deletes = read_ids(alloc, cursor)?;
    if shares_id(updates, deletes.as_slice()) {
        return Err(FieldError::Malformed { at });
    }
    Ok(deletes)
}

/// The root that stands next.
fn read_root(cursor: &mut Cursor) -> Result<u64, FieldError>
    ensures { Reads (λ root. root) result cursor.new (number_at w64 cursor.old) }
{
    Ok(cursor.u64()?)
}

/// The roots of pages.
struct Roots;

impl Next<Roots> for u64 {
    ghost use Rattle.dk_wal.specs.Payload.{root_at};

    ghost read_at = { λ _. root_at };

    ghost fits_behind = { λ _ _. Unit {0} };

    fn read_next(
        _alloc: Global,
        cursor: &mut Cursor,
        _context: &Roots,
        _earlier: &[u64],
    ) -> Result<u64, FieldError> {
        read_root(cursor)
    }
}

/// The roots of the pages of full groups, behind their number.
#[tactic(auto, unfolding(crate::specs::Counted::counted_at))]
fn read_roots(alloc: Global, cursor: &mut Cursor) -> Result<Vec<u64>, FieldError>
    ensures { Reads (λ roots. roots.items) result cursor.new (counted_at w32 any_number root_at cursor.old) }
{
    let count = cursor.u32()?;
    read_each(alloc, cursor, &Roots, count)
}

/// So many rows.
fn read_each_row(
    alloc: Global,
    cursor: &mut Cursor,
    columns: &Schema,
    count: u32,
) -> Result<Rows, FieldError>
    ensures { Reads (λ rows. rows) result cursor.new (list_at (tail_row_at columns.now) count [] cursor.old) }
{
    let mut rows = Rows::new(alloc);
    'rows: for _ in 0..count {
        let row = read_row(alloc, cursor, columns)?;
        rows.push(row)?;
    }
    Ok(rows)
}

/// The rows that fill no group, behind their number.
#[tactic(auto, unfolding(crate::specs::Counted::counted_at))]
fn read_tail(alloc: Global, cursor: &mut Cursor, columns: &Schema) -> Result<Rows, FieldError>
    ensures { Reads (λ rows. rows) result cursor.new
        (counted_at w32 is_tail (tail_row_at columns.now) cursor.old) }
{
    let at = cursor.at();
    let count = cursor.u32()?;
    if count as usize >= GROUP_ROWS {
        return Err(FieldError::Malformed { at });
    }
    read_each_row(alloc, cursor, columns, count)
}

/// The columns of the table of this number, where it stands behind the tables before it.
fn columns_of<'a>(tables: &'a Tree, earlier: &[LogTable], number: u32) -> Option<&'a Schema>
    ensures { option_map (λ s. s.now) result ≡ columns_of tables.now earlier.now number }
{
    if !is_behind_tables(earlier, number) || number as usize >= tables.len() {
        return None;
    }
    Some(&tables.get(number as usize).schema)
}

/// Whether something changed in the table.
fn has_entries(table: &LogTable) -> bool
    ensures { result ≡ has_entries table.now }
{
    !(table.updates.is_empty()
        && table.deletes.is_empty()
        && table.groups.is_empty()
        && table.tail.is_empty())
}

/// The table that stands next, behind these.
#[tactic(auto, unfolding(crate::specs::Payload::table_at))]
fn read_table(
    alloc: Global,
    cursor: &mut Cursor,
    tables: &Tree,
    earlier: &[LogTable],
) -> Result<LogTable, FieldError>
    ensures { Reads (λ t. t) result cursor.new (table_at tables.now earlier.now cursor.old) }
{
    let at = cursor.at();
    let number = cursor.u32()?;
    let Some(columns) = columns_of(tables, earlier, number) else {
        return Err(FieldError::Malformed { at });
    };
    let updates = read_updates(alloc, cursor, columns)?;
    let deletes = read_deletes(alloc, cursor, updates.as_slice())?;
    let groups = read_roots(alloc, cursor)?;
    let at = cursor.at();
    let tail = read_tail(alloc, cursor, columns)?;
    let table = LogTable {
        table: number,
        updates: List::from_vec(updates),
        deletes: List::from_vec(deletes),
        groups: List::from_vec(groups),
        tail,
    };
    if !has_entries(&table) {
        return Err(FieldError::Malformed { at });
    }
    Ok(table)
}

impl Next<Tree> for LogTable {
    ghost use Rattle.dk_wal.specs.Payload.{table_at};

    ghost read_at = { table_at };

    ghost fits_behind = { λ _ _. Unit {0} };

    fn read_next(
        alloc: Global,
        cursor: &mut Cursor,
        context: &Tree,
        earlier: &[LogTable],
    ) -> Result<LogTable, FieldError> {
        read_table(alloc, cursor, context, earlier)
    }
}

/// The tables behind their number.
#[tactic(auto, unfolding(crate::specs::Counted::counted_at))]
fn read_tables(
    alloc: Global,
    cursor: &mut Cursor,
    tables: &Tree,
) -> Result<Vec<LogTable>, FieldError>
    ensures { Reads (λ ts. ts.items) result cursor.new
        (counted_at w16 are_tables (table_at tables.now) cursor.old) }
{
    let at = cursor.at();
    let count = cursor.u16()?;
    if count == 0 {
        return Err(FieldError::Malformed { at });
    }
    read_each(alloc, cursor, tables, u32::from(count))
}

/// A change of rows, behind its tag.
#[tactic(auto, unfolding(crate::specs::Payload::change_at))]
fn read_change(alloc: Global, cursor: &mut Cursor, tables: &Tree) -> Result<LogCommit, FieldError>
    ensures { Reads (λ c. c) result cursor.new (change_at tables.now cursor.old) }
{
    let tables = read_tables(alloc, cursor, tables)?;
    Ok(LogCommit::Change {
        tables: List::from_vec(tables),
    })
}

/// Whether a table has that name.
fn is_named(tables: &[TableEntry], name: &[u8]) -> bool
    ensures { result ≡ is_named tables.now name.now }
{
    tables.iter().any(|entry| entry.name.as_slice() == name)
}

/// Whether a table of that name may be created.
fn may_create(tables: &Tree, name: &[u8]) -> bool
    ensures { result ≡ may_create tables.now name.now }
{
    tables.len() < MAX_TABLES && !is_named(tables.as_slice(), name)
}

/// The creation of a table, behind its tag.
#[tactic(auto, unfolding(crate::specs::Payload::creation_at))]
fn read_creation(alloc: Global, cursor: &mut Cursor, tables: &Tree) -> Result<LogCommit, FieldError>
    ensures { Reads (λ c. c) result cursor.new (creation_at tables.now cursor.old) }
{
    let at = cursor.at();
    let name = read_name(alloc, cursor)?;
    if !may_create(tables, name.as_slice()) {
        return Err(FieldError::Malformed { at });
    }
    let schema = read_columns(alloc, cursor)?;
    Ok(LogCommit::Create { name, schema })
}

/// A commit.
#[tactic(auto, unfolding(crate::specs::Payload::commit_at))]
fn read_commit(alloc: Global, cursor: &mut Cursor, tables: &Tree) -> Result<LogCommit, FieldError>
    ensures { Reads (λ c. c) result cursor.new (commit_at tables.now cursor.old) }
{
    let at = cursor.at();
    match cursor.u8()? {
        CREATE_TAG => read_creation(alloc, cursor, tables),
        CHANGE_TAG => read_change(alloc, cursor, tables),
        _ => Err(FieldError::Malformed { at }),
    }
}

/// A commit that uses all bytes up.
fn read_whole(alloc: Global, tables: &Tree, bytes: &[u8]) -> Result<LogCommit, FieldError>
    ensures { Gives (λ c. c) result (payload_read tables.now bytes.now) }
{
    let mut cursor = Cursor::new(bytes);
    let commit = read_commit(alloc, &mut cursor, tables)?;
    cursor.finish()?;
    Ok(commit)
}

/// Reads the payload of a record, with the tables that are there. Whether the rows and groups that it names are there
/// too is not looked at.
pub fn read_payload(alloc: Global, tables: &Tree, bytes: &[u8]) -> Result<LogCommit, FieldError>
    ensures found { IfOk result (λ commit. IsPayload tables.now bytes.now commit) }
    ensures only { (commit : LogCommit) → IsPayload tables.now bytes.now commit
        → Gives (λ c. c) result (Ok commit) }
    ensures place { Gives (λ c. c) result (payload_read tables.now bytes.now) }
{
    // These are bytes, and so each number has one spelling.
    let _left = Cursor::new(bytes).left();
    read_whole(alloc, tables, bytes)
}
