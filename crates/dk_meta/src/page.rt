//! The page of a row group.
ghost use Rattle.std.specs.Prelude.{◌≡◌, ◌==◌, ◌&&◌, ◌+◌, ◌<◌, ◌≤◌, ◌^◌, ◌++◌, [], Ok, IsOk, IfOk, OnOk, length};
ghost use Rattle.std.specs.List.{flat_map, AllByRecursion};
ghost use Rattle.std.specs.Int.{w16, w32};
ghost use Rattle.dk_pages.specs.declared.page.GroupPage.{GroupPage};
ghost use Rattle.dk_bytes.specs.Reading.{Gives, Reads, list_at, start, whole};
ghost use Rattle.dk_meta.specs.Strings.{IsString, always, checked_at};
ghost use Rattle.dk_meta.specs.Segments.{HasCount, vectors_at, vectors_bytes};
ghost use Rattle.dk_meta.specs.Page.{IsPage, is_between, is_row_count, is_width, offset_at, offset_bytes, offsets_at, offsets_bytes, page_at, page_bytes};

use crate::limits::GROUP_ROWS;
use crate::room::with_room;
use crate::segments::{put_vectors, read_vectors, vectors_room};
use dk_bytes::{Cursor, FieldError, put_u16, put_u32};
use dk_pages::{ColumnRefs, GroupPage, VectorRefs};
use dk_values::{List, Offsets, OutOfMemory};
use std::alloc::Global;

/// How many bytes the number of a deleted row takes.
const OFFSET_BYTES: usize = 4;

/// How many bytes the least column takes: one vector of one segment.
const LEAST_COLUMN_BYTES: usize = 20;

/// How many bytes stand before the deleted rows: the numbers of rows, of columns and of deleted rows.
const NUMBERS_BYTES: usize = 10;

/// The number of rows: at least one, and at most 122,880.
fn read_row_count(cursor: &mut Cursor) -> Result<u32, FieldError>
    ensures reads { Reads (λ n. n) result cursor.new (checked_at w32 is_row_count cursor.old) }
    ensures few { IfOk result (λ n. n ≤ GROUP_ROWS) }
{
    let at = cursor.at();
    let rows = cursor.u32()?;
    if rows == 0 || rows > GROUP_ROWS {
        return Err(FieldError::Malformed { at });
    }
    Ok(rows)
}

/// The number of columns, which is that of the table.
fn read_width(cursor: &mut Cursor, columns: u16) -> Result<u16, FieldError>
    ensures { Reads (λ n. n) result cursor.new (checked_at w16 (is_width columns) cursor.old) }
{
    let at = cursor.at();
    let width = cursor.u16()?;
    if width != columns {
        return Err(FieldError::Malformed { at });
    }
    Ok(width)
}

/// An offset from the least one on, below the number of rows.
fn read_offset(cursor: &mut Cursor, least: u32, rows: u32) -> Result<u32, FieldError>
    ensures reads { Reads (λ n. n) result cursor.new (checked_at w32 (is_between least rows) cursor.old) }
    ensures below { IfOk result (λ n. n < rows) }
{
    let at = cursor.at();
    let offset = cursor.u32()?;
    if offset < least || offset >= rows {
        return Err(FieldError::Malformed { at });
    }
    Ok(offset)
}

/// So many offsets, ascending.
fn read_each_offset(
    alloc: Global,
    cursor: &mut Cursor,
    rows: u32,
    count: u32,
) -> Result<Vec<u32>, FieldError>
    ensures { Reads (λ offsets. offsets.items) result cursor.new
        (list_at (offset_at rows) count [] cursor.old) }
{
    let mut offsets = with_room(alloc, count as u64, cursor.left(), OFFSET_BYTES)?;
    let mut least = 0;
    'offsets: for _ in 0..count {
        let offset = read_offset(cursor, least, rows)?;
        offsets.push(offset)?;
        least = offset + 1;
    }
    Ok(offsets)
}

/// The deleted rows of a group of so many rows.
#[tactic(auto, unfolding(crate::specs::Page::offsets_at))]
fn read_offsets(alloc: Global, cursor: &mut Cursor, rows: u32) -> Result<Offsets, FieldError>
    ensures { Reads (λ offsets. offsets) result cursor.new (offsets_at rows cursor.old) }
{
    let count = cursor.u32()?;
    let offsets = read_each_offset(alloc, cursor, rows, count)?;
    Ok(List::from_vec(offsets))
}

/// The vectors of so many columns.
fn read_each_column(
    alloc: Global,
    cursor: &mut Cursor,
    rows: u32,
    count: u16,
) -> Result<Vec<VectorRefs>, FieldError>
    requires { rows ≤ GROUP_ROWS }
    ensures { Reads (λ columns. columns.items) result cursor.new
        (list_at (always (vectors_at rows)) count [] cursor.old) }
{
    let mut columns = with_room(alloc, count as u64, cursor.left(), LEAST_COLUMN_BYTES)?;
    'columns: for _ in 0..count {
        let vectors = read_vectors(alloc, cursor, rows)?;
        columns.push(vectors)?;
    }
    Ok(columns)
}

/// The page that stands next, of a group of a table with so many columns.
#[tactic(auto, unfolding(crate::specs::Page::page_at))]
fn next_page(alloc: Global, cursor: &mut Cursor, columns: u16) -> Result<GroupPage, FieldError>
    ensures { Reads (λ page. page) result cursor.new (page_at columns cursor.old) }
{
    let rows = read_row_count(cursor)?;
    let _width = read_width(cursor, columns)?;
    let deleted = read_offsets(alloc, cursor, rows)?;
    let columns = read_each_column(alloc, cursor, rows, columns)?;
    Ok(GroupPage {
        rows,
        deleted,
        columns: List::from_vec(columns),
    })
}

fn whole_page(alloc: Global, bytes: &[u8], columns: u16) -> Result<GroupPage, FieldError>
    ensures { Gives (λ page. page) result (whole (page_at columns (start bytes.now))) }
{
    let mut cursor = Cursor::new(bytes);
    let page = next_page(alloc, &mut cursor, columns)?;
    cursor.finish()?;
    Ok(page)
}

/// The page that a byte string stands for, of a group of a table with so many columns.
pub fn read_page(alloc: Global, bytes: &[u8], columns: u16) -> Result<GroupPage, FieldError>
    ensures found { IfOk result (λ page. IsString (IsPage columns) page_bytes page bytes.now) }
    ensures only { (page : GroupPage) → IsString (IsPage columns) page_bytes page bytes.now
        → Gives (λ p. p) result (Ok page) }
    ensures place { Gives (λ page. page) result (whole (page_at columns (start bytes.now))) }
{
    whole_page(alloc, bytes, columns)
}

/// Appends offsets.
fn put_each_offset(out: &mut Vec<u8>, offsets: &[u32]) -> Result<(), OutOfMemory>
    ensures { OnOk result (out.new.items ≡ out.old.items ++ flat_map offset_bytes offsets.now) }
{
    let mut left = offsets;
    'offsets: while let [offset, rest @ ..] = left {
        put_u32(out, *offset)?;
        left = rest;
    }
    Ok(())
}

/// Appends the number of offsets and the offsets.
fn put_offsets(out: &mut Vec<u8>, offsets: &[u32]) -> Result<(), OutOfMemory>
    requires { length offsets.now < 2 ^ 32 }
    ensures { OnOk result (out.new.items ≡ out.old.items ++ offsets_bytes offsets.now) }
{
    put_u32(out, offsets.len() as u32)?;
    put_each_offset(out, offsets)
}

/// Appends the vectors of columns.
fn put_columns(out: &mut Vec<u8>, columns: &[VectorRefs]) -> Result<(), OutOfMemory>
    requires { AllByRecursion (AllByRecursion HasCount) columns.now }
    ensures { OnOk result (out.new.items ≡ out.old.items ++ flat_map vectors_bytes columns.now) }
{
    let mut left = columns;
    'columns: while let [vectors, rest @ ..] = left {
        put_vectors(out, vectors.as_slice())?;
        left = rest;
    }
    Ok(())
}

/// Appends a page.
fn put_page(out: &mut Vec<u8>, page: &GroupPage) -> Result<(), OutOfMemory>
    requires width { length page.now.columns < 2 ^ 16 }
    requires deleted { length page.now.deleted < 2 ^ 32 }
    requires counts { AllByRecursion (AllByRecursion HasCount) page.now.columns }
    ensures { OnOk result (out.new.items ≡ out.old.items ++ page_bytes page.now) }
{
    put_u32(out, page.rows)?;
    put_u16(out, page.columns.len() as u16)?;
    put_offsets(out, page.deleted.as_slice())?;
    put_columns(out, page.columns.as_slice())
}

/// How many bytes a page takes, for which room is taken.
fn page_room(page: &GroupPage) -> usize {
    let mut room = page
        .deleted
        .len()
        .saturating_mul(OFFSET_BYTES)
        .saturating_add(NUMBERS_BYTES);
    for vectors in page.columns.as_slice() {
        room = room.saturating_add(vectors_room(vectors.as_slice()));
    }
    room
}

/// The bytes of a page. Room is taken once.
pub fn write_page(alloc: Global, page: &GroupPage) -> Result<Vec<u8>, OutOfMemory>
    requires { IsPage (length page.now.columns) page.now }
    ensures { IfOk result (λ v. IsString (IsPage (length page.now.columns)) page_bytes page.now v.items) }
{
    let mut out = Vec::with_capacity(alloc, page_room(page))?;
    put_page(&mut out, page)?;
    Ok(out)
}
