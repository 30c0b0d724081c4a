//! What a session reads: the rows of a table that it sees, and those of one vector.
ghost use Rattle.std.specs.Prelude.{◌≡◌, sum, take, map, slice_get, IfOk, OnOk};
ghost use Rattle.std.specs.Option.{option_copied};
ghost use Rattle.dk_fault.specs.Counts.{capped};
ghost use Rattle.dk_si.specs.Database.{view, apply_net, rows_after};
ghost use Rattle.dk_si.specs.Machine.{committed_count};
ghost use Rattle.dk_core.specs.Reading.{rows_of_table};
ghost use Rattle.dk_slow_state.specs.Pages.{first_id, vector_first, vector_end, page_of, rows_behind, heading};

use dk_core::NewTable;
use dk_core::layout::VECTOR_ROWS;
use dk_fault::capped_sum;
use dk_plain::Inside;
use dk_plain::database::{add_rows, clear_rows, put_rows, view};
use dk_plain::slices::{first, rest};
use dk_si::database::Table;
use dk_slow_seats::layout::rows_in;
use dk_states::call::committed_count;
use dk_types::{List, OutOfMemory, Row, TableNet, TryCopy, VectorId};
use std::alloc::Global;

/// A vector's rows by their ids, from the id `first` on. A row that isn't there keeps its place.
#[derive(Debug, Drop)]
pub struct Page {
    pub first: u64,
    pub rows: List<Option<Row>>,
}

/// Makes the changes of a version of their rows.
fn change_rows(
    alloc: Global,
    part: &TableNet,
    rows: &mut Vec<Option<Row>>,
) -> Result<(), OutOfMemory>
    ensures { OnOk result (rows.new.items ≡ rows_after part.now rows.old.items) }
{
    put_rows(rows, part.updates.as_slice())?;
    clear_rows(rows, part.deletes.as_slice());
    add_rows(rows, part.rows.to_list(alloc)?.as_slice())
}

/// Makes the changes of those versions that are of this table.
fn change_table(
    alloc: Global,
    parts: &[TableNet],
    table: u32,
    rows: &mut Vec<Option<Row>>,
) -> Result<(), OutOfMemory>
    ensures { OnOk result (rows.new.items ≡ rows_behind parts.now table rows.old.items) }
{
    for part in parts {
        if part.table == table {
            change_rows(alloc, part, rows)?;
        }
    }
    Ok(())
}

fn table_at(tables: &[Table], table: u32) -> Option<&Table>
    ensures { option_copied result ≡ slice_get tables.now table }
{
    tables.get(table as usize)
}

/// The first rows of a table behind these versions, so many.
fn front_behind(
    alloc: Global,
    found: &Table,
    made: &[TableNet],
    table: u32,
    count: u64,
) -> Result<Vec<Option<Row>>, OutOfMemory>
    ensures { IfOk result (λ rows. rows.items ≡ take count (rows_behind made.now table found.now.rows)) }
{
    let mut rows = found.rows.copy()?.into_vec();
    change_table(alloc, made, table, &mut rows)?;
    rows.truncate(count as usize);
    Ok(rows)
}

/// The rows of a table behind what a session has changed and these versions, without those that it appends itself.
#[tactic(auto, using(crate::proofs::ReadingLemmas::none_seen, crate::proofs::ReadingLemmas::some_seen))]
pub fn rows_seen(
    alloc: Global,
    inside: &Inside<'_>,
    made: &[TableNet],
    table: u32,
) -> Result<Vec<Option<Row>>, OutOfMemory>
    ensures { IfOk result (λ rows. rows.items ≡ take
        (committed_count inside.now.log.opened.now inside.now.log.commits.now inside.now.active.now table)
        (rows_of_table (apply_net made.now (view inside.now.log.opened.now inside.now.log.commits.now
        inside.now.active.now.start inside.now.active.now.net)) table)) }
{
    let count = committed_count(alloc, inside, table)?;
    let tables = view(alloc, inside)?;
    let Some(found) = table_at(tables.as_slice(), table) else {
        return Ok(Vec::new(alloc));
    };
    front_behind(alloc, found, made, table, count)
}

/// The tables that a transaction sees, without their rows.
pub fn tables_seen(alloc: Global, inside: &Inside<'_>) -> Result<Vec<NewTable>, OutOfMemory>
    ensures { IfOk result (λ tables. tables.items ≡ map heading (view inside.now.log.opened.now
        inside.now.log.commits.now inside.now.active.now.start inside.now.active.now.net)) }
{
    let tables = view(alloc, inside)?;
    headings(alloc, tables.as_slice())
}

fn headings(alloc: Global, tables: &[Table]) -> Result<Vec<NewTable>, OutOfMemory>
    ensures { IfOk result (λ headings. headings.items ≡ map heading tables.now) }
{
    let mut headings = Vec::new(alloc);
    for table in tables {
        headings.push(NewTable {
            name: table.name.copy()?,
            schema: table.schema.copy()?,
        })?;
    }
    Ok(headings)
}

fn total(numbers: &[u64]) -> u64
    ensures { result ≡ capped (sum (map (λ n. n) numbers.now)) }
{
    capped_sum(numbers, |n| *n)
}

/// The id of a group's first row.
#[tactic(auto, using(crate::proofs::ReadingLemmas::first_is))]
fn first_id(groups: &[u64], group: u64) -> u64
    ensures { result ≡ first_id groups.now group }
{
    total(first(groups, group))
}

/// The id of a vector's first row.
pub fn vector_first(groups: &[u64], at: VectorId) -> u64
    ensures { result ≡ vector_first groups.now at }
{
    first_id(groups, at.group).saturating_add(at.vector as u64 * VECTOR_ROWS)
}

/// The id behind a vector's last row.
pub fn vector_end(groups: &[u64], at: VectorId) -> u64
    ensures { result ≡ vector_end groups.now at }
{
    let full = vector_first(groups, at).saturating_add(VECTOR_ROWS);
    let all = first_id(groups, at.group).saturating_add(rows_in(groups, at.group));
    full.min(all)
}

fn copy_of_rows(alloc: Global, rows: &[Option<Row>]) -> Result<List<Option<Row>>, OutOfMemory>
    ensures { IfOk result (λ copy. copy ≡ rows.now) }
{
    let mut copy = List::new(alloc);
    for row in rows {
        copy.push(row.copy()?)?;
    }
    Ok(copy)
}

/// The rows of a vector, of those that a session reads of its table.
pub fn page_of(
    alloc: Global,
    groups: &[u64],
    at: VectorId,
    rows: &[Option<Row>],
) -> Result<Page, OutOfMemory>
    ensures { IfOk result (λ page. page ≡ page_of groups.now at rows.now) }
{
    let from = vector_first(groups, at);
    let count = vector_end(groups, at).saturating_sub(from);
    let rows = copy_of_rows(alloc, first(rest(rows, from), count))?;
    Ok(Page { first: from, rows })
}
