//! The rows of a query.
ghost use Rattle.std.specs.Prelude.{◌≡◌, IfOk, map, length, take};
ghost use Rattle.dk_query.specs.Kept.{Gives};
ghost use Rattle.dk_query.specs.Selected.{selected, lines_of, limited, within_limit};

use crate::direct::{direct_rows, is_direct};
use crate::fault::QueryError;
use crate::groups::group_lines;
use crate::lines::{Line, kept_lines};
use crate::order::{order_keys, sort_lines};
use dk_rows::Rows;
use dk_types::BoundQuery;
use dk_values::{OutOfMemory, Row};
use std::alloc::Global;

/// How many of so many rows a limit lets through.
fn within_limit(limit: Option<u64>, count: usize) -> usize
    ensures { result ≡ within_limit limit count }
{
    match limit {
        Some(most) if most < count as u64 => most as usize,
        _ => count,
    }
}

/// The values of the first lines, as the limit has it.
fn values_of(alloc: Global, lines: &[Line], limit: Option<u64>) -> Result<Rows, OutOfMemory>
    ensures { IfOk result (λ rows. rows ≡ limited limit (map (λ line. line.values) lines.now)) }
{
    let mut rows = Rows::new(alloc);
    let count = within_limit(limit, lines.len());
    'lines: for line in &lines[..count] {
        rows.push_slice(line.values.as_slice())?;
    }
    Ok(rows)
}

/// The lines that are ordered: those of the rows, or one for each group.
fn lines_of(alloc: Global, query: &BoundQuery, lines: Vec<Line>) -> Result<Vec<Line>, OutOfMemory>
    ensures { IfOk result (λ found. found.items ≡ lines_of query.now lines.items) }
{
    if query.grouped {
        group_lines(
            alloc,
            query.groups.as_slice(),
            query.items.as_slice(),
            lines,
        )
    } else {
        Ok(lines)
    }
}

/// The rows of a query that are made of lines.
fn ordered_rows(alloc: Global, query: &BoundQuery, rows: &[Option<Row>]) -> Result<Rows, QueryError>
    ensures { Gives (λ found. found) result (selected query.now rows.now) }
{
    let lines = kept_lines(alloc, query, rows)?.into_vec();
    let mut lines = lines_of(alloc, query, lines)?;
    let keys = order_keys(alloc, query.keys.as_slice())?;
    sort_lines(&mut lines, keys.as_slice())?;
    Ok(values_of(alloc, lines.as_slice(), query.limit)?)
}

/// The rows that a query gives on the rows of its table, whose ids are their places.
#[tactic(auto, using(crate::proofs::DirectLemmas::direct_is))]
pub fn select(alloc: Global, query: &BoundQuery, rows: &[Option<Row>]) -> Result<Rows, QueryError>
    ensures { Gives (λ found. found) result (selected query.now rows.now) }
{
    if is_direct(query) {
        direct_rows(alloc, query, rows)
    } else {
        ordered_rows(alloc, query, rows)
    }
}
