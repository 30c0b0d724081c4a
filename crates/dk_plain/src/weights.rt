//! How long the log's record of a net is.
ghost use Rattle.std.specs.Prelude.{◌≡◌, ◌+◌, length, map, sum, IfOk};
ghost use Rattle.dk_types.specs.declared.net.Commit.{Commit};
ghost use Rattle.dk_si.specs.Nets.{new_rows};
ghost use Rattle.dk_si.specs.Spent.{new_rows_of, committed_rows};
ghost use Rattle.dk_si.specs.Weight.{cap, cell_len, row_len, rows_len, updates_len, part_len, weight};

use crate::log::CommitLog;
use dk_fault::capped_sum;
use dk_si::database::Table;
use dk_si::limits::GROUP_ROWS;
use dk_types::{Commit, OutOfMemory, Row, TableNet, Value};
use std::alloc::Global;

fn cell_len(value: &Value) -> u64
    ensures { result ≡ cap (cell_len value.now) }
{
    match value {
        Value::Null => 1,
        Value::Bool(_) => 2,
        Value::Int(_) => 5,
        Value::Big(_) => 9,
        Value::Text(bytes) => (bytes.len() as u64).saturating_add(3),
        Value::Huge(_) => 17,
    }
}

#[tactic(auto, using(crate::proofs::CapLemmas::cap_sum, crate::proofs::CapLemmas::cap_size))]
fn row_len(row: &Row) -> u64
    ensures { result ≡ cap (row_len row.now) }
{
    capped_sum(row.as_slice(), |value| cell_len(value))
}

#[tactic(auto, using(crate::proofs::CapLemmas::cap_sum, crate::proofs::CapLemmas::cap_size))]
fn rows_len(rows: &[Row]) -> u64
    ensures { result ≡ cap (rows_len rows.now) }
{
    capped_sum(rows, |row| row_len(row))
}

/// An update takes its row's bytes, and eight for the row's id.
fn update_len(update: &(u64, Row)) -> u64
    ensures { result ≡ cap (8 + row_len update.now.1) }
{
    row_len(&update.1).saturating_add(8)
}

#[tactic(auto, using(crate::proofs::CapLemmas::cap_sum, crate::proofs::CapLemmas::cap_size))]
fn updates_len(updates: &[(u64, Row)]) -> u64
    ensures { result ≡ cap (updates_len updates.now) }
{
    capped_sum(updates, |update| update_len(update))
}

/// The bytes of the part of one table.
fn part_len(alloc: Global, part: &TableNet) -> Result<u64, OutOfMemory>
    ensures { IfOk result (λ len. len ≡ cap (part_len part.now)) }
{
    let all = part.rows.to_list(alloc)?;
    let groups = all.len() / GROUP_ROWS;
    let tail = &all.as_slice()[groups * GROUP_ROWS..];
    let roots = (groups as u64).saturating_mul(8);
    let deletes = (part.deletes.len() as u64).saturating_mul(8);
    let rows = rows_len(tail).saturating_add(roots);
    let changes = updates_len(part.updates.as_slice()).saturating_add(deletes);
    Ok(rows.saturating_add(changes).saturating_add(20))
}

#[tactic(auto, using(crate::proofs::CapLemmas::cap_least, crate::proofs::CapLemmas::cap_ends))]
fn parts_len(alloc: Global, parts: &[TableNet]) -> Result<u64, OutOfMemory>
    ensures { IfOk result (λ len. len ≡ cap (sum (map part_len parts.now))) }
{
    let mut total: u64 = 0;
    for part in parts {
        total = total.saturating_add(part_len(alloc, part)?);
    }
    Ok(total)
}

/// The length in bytes of the payload of the log's record of a net, in which each whole 122,880 of a table's new rows
/// counts as one group. The greatest number of 64 bits stands for all above.
pub fn weight(alloc: Global, net: &[TableNet]) -> Result<u64, OutOfMemory>
    ensures { IfOk result (λ bytes. bytes ≡ weight net.now) }
{
    Ok(parts_len(alloc, net)?.saturating_add(3))
}

/// How many new rows a net has over all tables; the greatest number of 64 bits stands for all above.
#[tactic(auto, using(crate::proofs::CapLemmas::cap_sum, crate::proofs::CapLemmas::cap_size))]
pub fn new_rows(net: &[TableNet]) -> u64
    ensures { result ≡ cap (new_rows net.now) }
{
    capped_sum(net, |part| part.rows.len() as u64)
}

fn new_rows_of(commit: &Commit) -> u64
    ensures { result ≡ cap (new_rows_of commit.now) }
{
    match commit {
        Commit::Create { .. } => 0,
        Commit::Change { net } => new_rows(net.as_slice()),
    }
}

#[tactic(auto, using(crate::proofs::CapLemmas::cap_sum, crate::proofs::CapLemmas::cap_size))]
fn further_rows(commits: &[Commit]) -> u64
    ensures { result ≡ cap (sum (map new_rows_of commits.now)) }
{
    capped_sum(commits, |commit| new_rows_of(commit))
}

#[tactic(auto, using(crate::proofs::CapLemmas::cap_sum, crate::proofs::CapLemmas::cap_size))]
fn opened_rows(tables: &[Table]) -> u64
    ensures { result ≡ cap (sum (map (λ table. length table.rows) tables.now)) }
{
    capped_sum(tables, |table| table.rows.len() as u64)
}

/// The rows of the opened tables, and the new ones of all commits; the greatest number of 64 bits stands for all above.
#[tactic(auto, using(crate::proofs::CapLemmas::cap_both))]
pub fn committed_rows(log: &CommitLog<'_>) -> u64
    ensures { result ≡ cap (committed_rows log.now.opened.now log.now.commits.now) }
{
    opened_rows(log.opened).saturating_add(further_rows(log.commits))
}
