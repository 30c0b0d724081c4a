//! Where rows stand: how many rows the groups of each table have.
ghost use Rattle.std.specs.Prelude.{◌≡◌, ◌+◌, ◌^◌, ◌<◌, map, slice_set, IfOk, OnOk};
ghost use Rattle.std.proofs.Math.ListN.{replicate};
ghost use Rattle.dk_si.specs.declared.limits.TheConstants.{GROUP_ROWS};
ghost use Rattle.dk_core.specs.Layout.{cut, layout_of, groups_of, rows_in, with_rows};

use dk_si::database::Table;
use dk_si::limits::GROUP_ROWS;
use dk_types::{List, OutOfMemory};
use std::alloc::Global;

/// How many rows each group of a table has.
pub type Groups = List<u64>;

/// So many full groups.
fn full_groups(alloc: Global, count: u64) -> Result<Groups, OutOfMemory>
    ensures { IfOk result (λ groups. groups ≡ replicate count GROUP_ROWS) }
{
    let mut groups = List::new(alloc);
    'groups: for _group in 0..count {
        groups.push(GROUP_ROWS as u64)?;
    }
    Ok(groups)
}

/// The groups of a table that is opened with so many rows.
fn cut(alloc: Global, rows: u64) -> Result<Groups, OutOfMemory>
    ensures { IfOk result (λ groups. groups ≡ cut rows) }
{
    let full = GROUP_ROWS as u64;
    let mut groups = full_groups(alloc, rows / full)?;
    if rows % full != 0 {
        groups.push(rows % full)?;
    }
    Ok(groups)
}

/// The groups of tables that are opened.
pub fn layout_of(alloc: Global, tables: &[Table]) -> Result<Vec<Groups>, OutOfMemory>
    ensures { IfOk result (λ layout. layout.items ≡ layout_of tables.now) }
{
    let mut layout = Vec::new(alloc);
    for table in tables {
        layout.push(cut(alloc, table.rows.len() as u64)?)?;
    }
    Ok(layout)
}

/// How many rows the groups of a table have.
pub fn groups_of(layout: &[Groups], table: u32) -> &[u64]
    ensures { result.now ≡ groups_of layout.now table }
{
    match layout.get(table as usize) {
        None => &[],
        Some(groups) => groups.as_slice(),
    }
}

/// How many rows a group has; a new one has none.
pub fn rows_in(groups: &[u64], group: u64) -> u64
    ensures { result ≡ rows_in groups.now group }
{
    match groups.get(group as usize) {
        None => 0,
        Some(rows) => *rows,
    }
}

/// So many more rows stand in that group, or in a new one behind the others.
#[tactic(auto, using(crate::proofs::SeatLemmas::rows_there, crate::proofs::SeatLemmas::rows_behind))]
fn add_rows(groups: &mut Vec<u64>, group: u64, more: u64) -> Result<(), OutOfMemory>
    requires { rows_in groups.old.items group + more < 2 ^ 64 }
    ensures { OnOk result (groups.new.items ≡ with_rows group more groups.old.items) }
{
    let place = group as usize;
    if place < groups.len() {
        let rows = rows_in(groups.as_slice(), group);
        groups[place] = rows + more;
        return Ok(());
    }
    groups.push(more)?;
    Ok(())
}

/// The groups of a table with so many more rows in that group, or in a new one behind the others.
pub fn groups_behind(
    alloc: Global,
    layout: &[Groups],
    table: u32,
    group: u64,
    more: u64,
) -> Result<Groups, OutOfMemory>
    requires { rows_in (groups_of layout.now table) group + more < 2 ^ 64 }
    ensures { IfOk result (λ groups. groups ≡ with_rows group more (groups_of layout.now table)) }
{
    let mut groups = Vec::new(alloc);
    groups.extend_from_slice(groups_of(layout, table))?;
    add_rows(&mut groups, group, more)?;
    Ok(List::from_vec(groups))
}

/// Puts the groups of a table, if there is such a table.
pub fn put_groups(layout: &mut Vec<Groups>, table: u32, groups: Groups)
    ensures { layout.new.items ≡ slice_set layout.old.items table groups }
{
    let table = table as usize;
    if table < layout.len() {
        layout[table] = groups;
    }
}
