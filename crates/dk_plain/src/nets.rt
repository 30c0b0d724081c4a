//! How a statement's changes of the view join those that its transaction made before.
ghost use Rattle.std.specs.Prelude.{◌≡◌, ℕ, ◌++◌, ◌∷◌, [], map, nat_lt, not, ◌==◌, IfOk};
ghost use Rattle.std.specs.List.{filter, list_any};
ghost use Rattle.dk_si.specs.Nets.{put_by, put_all, with_waiting, has_id, own_places, own_updates, merged_rows};
ghost use Rattle.dk_si.specs.Nets.{merged_deletes, merged_updates};
ghost use Rattle.dk_si.specs.Nets.{merged_part, part_of, without, with_part, merged_net, row_count, part_has};
ghost use Rattle.dk_si.specs.Nets.{net_has};

use crate::database::{add_rows, clear_rows, present, put_rows};
use crate::runs::{Keyed, put_all};
use dk_si::database::Table;
use dk_types::{List, Net, OutOfMemory, Row, Rows, TableNet, TryCopy, Updates};
use std::alloc::Global;

/// What stands at a row's place, and may be moved by so many places to the front.
pub trait Placed: Keyed {
    ghost moved: { ℕ → Self → Self };

    fn moved(&self, by: u64) -> Result<Self, OutOfMemory>
        ensures { IfOk result (λ item. item ≡ moved by self.now) };
}

impl Placed for u64 {
    ghost use Rattle.std.specs.Prelude.{◌-◌};

    ghost moved = { λ by id. id - by };

    fn moved(&self, by: u64) -> Result<u64, OutOfMemory> {
        Ok(self.saturating_sub(by))
    }
}

impl Placed for (u64, Row) {
    ghost use Rattle.std.specs.Prelude.{◌-◌};

    ghost moved = { λ by update. (update.0 - by, update.1) };

    fn moved(&self, by: u64) -> Result<(u64, Row), OutOfMemory> {
        Ok((self.0.saturating_sub(by), self.1.copy()?))
    }
}

/// Puts the waiting item before another one, in its place, or lets it wait for the next.
fn pass<T: Keyed>(done: &mut Vec<T>, waiting: Option<T>, other: T) -> Result<Option<T>, OutOfMemory>
    ensures { IfOk result (λ left. (rest : List T) → done.new.items ++ with_waiting T.key left rest
        ≡ done.old.items ++ with_waiting T.key waiting (other ∷ rest)) }
{
    let Some(item) = waiting else {
        done.push(other)?;
        return Ok(None);
    };
    if item.key() < other.key() {
        done.push(item)?;
        done.push(other)?;
        return Ok(None);
    }
    if item.key() == other.key() {
        done.push(item)?;
        return Ok(None);
    }
    done.push(other)?;
    Ok(Some(item))
}

/// Puts an item into an ascending list. It takes the place of one with its key.
#[tactic(auto, using(crate::proofs::PutLemmas::put_end))]
fn put<T: Keyed>(alloc: Global, items: Vec<T>, item: T) -> Result<Vec<T>, OutOfMemory>
    ensures { IfOk result (λ all. all.items ≡ put_by T.key item items.items) }
{
    let mut done = Vec::new(alloc);
    let mut waiting = Some(item);
    for other in items {
        waiting = pass(&mut done, waiting, other)?;
    }
    let all = finish(done, waiting)?;
    Ok(all)
}

/// The item that still waits stands last.
fn finish<T: Keyed>(done: Vec<T>, waiting: Option<T>) -> Result<Vec<T>, OutOfMemory>
    ensures { IfOk result (λ all. all.items ≡ done.items ++ with_waiting T.key waiting []) }
{
    let mut all = done;
    let Some(item) = waiting else {
        return Ok(all);
    };
    all.push(item)?;
    Ok(all)
}

/// Whether an id stands among these.
pub fn has_id(ids: &[u64], id: u64) -> bool
    ensures { result ≡ has_id ids.now id }
{
    ids.iter().any(|other| *other == id)
}

/// The items of committed rows, of which there are so many.
pub fn committed<T: Keyed + TryCopy>(
    alloc: Global,
    count: u64,
    items: &[T],
) -> Result<Vec<T>, OutOfMemory>
    ensures { IfOk result (λ kept. kept.items ≡ filter (λ item. nat_lt (T.key item) count)
        items.now) }
{
    let mut kept = Vec::new(alloc);
    for item in items {
        if item.key() < count {
            kept.push(item.copy()?)?;
        }
    }
    Ok(kept)
}

/// The items of a transaction's own rows, which stand behind so many committed ones, at their places among these.
fn own<T: Placed>(alloc: Global, count: u64, items: &[T]) -> Result<Vec<T>, OutOfMemory>
    ensures { IfOk result (λ kept. kept.items ≡ map (T.moved count) (filter (λ item. not (nat_lt
        (T.key item) count)) items.now)) }
{
    let mut kept = Vec::new(alloc);
    for item in items {
        if item.key() >= count {
            kept.push(item.moved(count)?)?;
        }
    }
    Ok(kept)
}

fn own_places(alloc: Global, count: u64, ids: &[u64]) -> Result<Vec<u64>, OutOfMemory>
    ensures { IfOk result (λ kept. kept.items ≡ own_places count ids.now) }
{
    own(alloc, count, ids)
}

fn own_updates(
    alloc: Global,
    count: u64,
    updates: &[(u64, Row)],
) -> Result<Vec<(u64, Row)>, OutOfMemory>
    ensures { IfOk result (λ kept. kept.items ≡ own_updates count updates.now) }
{
    own(alloc, count, updates)
}

/// The updates of rows that are not deleted.
fn unless_deleted(
    alloc: Global,
    updates: Vec<(u64, Row)>,
    deletes: &[u64],
) -> Result<Updates, OutOfMemory>
    ensures { IfOk result (λ kept. kept ≡ filter (λ update. not (has_id deletes.now update.0))
        updates.items) }
{
    let mut kept = List::new(alloc);
    for update in updates {
        if !has_id(deletes, update.0) {
            kept.push(update)?;
        }
    }
    Ok(kept)
}

/// What joins: a net's part of a table of so many committed rows, and a statement's change of it.
#[derive(Clone, Copy)]
struct Merge<'a> {
    count: u64,
    part: &'a TableNet,
    change: &'a TableNet,
}

/// The transaction's own rows after a statement.
fn merged_rows(alloc: Global, merge: Merge<'_>) -> Result<Rows, OutOfMemory>
    ensures { IfOk result (λ rows. rows ≡ merged_rows merge.entry.count merge.entry.part.now
        merge.entry.change.now) }
{
    let Merge {
        count,
        part,
        change,
    } = merge;
    let mut places = Vec::new(alloc);
    add_rows(&mut places, part.rows.to_list(alloc)?.as_slice())?;
    let updates = own_updates(alloc, count, change.updates.as_slice())?;
    put_rows(&mut places, updates.as_slice())?;
    let deletes = own_places(alloc, count, change.deletes.as_slice())?;
    clear_rows(&mut places, deletes.as_slice());
    let kept = present(alloc, places.as_slice())?;
    let mut rows = Rows::from_list(alloc, &kept)?;
    rows.append_copies(&change.rows)?;
    Ok(rows)
}

fn merged_updates(alloc: Global, merge: Merge<'_>) -> Result<Updates, OutOfMemory>
    ensures { IfOk result (λ updates. updates ≡ merged_updates merge.entry.count merge.entry.part.now
        merge.entry.change.now) }
{
    let change = merge.change;
    let newer = committed(alloc, merge.count, change.updates.as_slice())?;
    let updates = put_all(alloc, merge.part.updates.as_slice(), newer.as_slice())?;
    let kept = unless_deleted(alloc, updates, change.deletes.as_slice())?;
    Ok(kept)
}

fn merged_deletes(alloc: Global, merge: Merge<'_>) -> Result<List<u64>, OutOfMemory>
    ensures { IfOk result (λ deletes. deletes ≡ merged_deletes merge.entry.count merge.entry.part.now
        merge.entry.change.now) }
{
    let newer = committed(alloc, merge.count, merge.change.deletes.as_slice())?;
    let deletes = put_all(alloc, merge.part.deletes.as_slice(), newer.as_slice())?;
    Ok(List::from_vec(deletes))
}

fn merged_part(alloc: Global, merge: Merge<'_>) -> Result<TableNet, OutOfMemory>
    ensures { IfOk result (λ part. part ≡ merged_part merge.entry.count merge.entry.part.now
        merge.entry.change.now) }
{
    Ok(TableNet {
        table: merge.change.table,
        updates: merged_updates(alloc, merge)?,
        deletes: merged_deletes(alloc, merge)?,
        rows: merged_rows(alloc, merge)?,
    })
}

/// What a net has of a table.
fn part_of(alloc: Global, net: &[TableNet], table: u32) -> Result<TableNet, OutOfMemory>
    ensures { IfOk result (λ part. part ≡ part_of net.now table) }
{
    for part in net {
        if part.table == table {
            return part.copy();
        }
    }
    Ok(TableNet {
        table,
        updates: List::new(alloc),
        deletes: List::new(alloc),
        rows: Rows::new(alloc),
    })
}

fn without(alloc: Global, net: &[TableNet], table: u32) -> Result<Vec<TableNet>, OutOfMemory>
    ensures { IfOk result (λ kept. kept.items ≡ without net.now table) }
{
    let mut kept = Vec::new(alloc);
    for part in net {
        if part.table != table {
            kept.push(part.copy()?)?;
        }
    }
    Ok(kept)
}

/// A net without a part for its table, and with this one, if it changes something.
fn with_part(
    alloc: Global,
    part: TableNet,
    net: Vec<TableNet>,
) -> Result<Vec<TableNet>, OutOfMemory>
    ensures { IfOk result (λ parts. parts.items ≡ with_part part net.items) }
{
    if part.changes() {
        return put(alloc, net, part);
    }
    Ok(net)
}

fn further_parts(
    alloc: Global,
    count: u64,
    net: &[TableNet],
    change: &TableNet,
) -> Result<Vec<TableNet>, OutOfMemory>
    ensures { IfOk result (λ parts. parts.items ≡ merged_net count net.now change.now) }
{
    let earlier = part_of(alloc, net, change.table)?;
    let merge = Merge {
        count,
        part: &earlier,
        change,
    };
    let part = merged_part(alloc, merge)?;
    let others = without(alloc, net, change.table)?;
    let parts = with_part(alloc, part, others)?;
    Ok(parts)
}

/// The transaction's changes after a statement that changes the view so, where the table has so many committed rows.
pub fn merged_net(
    alloc: Global,
    count: u64,
    net: &Net,
    change: &TableNet,
) -> Result<Net, OutOfMemory>
    ensures { IfOk result (λ after. after ≡ merged_net count net.now change.now) }
{
    let parts = further_parts(alloc, count, net.as_slice(), change)?;
    Ok(Net::from_vec(parts))
}

/// How many rows a table has by now.
pub fn row_count(tables: &[Table], place: u32) -> u64
    ensures { result ≡ row_count tables.now place }
{
    match tables.get(place as usize) {
        None => 0,
        Some(table) => table.rows.len() as u64,
    }
}

fn has_update(updates: &[(u64, Row)], row: u64) -> bool
    ensures { result ≡ list_any (λ update. update.0 == row) updates.now }
{
    updates.iter().any(|update| update.0 == row)
}

fn part_has(part: &TableNet, row: u64) -> bool
    ensures { result ≡ part_has part.now row }
{
    has_update(part.updates.as_slice(), row) || has_id(part.deletes.as_slice(), row)
}

/// Whether a net changes a committed row.
pub fn net_has(net: &[TableNet], table: u32, row: u64) -> bool
    ensures { result ≡ net_has net.now table row }
{
    net.iter()
        .any(|part| part.table == table && part_has(part, row))
}
