//! What a call means in an open transaction, and what it changes.
ghost use Rattle.std.specs.Prelude.{◌≡◌, map, IfOk};
ghost use Rattle.dk_si.specs.declared.history.Asked.TheVariants as asked_variants;
ghost use Rattle.dk_si.specs.declared.machine.WriteSet.{WriteSet};
ghost use Rattle.dk_si.specs.Machine.{kind_in, asks_for, has_own, begins_one, meaning_in, committed_count};
ghost use Rattle.dk_si.specs.Machine.{changed_ids, write_set, write_set_in_flight, net_after, net_behind};
ghost use Rattle.dk_si.specs.Nets.{committed_ids};

use crate::meaning::meaning;
use dk_plain::database::{after, view};
use dk_plain::nets::{committed, merged_net, row_count};
use dk_plain::{CommitLog, Inside};
use dk_si::history::Asked;
use dk_si::kind::Kind;
use dk_si::machine::{Transaction, WriteSet};
use dk_si::meaning::Meaning;
use dk_types::{List, Net, OutOfMemory, Row, Statement, TableNet, TryCopy};
use std::alloc::Global;

/// The kind of the statement in flight, if there is one.
pub fn kind_in(asked: &Option<Asked>) -> Option<Kind>
    ensures { result ≡ kind_in asked.now }
{
    match asked {
        Some(Asked::Good(statement)) => Some(Kind::of(statement)),
        _ => None,
    }
}

/// Whether the call in flight begins a transaction for itself outside one.
pub fn asks_for_own(asked: &Option<Asked>) -> bool
    ensures { result ≡ asks_for has_own asked.now }
{
    match kind_in(asked) {
        None => false,
        Some(kind) => kind.has_own(),
    }
}

/// Whether a transaction begins with the call in flight outside one.
pub fn asks_to_begin(asked: &Option<Asked>) -> bool
    ensures { result ≡ asks_for begins_one asked.now }
{
    match kind_in(asked) {
        None => false,
        Some(kind) => kind.begins_one(),
    }
}

/// What a statement means in an open transaction.
pub fn statement_meaning(
    alloc: Global,
    inside: &Inside<'_>,
    statement: &Statement,
) -> Result<Meaning, OutOfMemory>
    ensures { IfOk result (λ meant. meant ≡ meaning_in inside.now.log.opened.now
        inside.now.log.commits.now inside.now.active.now (asked_variants.Good statement.now)) }
{
    let tables = view(alloc, inside)?;
    meaning(alloc, tables.as_slice(), statement)
}

/// What a call means in an open transaction.
pub fn meaning_in(alloc: Global, inside: &Inside<'_>, asked: &Asked) -> Result<Meaning, OutOfMemory>
    ensures { IfOk result (λ meant. meant ≡ meaning_in inside.now.log.opened.now
        inside.now.log.commits.now inside.now.active.now asked.now) }
{
    match asked {
        Asked::Good(statement) => statement_meaning(alloc, inside, statement),
        _ => Ok(Meaning::Nothing),
    }
}

/// How many rows of a table stand before the transaction's own ones.
pub fn committed_count(alloc: Global, inside: &Inside<'_>, table: u32) -> Result<u64, OutOfMemory>
    ensures { IfOk result (λ count. count ≡ committed_count inside.now.log.opened.now
        inside.now.log.commits.now inside.now.active.now table) }
{
    let tables = after(alloc, &inside.log, inside.active.start)?;
    Ok(row_count(tables.as_slice(), table))
}

/// The ids of rows that stand with them.
fn ids_of(alloc: Global, rows: &[(u64, Row)]) -> Result<Vec<u64>, OutOfMemory>
    ensures { IfOk result (λ ids. ids.items ≡ map (λ row. row.0) rows.now) }
{
    let mut ids = Vec::new(alloc);
    for row in rows {
        ids.push(row.0)?;
    }
    Ok(ids)
}

/// The ids of a part's updates and deletes.
pub fn changed_ids(alloc: Global, part: &TableNet) -> Result<Vec<u64>, OutOfMemory>
    ensures { IfOk result (λ ids. ids.items ≡ changed_ids part.now) }
{
    let mut ids = ids_of(alloc, part.updates.as_slice())?;
    ids.extend_from_slice(part.deletes.as_slice())?;
    Ok(ids)
}

/// The committed rows that a part of a net updates or deletes.
fn part_writes(alloc: Global, inside: &Inside<'_>, part: &TableNet) -> Result<WriteSet, OutOfMemory>
    ensures { IfOk result (λ set. set ≡ record {
      table = part.now.table;
      ids = committed_ids
          (committed_count inside.now.log.opened.now inside.now.log.commits.now inside.now.active.now
          part.now.table) (changed_ids part.now);
    }) }
{
    let count = committed_count(alloc, inside, part.table)?;
    let changed = changed_ids(alloc, part)?;
    let ids = committed(alloc, count, changed.as_slice())?;
    Ok(WriteSet {
        table: part.table,
        ids: List::from_vec(ids),
    })
}

/// The committed rows that a statement of that meaning updates or deletes.
pub fn write_set(
    alloc: Global,
    inside: &Inside<'_>,
    meant: &Meaning,
) -> Result<Option<WriteSet>, OutOfMemory>
    ensures { IfOk result (λ writes. writes ≡ write_set inside.now.log.opened.now
        inside.now.log.commits.now inside.now.active.now meant.now) }
{
    match meant {
        Meaning::Change { part, .. } => Ok(Some(part_writes(alloc, inside, part)?)),
        _ => Ok(None),
    }
}

/// The committed rows that the call in flight updates or deletes.
pub fn write_set_in_flight(
    alloc: Global,
    log: &CommitLog<'_>,
    transaction: &Transaction,
    asked: &Option<Asked>,
) -> Result<Option<WriteSet>, OutOfMemory>
    ensures { IfOk result (λ writes. writes ≡ write_set_in_flight log.now.opened.now
        log.now.commits.now transaction.now asked.now) }
{
    let (Transaction::Open(active), Some(asked)) = (transaction, asked) else {
        return Ok(None);
    };
    let inside = Inside { log: *log, active };
    let meant = meaning_in(alloc, &inside, asked)?;
    write_set(alloc, &inside, &meant)
}

/// The transaction's changes after a statement of that meaning.
pub fn net_after(alloc: Global, inside: &Inside<'_>, meant: &Meaning) -> Result<Net, OutOfMemory>
    ensures { IfOk result (λ net. net ≡ net_after inside.now.log.opened.now
        inside.now.log.commits.now inside.now.active.now meant.now) }
{
    let Meaning::Change { part, .. } = meant else {
        return inside.active.net.copy();
    };
    let count = committed_count(alloc, inside, part.table)?;
    merged_net(alloc, count, &inside.active.net, part)
}

/// The net behind the call in flight.
pub fn net_behind(
    alloc: Global,
    inside: &Inside<'_>,
    asked: &Option<Asked>,
) -> Result<Net, OutOfMemory>
    ensures { IfOk result (λ net. net ≡ net_behind inside.now.log.opened.now
        inside.now.log.commits.now inside.now.active.now asked.now) }
{
    let Some(asked) = asked else {
        return inside.active.net.copy();
    };
    let meant = meaning_in(alloc, inside, asked)?;
    net_after(alloc, inside, &meant)
}
