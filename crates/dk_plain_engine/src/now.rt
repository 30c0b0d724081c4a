//! The database behind all commits, kept as it grows, and what a transaction that sees just it means and changes.
//!
//! A transaction that has changed nothing so far and sees all commits sees exactly the tables that are kept, so that no
//! commit is looked at again.
ghost use Rattle.std.specs.Prelude.{◌≡◌, ◌++◌, Some, [], length, map, IfOk, OnOk, OnErr};
ghost use Rattle.dk_si.specs.declared.history.Asked.TheVariants as asked_variants;
ghost use Rattle.dk_si.specs.Database.{after, after_all, apply, apply_net, apply_part};
ghost use Rattle.dk_si.specs.Machine.{changed_ids, committed_count, meaning_in, net_after, write_set};
ghost use Rattle.dk_si.specs.Meaning.{meaning};
ghost use Rattle.dk_si.specs.Nets.{committed_ids};
ghost use Rattle.dk_plain_engine.specs.Now.{entered};
ghost use Rattle.dk_plain_engine.specs.Outcomes.{commit_of};

use crate::effect::Effect;
use dk_plain::database::view;
use dk_plain::nets::{committed, merged_net, row_count};
use dk_plain::{CommitLog, Inside};
use dk_si::database::Table;
use dk_si::machine::{OpenTransaction, Transaction, WriteSet};
use dk_si::meaning::Meaning;
use dk_states::call::{changed_ids, committed_count, statement_meaning};
use dk_states::meaning::meaning;
use dk_types::{Commit, List, Net, OutOfMemory, Row, Statement, TableNet, TryCopy, Value};
use std::alloc::Global;

/// A row in just its room, as there may be many.
fn exact_row(alloc: Global, row: &[Value]) -> Result<Row, OutOfMemory>
    ensures { IfOk result (λ copied. copied ≡ row.now) }
{
    let mut values = Vec::with_capacity(alloc, row.len())?;
    for value in row {
        values.push(value.copy()?)?;
    }
    Ok(List::from_vec(values))
}

/// Adds rows at the end, each in just its room.
fn add_exact(rows: &mut Vec<Option<Row>>, more: &[Row]) -> Result<(), OutOfMemory>
    ensures { OnOk result (rows.new.items ≡ rows.old.items ++ map Some more.now) }
{
    let alloc = *rows.allocator();
    for row in more {
        rows.push(Some(exact_row(alloc, row.as_slice())?))?;
    }
    Ok(())
}

/// Adds the new rows of a table.
fn enter_rows(tables: &mut Vec<Table>, alloc: Global, part: &TableNet) -> Result<(), OutOfMemory>
    requires updates { part.now.updates ≡ [] }
    requires deletes { part.now.deletes ≡ [] }
    ensures ok { OnOk result (tables.new.items ≡ apply_part part.now tables.old.items) }
    ensures err { OnErr result (tables.new.items ≡ tables.old.items) }
{
    let place = part.table as usize;
    if place >= tables.len() {
        return Ok(());
    }
    let mut rows = Vec::with_capacity(alloc, part.rows.len())?;
    add_exact(&mut rows, part.rows.to_list(alloc)?.as_slice())?;
    tables[place].rows.append(List::from_vec(rows))
}

/// Makes the changes of a net on a copy of the tables.
fn replace_all(tables: &mut Vec<Table>, alloc: Global, net: &Net) -> Result<(), OutOfMemory>
    ensures ok { OnOk result (tables.new.items ≡ apply_net net.now tables.old.items) }
    ensures err { OnErr result (tables.new.items ≡ tables.old.items) }
{
    let active = OpenTransaction {
        number: 0,
        start: 0,
        net: net.copy()?,
        fresh: false,
    };
    let log = CommitLog {
        opened: tables.as_slice(),
        commits: &[],
    };
    let after = view(
        alloc,
        &Inside {
            log,
            active: &active,
        },
    )?;
    *tables = after;
    Ok(())
}

/// Makes the changes of a net. New rows of one table are added in place.
fn enter_net(tables: &mut Vec<Table>, alloc: Global, net: &Net) -> Result<(), OutOfMemory>
    ensures ok { OnOk result (tables.new.items ≡ apply_net net.now tables.old.items) }
    ensures err { OnErr result (tables.new.items ≡ tables.old.items) }
{
    match net.as_slice() {
        [part] if part.updates.is_empty() && part.deletes.is_empty() => {
            enter_rows(tables, alloc, part)
        }
        _ => replace_all(tables, alloc, net),
    }
}

/// Makes the changes of a commit. Where memory wants the tables stay as they were.
pub fn enter(tables: &mut Vec<Table>, alloc: Global, commit: &Commit) -> Result<(), OutOfMemory>
    ensures ok { OnOk result (tables.new.items ≡ apply commit.now tables.old.items) }
    ensures err { OnErr result (tables.new.items ≡ tables.old.items) }
{
    match commit {
        Commit::Create { name, schema } => {
            let name = name.copy()?;
            let schema = schema.copy()?;
            let rows = List::new(alloc);
            tables.push(Table { name, schema, rows })?;
            Ok(())
        }
        Commit::Change { net } => enter_net(tables, alloc, net),
    }
}

/// What a statement means in an open transaction, where these are the tables behind all commits.
#[tactic(auto, using(crate::proofs::NowLemmas::meaning_now))]
pub fn meaning_of(
    alloc: Global,
    inside: &Inside<'_>,
    tables: &[Table],
    statement: &Statement,
) -> Result<Meaning, OutOfMemory>
    requires { tables.now ≡ after_all inside.now.log.commits.now inside.now.log.opened.now }
    ensures { IfOk result (λ meant. meant ≡ meaning_in inside.now.log.opened.now
        inside.now.log.commits.now inside.now.active.now (asked_variants.Good statement.now)) }
{
    if inside.active.net.is_empty() && inside.active.start == inside.log.commits.len() as u64 {
        let meant = meaning(alloc, tables, statement)?;
        return Ok(meant);
    }
    statement_meaning(alloc, inside, statement)
}

/// What a statement means in the state of the last commit, where these are the tables behind it.
#[tactic(auto, using(crate::proofs::NowLemmas::creation_now))]
pub fn creation_of(
    alloc: Global,
    log: &CommitLog<'_>,
    tables: &[Table],
    statement: &Statement,
) -> Result<Meaning, OutOfMemory>
    requires { tables.now ≡ after_all log.now.commits.now log.now.opened.now }
    ensures { IfOk result (λ meant. meant ≡ meaning (after log.now.opened.now log.now.commits.now
        (length log.now.commits.now)) statement.now) }
{
    let _behind = log;
    let meant = meaning(alloc, tables, statement)?;
    Ok(meant)
}

/// Makes the changes of what an effect on a transaction commits, if it does.
pub fn enter_effect(
    tables: &mut Vec<Table>,
    alloc: Global,
    transaction: &Transaction,
    effect: &Effect,
) -> Result<(), OutOfMemory>
    ensures ok { OnOk result (tables.new.items ≡ entered (commit_of transaction.now effect.now)
        tables.old.items) }
    ensures err { OnErr result (tables.new.items ≡ tables.old.items) }
{
    let Transaction::Open(active) = transaction else {
        return Ok(());
    };
    match effect {
        Effect::CommitOwn => enter_net(tables, alloc, &active.net),
        Effect::CommitThis(commit) => enter(tables, alloc, commit),
        _ => Ok(()),
    }
}

/// How many rows of a table stand before the transaction's own ones.
#[tactic(auto, using(crate::proofs::NowLemmas::count_now))]
fn count_of(
    alloc: Global,
    inside: &Inside<'_>,
    tables: &[Table],
    table: u32,
) -> Result<u64, OutOfMemory>
    requires { tables.now ≡ after_all inside.now.log.commits.now inside.now.log.opened.now }
    ensures { IfOk result (λ count. count ≡ committed_count inside.now.log.opened.now
        inside.now.log.commits.now inside.now.active.now table) }
{
    if inside.active.start == inside.log.commits.len() as u64 {
        return Ok(row_count(tables, table));
    }
    committed_count(alloc, inside, table)
}

/// The transaction's changes after a statement of that meaning.
pub fn net_of(
    alloc: Global,
    inside: &Inside<'_>,
    tables: &[Table],
    meant: &Meaning,
) -> Result<Net, OutOfMemory>
    requires { tables.now ≡ after_all inside.now.log.commits.now inside.now.log.opened.now }
    ensures { IfOk result (λ net. net ≡ net_after inside.now.log.opened.now
        inside.now.log.commits.now inside.now.active.now meant.now) }
{
    let Meaning::Change { part, .. } = meant else {
        return inside.active.net.copy();
    };
    let count = count_of(alloc, inside, tables, part.table)?;
    merged_net(alloc, count, &inside.active.net, part)
}

/// The committed rows that a part of a net updates or deletes.
fn part_writes(
    alloc: Global,
    inside: &Inside<'_>,
    tables: &[Table],
    part: &TableNet,
) -> Result<WriteSet, OutOfMemory>
    requires { tables.now ≡ after_all inside.now.log.commits.now inside.now.log.opened.now }
    ensures { IfOk result (λ set. set ≡ record {
      table = part.now.table;
      ids = committed_ids
          (committed_count inside.now.log.opened.now inside.now.log.commits.now inside.now.active.now
          part.now.table) (changed_ids part.now);
    }) }
{
    let count = count_of(alloc, inside, tables, part.table)?;
    let changed = changed_ids(alloc, part)?;
    let ids = committed(alloc, count, changed.as_slice())?;
    Ok(WriteSet {
        table: part.table,
        ids: List::from_vec(ids),
    })
}

/// The committed rows that a statement of that meaning updates or deletes.
pub fn writes_of(
    alloc: Global,
    inside: &Inside<'_>,
    tables: &[Table],
    meant: &Meaning,
) -> Result<Option<WriteSet>, OutOfMemory>
    requires { tables.now ≡ after_all inside.now.log.commits.now inside.now.log.opened.now }
    ensures { IfOk result (λ writes. writes ≡ write_set inside.now.log.opened.now
        inside.now.log.commits.now inside.now.active.now meant.now) }
{
    match meant {
        Meaning::Change { part, .. } => Ok(Some(part_writes(alloc, inside, tables, part)?)),
        _ => Ok(None),
    }
}
