//! Which rows a Change may have, and which of its statement's rows the versions since its Call have.
ghost use Rattle.std.specs.Prelude.{◌≡◌, ◌&&◌, not, nat_lt, IfOk};
ghost use Rattle.std.specs.List.{list_all};
ghost use Rattle.dk_si.specs.Machine.{changed_ids};
ghost use Rattle.dk_si.specs.Nets.{is_empty, net_has, has_id};
ghost use Rattle.dk_core.specs.Changes.{has_update, is_one_kind, are_fresh_rows, is_part_of, is_meant, is_fresh_part};
ghost use Rattle.dk_core.specs.Changes.{is_change_of, has_whole_change, has_no_change};
ghost use Rattle.dk_core.specs.Layout.{is_in_vector};

use crate::places::is_in_vector;
use dk_core::Seat;
use dk_legal::same::Same;
use dk_plain::nets::{has_id, net_has};
use dk_si::machine::WriteSet;
use dk_si::meaning::Meaning;
use dk_states::call::changed_ids;
use dk_types::{OutOfMemory, Row, TableNet, VectorId};
use std::alloc::Global;

/// What a Change is compared with: how many rows of its table are committed, what its call has changed by now, and what
/// its statement means.
#[derive(Clone, Copy)]
pub struct Doing<'a> {
    pub count: u64,
    pub made: &'a [TableNet],
    pub meaning: &'a Meaning,
}

/// Whether there is none of them.
pub fn is_empty<T>(items: &[T]) -> bool
    ensures { result ≡ is_empty items.now }
{
    match items {
        [] => true,
        [..] => false,
    }
}

/// Whether the update is one of these, with its values.
fn has_update(updates: &[(u64, Row)], update: &(u64, Row)) -> bool
    ensures { result ≡ has_update updates.now update.now }
{
    updates
        .iter()
        .any(|other| other.0 == update.0 && other.1.same(&update.1))
}

fn has_updates(updates: &[(u64, Row)], others: &[(u64, Row)]) -> bool
    ensures { result ≡ list_all (has_update updates.now) others.now }
{
    others.iter().all(|update| has_update(updates, update))
}

fn has_ids(ids: &[u64], others: &[u64]) -> bool
    ensures { result ≡ list_all (has_id ids.now) others.now }
{
    others.iter().all(|id| has_id(ids, *id))
}

/// Whether a part updates rows or deletes rows, and appends none.
#[tactic(auto, using(crate::proofs::ListLemmas::none_empty))]
fn is_one_kind(part: &TableNet) -> bool
    ensures { result ≡ is_one_kind part.now }
{
    part.rows.len() == 0
        && if is_empty(part.updates.as_slice()) {
            !is_empty(part.deletes.as_slice())
        } else {
            is_empty(part.deletes.as_slice())
        }
}

/// Whether these are committed rows, of which there are so many, that no version since the Call has.
fn are_fresh(doing: &Doing<'_>, table: u32, ids: &[u64]) -> bool
    ensures { result ≡ list_all (λ row. nat_lt row doing.now.count && not (net_has doing.now.made.now table row)) ids.now }
{
    ids.iter().all(|row| *row < doing.count && !net_has(doing.made, table, *row))
}

/// Whether the part's rows are of those that the statement changes, with its values.
fn is_part_of(whole: &TableNet, part: &TableNet) -> bool
    ensures { result ≡ is_part_of whole.now part.now }
{
    part.table == whole.table
        && (has_updates(whole.updates.as_slice(), part.updates.as_slice())
            && has_ids(whole.deletes.as_slice(), part.deletes.as_slice()))
}

fn is_meant(meaning: &Meaning, part: &TableNet) -> bool
    ensures { result ≡ is_meant meaning.now part.now }
{
    match meaning {
        Meaning::Change { part: whole, .. } => is_part_of(whole, part),
        _ => false,
    }
}

fn are_in_vector(groups: &[u64], at: VectorId, ids: &[u64]) -> bool
    ensures { result ≡ list_all (is_in_vector groups.now at) ids.now }
{
    ids.iter().all(|row| is_in_vector(groups, at, *row))
}

/// Whether a Change has committed rows that the statement changes, each once, with its values, all of one vector, and
/// updates them or deletes them.
pub fn is_change_of(
    alloc: Global,
    groups: &[u64],
    doing: &Doing<'_>,
    at: VectorId,
    part: &TableNet,
) -> Result<bool, OutOfMemory>
    ensures { IfOk result (λ is. is ≡ is_change_of groups.now doing.now.count doing.now.made.now
        doing.now.meaning.now at part.now) }
{
    let ids = changed_ids(alloc, part)?;
    let ids = ids.as_slice();
    Ok(
        (is_one_kind(part) && (at.table == part.table && are_in_vector(groups, at, ids)))
            && (are_fresh(doing, part.table, ids) && is_meant(doing.meaning, part)),
    )
}

/// Whether the versions since the Call have all rows that the statement changes.
pub fn has_whole_change(set: &Option<WriteSet>, seat: &Seat) -> bool
    ensures { result ≡ has_whole_change set.now seat.now }
{
    match set {
        None => true,
        Some(set) => has_rows(seat.made.as_slice(), set.table, set.ids.as_slice()),
    }
}

fn has_rows(made: &[TableNet], table: u32, ids: &[u64]) -> bool
    ensures { result ≡ list_all (net_has made.now table) ids.now }
{
    ids.iter().all(|row| net_has(made, table, *row))
}

/// Whether a part updates and deletes nothing.
#[tactic(auto, using(crate::proofs::ListLemmas::no_ids))]
fn changes_nothing(part: &TableNet) -> bool
    ensures { result ≡ is_empty (changed_ids part.now) }
{
    is_empty(part.updates.as_slice()) && is_empty(part.deletes.as_slice())
}

/// Whether no row was changed since the Call.
pub fn has_no_change(seat: &Seat) -> bool
    ensures { result ≡ has_no_change seat.now }
{
    seat.made.as_slice().iter().all(changes_nothing)
}
