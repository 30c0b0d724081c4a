//! How a commit goes: the session's own rows are put into groups, in their order, and then it makes its Point.
ghost use Rattle.std.specs.Prelude.{◌≡◌, ◌==◌, ◌-◌, ◌+◌, ◌<◌, ◌^◌, ◌++◌, ◌&&◌, not, is_none, length, nat_lt, IfOk};
ghost use Rattle.std.specs.List.{list_all};
ghost use lib.Pointwise.{pointwise};
ghost use Rattle.dk_si.specs.declared.limits.TheConstants.{GROUP_ROWS};
ghost use Rattle.dk_si.specs.Machine.{asks_for, net_behind, meaning_now};
ghost use Rattle.dk_si.specs.Nets.{is_empty, part_of, new_rows};
ghost use Rattle.dk_core.specs.Commits.{is_commit_kind, commits_now, is_placing, is_committing, placed_in, is_front};
ghost use Rattle.dk_core.specs.Commits.{left_to_place, are_next_rows, is_adopted_group, is_next_append};
ghost use Rattle.dk_core.specs.Commits.{no_full_group_left, may_adopt, may_append, all_placed, same_type, same_column};
ghost use Rattle.dk_core.specs.Commits.{same_schema, is_creation_of, is_create, creates_now, may_create, may_commit};
ghost use Rattle.dk_core.specs.Commits.{may_point};
ghost use Rattle.dk_slow_rules.specs.Rows.{with_placed, left_of};
ghost use Rattle.dk_slow_rules.specs.Scenes.{core_in};

use crate::places::{is_first_behind, is_first_row, next_group};
use crate::replies::may_end_call;
use crate::scene::{Held, Scene};
use dk_core::{Done, Seat};
use dk_legal::same::same_rows;
use dk_plain::database::after;
use dk_plain::slices::first;
use dk_plain::{CommitLog, Inside};
use dk_si::history::Asked;
use dk_si::kind::Kind;
use dk_si::limits::GROUP_ROWS;
use dk_si::machine::{OpenTransaction, Transaction};
use dk_si::meaning::Meaning;
use dk_slow_seats::layout::{groups_of, rows_in};
use dk_states::call::{asks_for_own, kind_in, net_behind};
use dk_states::meaning::meaning;
use dk_types::{ColType, Column, List, OutOfMemory, Reply, Row, Rows, TableNet};
use std::alloc::Global;

/// Rows that an event puts into a group of a table, and the id of the first.
#[derive(Clone, Copy)]
pub struct Placing<'a> {
    pub table: u32,
    pub group: u64,
    pub first: u64,
    pub rows: &'a Rows,
}

/// What a session that commits puts into groups: the net behind its call, and the parts of it that stand in groups.
#[derive(Clone, Copy)]
struct Own<'a> {
    net: &'a [TableNet],
    made: &'a [TableNet],
}

fn asks_to_commit(asked: &Option<Asked>) -> bool
    ensures { result ≡ asks_for is_commit_kind asked.now }
{
    match kind_in(asked) {
        None => false,
        Some(kind) => matches!(kind, Kind::Commit),
    }
}

/// Whether the call in flight may commit: it is COMMIT, or a statement with a transaction of its own.
fn commits_now(active: &OpenTransaction, asked: &Option<Asked>) -> bool
    ensures { result ≡ commits_now active.now asked.now }
{
    asks_to_commit(asked) || (active.fresh && asks_for_own(asked))
}

/// How many new rows the parts have.
#[tactic(auto, using(crate::proofs::CommitLemmas::rows_more, crate::proofs::CommitLemmas::rows_end))]
fn new_rows(parts: &[TableNet]) -> u128
    ensures { result ≡ new_rows parts.now }
{
    let mut count: u128 = 0;
    for part in parts {
        count += part.rows.len() as u128;
    }
    count
}

/// Whether some of the session's own rows stand in groups, and it has made no Point yet.
pub fn is_placing(seat: &Seat) -> bool
    ensures { result ≡ is_placing seat.now }
{
    0 < new_rows(seat.made.as_slice())
}

/// Whether the session is between its first Append or Adopt and its Point, or between the two Points of a creation.
pub fn is_committing(seat: &Seat) -> bool
    ensures { result ≡ is_committing seat.now }
{
    is_placing(seat) || seat.creates.is_some()
}

/// The rows of a part, and others behind them.
fn rows_before(alloc: Global, part: &TableNet, rows: List<Row>) -> Result<List<Row>, OutOfMemory>
    ensures { IfOk result (λ all. all ≡ part.now.rows ++ rows) }
{
    let mut all = part.rows.to_list(alloc)?;
    all.append(rows)?;
    Ok(all)
}

/// Rows of a table behind those of it that stand in groups already.
#[tactic(auto, using(crate::proofs::CommitLemmas::placed_end))]
fn with_placed(
    alloc: Global,
    table: u32,
    made: &[TableNet],
    rows: &Rows,
) -> Result<List<Row>, OutOfMemory>
    ensures { IfOk result (λ all. all ≡ placed_in table made.now ++ rows.now) }
{
    let mut all = rows.to_list(alloc)?;
    for part in made {
        if part.table == table {
            all = rows_before(alloc, part, all)?;
        }
    }
    Ok(all)
}

/// The new rows that a net has of a table.
fn rows_of(alloc: Global, net: &[TableNet], table: u32) -> Result<List<Row>, OutOfMemory>
    ensures { IfOk result (λ rows. rows ≡ (part_of net.now table).rows) }
{
    for part in net {
        if part.table == table {
            return part.rows.to_list(alloc);
        }
    }
    Ok(List::new(alloc))
}

/// How many new rows a net has of a table.
fn row_count_of(net: &[TableNet], table: u32) -> u64
    ensures { result ≡ length (part_of net.now table).rows }
{
    for part in net {
        if part.table == table {
            return part.rows.len() as u64;
        }
    }
    0
}

/// How many rows are left of so many of a table, when those that stand in groups are taken away.
#[tactic(auto, using(crate::proofs::CommitLemmas::left_end))]
fn left_of(table: u32, made: &[TableNet], count: u64) -> u64
    ensures { result ≡ count - length (placed_in table made.now) }
{
    let mut left = count;
    for part in made {
        if part.table == table {
            left = left.saturating_sub(part.rows.len() as u64);
        }
    }
    left
}

/// Whether rows are the first of others.
fn is_front(rows: &[Row], others: &[Row]) -> bool
    ensures { result ≡ is_front rows.now others.now }
{
    same_rows(rows, first(others, rows.len() as u64))
}

impl Own<'_> {
    /// How many own rows of a table stand in no group yet.
    fn left_to_place(&self, table: u32) -> u64
        ensures { result ≡ length (part_of self.now.net.now table).rows - length (placed_in table self.now.made.now) }
    {
        left_of(table, self.made, row_count_of(self.net, table))
    }

    /// Whether the rows are the next ones of the session's own rows of the table.
    fn are_next(&self, alloc: Global, table: u32, rows: &Rows) -> Result<bool, OutOfMemory>
        ensures { IfOk result (λ are. are ≡ is_front (placed_in table self.now.made.now ++ rows.now)
            (part_of self.now.net.now table).rows) }
    {
        let placed = with_placed(alloc, table, self.made, rows)?;
        let own = rows_of(alloc, self.net, table)?;
        Ok(is_front(placed.as_slice(), own.as_slice()))
    }

    /// Whether no table has a full group of own rows left.
    fn no_full_group_left(&self) -> bool
        ensures { result ≡ list_all (λ part. nat_lt (length (part_of self.now.net.now part.table).rows
            - length (placed_in part.table self.now.made.now)) GROUP_ROWS) self.now.net.now }
    {
        self.net
            .iter()
            .all(|part| self.left_to_place(part.table) < GROUP_ROWS as u64)
    }
}

/// Whether these are the next of the session's own rows of a table, once a committing call is in flight that was not
/// refused; the net behind the call is this.
#[tactic(auto, using(crate::proofs::ListLemmas::none_empty))]
fn are_next_rows(
    alloc: Global,
    active: &OpenTransaction,
    held: &Held<'_>,
    net: &[TableNet],
    placing: &Placing<'_>,
) -> Result<bool, OutOfMemory>
    ensures { IfOk result (λ are. are ≡ ((commits_now active.now held.now.session.now.asked
        && is_none held.now.seat.now.found) && (not (is_empty placing.now.rows.now)
        && is_front (placed_in placing.now.table held.now.seat.now.made ++ placing.now.rows.now)
        (part_of net.now placing.now.table).rows))) }
{
    let Held { session, seat } = *held;
    let own = Own {
        net,
        made: seat.made.as_slice(),
    };
    let next = own.are_next(alloc, placing.table, placing.rows)?;
    Ok(
        (commits_now(active, &session.asked) && seat.found.is_none())
            && (placing.rows.len() != 0 && next),
    )
}

/// Whether an Adopt has a full group, which stands behind the others.
fn is_adopted_group(groups: &[u64], placing: &Placing<'_>) -> bool
    ensures { result ≡ is_adopted_group groups.now placing.now.group placing.now.first placing.now.rows.now }
{
    placing.rows.len() == GROUP_ROWS
        && (placing.group == groups.len() as u64 && is_first_behind(groups, placing.first))
}

/// Whether an Append has as many of the rows that are left as the last group has room for, or those that are left in a
/// new group.
fn is_next_append(groups: &[u64], left: u64, placing: &Placing<'_>) -> bool
    ensures { result ≡ is_next_append groups.now left placing.now.group placing.now.first placing.now.rows.now }
{
    let Placing {
        group,
        first,
        rows,
        ..
    } = *placing;
    let room = (GROUP_ROWS as u64).saturating_sub(rows_in(groups, group));
    (group == next_group(groups) && is_first_row(groups, group, first))
        && rows.len() as u64 == left.min(room)
}

/// Whether no table has a full group of the session's own rows left.
fn no_full_group_left(
    scene: &Scene<'_>,
    active: &OpenTransaction,
    held: &Held<'_>,
    own: &Own<'_>,
) -> bool
    requires net { own.now.net.now ≡ net_behind scene.now.opened.now scene.now.commits.now active.now
        held.now.session.now.asked }
    requires made { own.now.made.now ≡ held.now.seat.now.made }
    ensures { result ≡ no_full_group_left (core_in scene.now) active.now held.now.session.now held.now.seat.now }
{
    own.no_full_group_left()
}

/// Whether a session with an open transaction may put these rows as a full group behind the others.
pub fn may_adopt(
    alloc: Global,
    scene: &Scene<'_>,
    held: &Held<'_>,
    placing: &Placing<'_>,
) -> Result<bool, OutOfMemory>
    ensures { IfOk result (λ may. may ≡ may_adopt (core_in scene.now) placing.now.table placing.now.group
        placing.now.first placing.now.rows.now held.now.session.now held.now.seat.now) }
{
    let Transaction::Open(active) = &held.session.transaction else {
        return Ok(false);
    };
    let inside = Inside {
        log: scene.log(),
        active,
    };
    let net = net_behind(alloc, &inside, &held.session.asked)?;
    let next = are_next_rows(alloc, active, held, net.as_slice(), placing)?;
    let groups = groups_of(scene.layout, placing.table);
    Ok(next && is_adopted_group(groups, placing))
}

/// Whether a session with an open transaction may put these rows into the last group, or into a new one.
pub fn may_append(
    alloc: Global,
    scene: &Scene<'_>,
    held: &Held<'_>,
    placing: &Placing<'_>,
) -> Result<bool, OutOfMemory>
    ensures { IfOk result (λ may. may ≡ may_append (core_in scene.now) placing.now.table placing.now.group
        placing.now.first placing.now.rows.now held.now.session.now held.now.seat.now) }
{
    let Transaction::Open(active) = &held.session.transaction else {
        return Ok(false);
    };
    let inside = Inside {
        log: scene.log(),
        active,
    };
    let net = net_behind(alloc, &inside, &held.session.asked)?;
    let next = are_next_rows(alloc, active, held, net.as_slice(), placing)?;
    let own = Own {
        net: net.as_slice(),
        made: held.seat.made.as_slice(),
    };
    let groups = groups_of(scene.layout, placing.table);
    let left = own.left_to_place(placing.table);
    let no_full = no_full_group_left(scene, active, held, &own);
    Ok(next && (no_full && is_next_append(groups, left, placing)))
}

/// Whether all own rows stand in groups.
fn all_placed(alloc: Global, scene: &Scene<'_>, held: &Held<'_>) -> Result<bool, OutOfMemory>
    ensures { IfOk result (λ are. are ≡ all_placed (core_in scene.now) held.now.session.now held.now.seat.now) }
{
    let Transaction::Open(active) = &held.session.transaction else {
        return Ok(false);
    };
    let inside = Inside {
        log: scene.log(),
        active,
    };
    let net = net_behind(alloc, &inside, &held.session.asked)?;
    Ok(new_rows(held.seat.made.as_slice()) == new_rows(net.as_slice()))
}

fn same_type(kind: ColType, other: ColType) -> bool
    ensures { result ≡ same_type kind other }
{
    match (kind, other) {
        (ColType::Bool, ColType::Bool)
        | (ColType::Int, ColType::Int)
        | (ColType::Big, ColType::Big)
        | (ColType::Text, ColType::Text) => true,
        _ => false,
    }
}

fn same_column(a: &Column, b: &Column) -> bool
    ensures { result ≡ same_column a.now b.now }
{
    a.name.as_slice() == b.name.as_slice() && same_type(a.kind, b.kind)
}

fn same_schema(schema: &[Column], other: &[Column]) -> bool
    ensures { result ≡ same_schema schema.now other.now }
{
    let mut left = schema;
    let mut right = other;
    'columns: while let ([column, more @ ..], [other, others @ ..]) = (left, right) {
        if !same_column(column, other) {
            return false;
        }
        left = more;
        right = others;
    }
    left.is_empty() && right.is_empty()
}

/// Whether a statement means the creation of that table.
fn is_creation_of(name: &[u8], schema: &[Column], meaning: &Meaning) -> bool
    ensures { result ≡ is_creation_of name.now schema.now meaning.now }
{
    match meaning {
        Meaning::Create {
            name: own_name,
            schema: own_schema,
        } => name == own_name.as_slice() && same_schema(schema, own_schema.as_slice()),
        _ => false,
    }
}

fn asks_to_create(asked: &Option<Asked>) -> bool
    ensures { result ≡ asks_for is_create asked.now }
{
    match kind_in(asked) {
        None => false,
        Some(kind) => matches!(kind, Kind::Create),
    }
}

/// Whether CREATE TABLE is in flight in a transaction of its own.
fn creates_now(active: &OpenTransaction, asked: &Option<Asked>) -> bool
    ensures { result ≡ creates_now active.now asked.now }
{
    active.fresh && asks_to_create(asked)
}

/// What the call in flight means in the state of the last commit.
fn meaning_now(
    alloc: Global,
    log: &CommitLog<'_>,
    asked: &Option<Asked>,
) -> Result<Meaning, OutOfMemory>
    ensures { IfOk result (λ meant. meant ≡ meaning_now log.now.opened.now log.now.commits.now asked.now) }
{
    let Some(Asked::Good(statement)) = asked else {
        return Ok(Meaning::Nothing);
    };
    let tables = after(alloc, log, log.commits.len() as u64)?;
    meaning(alloc, tables.as_slice(), statement)
}

/// Whether the first Point of a creation may give that table: the one that the statement means in the state of the last
/// commit.
pub fn may_create(
    alloc: Global,
    scene: &Scene<'_>,
    held: &Held<'_>,
    name: &[u8],
    schema: &[Column],
) -> Result<bool, OutOfMemory>
    ensures { IfOk result (λ may. may ≡ may_create (core_in scene.now) name.now schema.now held.now.session.now
        held.now.seat.now) }
{
    let Held { session, seat } = *held;
    let Transaction::Open(active) = &session.transaction else {
        return Ok(false);
    };
    let meant = meaning_now(alloc, &scene.log(), &session.asked)?;
    Ok(
        (creates_now(active, &session.asked) && (seat.found.is_none() && seat.creates.is_none()))
            && is_creation_of(name, schema, &meant),
    )
}

/// Whether a Point may be a commit: the call may be answered so, and all own rows stand in groups.
pub fn may_commit(
    alloc: Global,
    scene: &Scene<'_>,
    held: &Held<'_>,
    reply: &Reply,
) -> Result<bool, OutOfMemory>
    ensures { IfOk result (λ may. may ≡ may_commit (core_in scene.now) reply.now held.now.session.now
        held.now.seat.now) }
{
    let may = may_end_call(alloc, scene, held, reply)?;
    let placed = all_placed(alloc, scene, held)?;
    Ok(may && placed)
}

/// Whether a Point may come: a creation has made its first one before its second one, and nothing else has.
pub fn may_point(
    alloc: Global,
    scene: &Scene<'_>,
    held: &Held<'_>,
    done: &Done,
    moment: u64,
) -> Result<bool, OutOfMemory>
    ensures { IfOk result (λ may. may ≡ may_point (core_in scene.now) done.now moment held.now.session.now
        held.now.seat.now) }
{
    let receipt = scene.next_receipt(moment);
    let creates = held.seat.creates.is_some();
    match done {
        Done::Create { name, schema } => {
            may_create(alloc, scene, held, name.as_slice(), schema.as_slice())
        }
        Done::Created => {
            let may = may_commit(alloc, scene, held, &Reply::Created { receipt })?;
            Ok(creates && may)
        }
        Done::Changed { count } => {
            let reply = Reply::Changed {
                count: *count,
                receipt: Some(receipt),
            };
            let may = may_commit(alloc, scene, held, &reply)?;
            Ok(!creates && may)
        }
        Done::Commit => {
            let may = may_commit(alloc, scene, held, &Reply::Committed { receipt })?;
            Ok(!creates && may)
        }
    }
}
