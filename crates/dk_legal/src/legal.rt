//! Whether a history is legal.
ghost use Rattle.std.specs.Prelude.{◌≡◌, ◌-◌, IfOk};
ghost use Rattle.std.specs.List.{list_all, list_any};
ghost use Rattle.dk_si.specs.IsLegal.{keeps_stop, may_have_stopped, stop_at, iteration_in, may_have_reached};
ghost use Rattle.dk_si.specs.IsLegal.{is_reached, stands_before, are_in_order, follows_at, spent_at, stands_in_order};
ghost use Rattle.dk_si.specs.IsLegal.{iterates_at, stops_well, iterates_well, is_legal};

use crate::exchanges::exchanges;
use crate::step::are_steps;
use dk_si::Database;
use dk_si::exchange::{Exchange, Replied};
use dk_si::history::Entries;
use dk_si::limits::MAX_ITERATION;
use dk_si::replies::{
    has_no_iteration, is_commit, is_disk_stop, is_iteration, is_stop, is_stopped_refusal,
    iteration_of,
};
use dk_types::{OutOfMemory, Reply};
use std::alloc::Global;

/// Whether an exchange commits nothing after a stop at that place, and makes no checkpoint that it calls for after it.
fn keeps_stop(place: u64, exchange: &Exchange) -> bool
    ensures { result ≡ keeps_stop place exchange.now }
{
    match &exchange.replied {
        None => true,
        Some(replied) => {
            !((place < replied.place && is_commit(&replied.reply))
                || (place < exchange.place && iteration_of(&replied.reply).is_some()))
        }
    }
}

/// Whether a call stands before that place and may have stopped the engine.
fn may_have_stopped(place: u64, exchange: &Exchange) -> bool
    ensures { result ≡ may_have_stopped place exchange.now }
{
    exchange.place < place
        && match &exchange.replied {
            None => true,
            Some(replied) => is_disk_stop(&replied.reply),
        }
}

fn stop_at(all: &[Exchange], replied: &Replied) -> bool
    ensures { result ≡ stop_at all.now replied.now }
{
    (!is_stop(&replied.reply) || all_keep_stop(replied.place, all))
        && (!is_stopped_refusal(&replied.reply) || some_may_have_stopped(replied.place, all))
}

fn all_keep_stop(place: u64, all: &[Exchange]) -> bool
    ensures { result ≡ list_all (keeps_stop place) all.now }
{
    all.iter().all(|exchange| keeps_stop(place, exchange))
}

fn some_may_have_stopped(place: u64, all: &[Exchange]) -> bool
    ensures { result ≡ list_any (may_have_stopped place) all.now }
{
    all.iter().any(|exchange| may_have_stopped(place, exchange))
}

/// Whether no commit follows a stop, and each stop has its cause.
fn stops_well(all: &[Exchange]) -> bool
    ensures { result ≡ stops_well all.now }
{
    all.iter().all(|exchange| match &exchange.replied {
        None => true,
        Some(replied) => stop_at(all, replied),
    })
}

/// The iteration that a CHECKPOINT is answered.
fn iteration_in(exchange: &Exchange) -> Option<u64>
    ensures { result ≡ iteration_in exchange.now }
{
    match &exchange.replied {
        Some(replied) if exchange.checkpoint => iteration_of(&replied.reply),
        _ => None,
    }
}

/// Whether a CHECKPOINT is called before that place, and has no reply or is answered this iteration.
fn may_have_reached(place: u64, iteration: u64, exchange: &Exchange) -> bool
    ensures { result ≡ may_have_reached place iteration exchange.now }
{
    exchange.place < place
        && match &exchange.replied {
            None => exchange.checkpoint,
            Some(replied) => exchange.checkpoint && is_iteration(iteration, &replied.reply),
        }
}

fn some_may_have_reached(all: &[Exchange], place: u64, iteration: u64) -> bool
    ensures { result ≡ list_any (may_have_reached place iteration) all.now }
{
    all.iter()
        .any(|exchange| may_have_reached(place, iteration, exchange))
}

/// Whether the iteration is the opened one, or a call before that place reached it, or may have.
fn is_reached(opened: u64, all: &[Exchange], place: u64, iteration: u64) -> bool
    ensures { result ≡ is_reached opened all.now place iteration }
{
    iteration == opened || some_may_have_reached(all, place, iteration)
}

fn stands_before(first: &Exchange, second: &Exchange) -> bool
    ensures { result ≡ stands_before first.now second.now }
{
    match &first.replied {
        None => false,
        Some(replied) => replied.place < second.place,
    }
}

/// Whether two checkpoints have different iterations, the smaller one where its reply stands before the other's call.
fn are_in_order(first: &Exchange, second: &Exchange) -> bool
    ensures { result ≡ are_in_order first.now second.now }
{
    match (iteration_in(first), iteration_in(second)) {
        (Some(a), Some(b)) => {
            (first.place == second.place || a != b) && (!stands_before(first, second) || a < b)
        }
        _ => true,
    }
}

/// Whether an iteration is above the opened one, and the one below it was reached by a call before the reply.
fn follows_at(opened: u64, all: &[Exchange], replied: &Replied) -> bool
    ensures { result ≡ follows_at opened all.now replied.now }
{
    match iteration_of(&replied.reply) {
        None => true,
        Some(iteration) => {
            opened < iteration && is_reached(opened, all, replied.place, iteration - 1)
        }
    }
}

/// Whether the last iteration was reached by a call before a reply that none is left.
fn spent_at(opened: u64, all: &[Exchange], replied: &Replied) -> bool
    ensures { result ≡ spent_at opened all.now replied.now }
{
    let spent = match &replied.reply {
        Reply::Refused(refusal) => has_no_iteration(refusal),
        _ => false,
    };
    !spent || is_reached(opened, all, replied.place, MAX_ITERATION)
}

fn stands_in_order(all: &[Exchange], exchange: &Exchange) -> bool
    ensures { result ≡ stands_in_order all.now exchange.now }
{
    all.iter().all(|other| are_in_order(exchange, other))
}

/// What the reply to a CHECKPOINT asks of the iterations before it.
fn iterates_at(opened: u64, all: &[Exchange], exchange: &Exchange) -> bool
    ensures { result ≡ iterates_at opened all.now exchange.now }
{
    match &exchange.replied {
        None => true,
        Some(replied) => {
            !exchange.checkpoint
                || (follows_at(opened, all, replied) && spent_at(opened, all, replied))
        }
    }
}

/// Whether checkpoints write one iteration after the other.
fn iterates_well(opened: u64, all: &[Exchange]) -> bool
    ensures { result ≡ iterates_well opened all.now }
{
    all_in_order(all) && all_iterate(opened, all)
}

fn all_in_order(all: &[Exchange]) -> bool
    ensures { result ≡ list_all (stands_in_order all.now) all.now }
{
    all.iter().all(|exchange| stands_in_order(all, exchange))
}

fn all_iterate(opened: u64, all: &[Exchange]) -> bool
    ensures { result ≡ list_all (iterates_at opened all.now) all.now }
{
    all.iter()
        .all(|exchange| iterates_at(opened, all, exchange))
}

/// Answers whether the entries are a legal history from that database and that opened iteration.
///
/// It is slow: for each conflict it makes all states up to the reply again.
pub fn run_slow(
    alloc: Global,
    opened: &Database,
    iteration: u64,
    entries: &Entries,
) -> Result<bool, OutOfMemory>
    ensures { IfOk result (λ legal. legal ≡ is_legal opened.now iteration entries.now) }
{
    let steps = are_steps(alloc, opened.as_slice(), entries.as_slice())?;
    let all = exchanges(alloc, entries.as_slice())?;
    let all = all.as_slice();
    Ok(steps && (stops_well(all) && iterates_well(iteration, all)))
}
