//! What a call may be answered by what its own session knows.
ghost use Rattle.std.specs.Prelude.{◌≡◌, ◌-◌, length, IfOk};
ghost use Rattle.dk_si.specs.Database.{after};
ghost use Rattle.dk_si.specs.Machine.{kind_of};
ghost use Rattle.dk_si.specs.Meaning.{meaning};
ghost use Rattle.dk_si.specs.Size.{size_refusal};
ghost use Rattle.dk_si.specs.ReplyTests.{is_next, is_ended, is_begun};
ghost use Rattle.dk_si.specs.MayAnswer.{checkpoint_answers, outside_answers, aborted_answers, commit_answers};
ghost use Rattle.dk_si.specs.MayAnswer.{is_meant_refusal, are_meant_rows, select_answers, is_creation};
ghost use Rattle.dk_si.specs.MayAnswer.{is_refused_from, create_answers, is_change_of, is_any_change};
ghost use Rattle.dk_si.specs.MayAnswer.{is_that_refusal, is_receipt_for, is_change_refusal, is_change_reply};
ghost use Rattle.dk_si.specs.MayAnswer.{change_answers, open_answers, statement_answers, may_answer};

use crate::held::writes_row;
use crate::refusals::{
    has_no_memory, has_no_transaction, is_aborted, is_fault, is_in_transaction, is_outside_grammar,
    is_same_refusal, is_spent, is_stopped,
};
use crate::same::same_rows;
use dk_plain::database::after;
use dk_plain::size::size_refusal;
use dk_plain::{CommitLog, Inside};
use dk_si::history::Asked;
use dk_si::kind::Kind;
use dk_si::limits::MAX_ITERATION;
use dk_si::machine::{Transaction, WriteSet};
use dk_si::meaning::Meaning;
use dk_si::replies::has_no_iteration;
use dk_states::call::{net_after, statement_meaning, write_set};
use dk_states::meaning::meaning;
use dk_types::{Commit, OutOfMemory, Receipt, Refusal, Reply, Rows, Statement, TableNet};
use std::alloc::Global;

/// What a change leads to behind these commits: its meaning, the net behind it, the rows that it updates or deletes,
/// and whether it commits.
#[derive(Clone, Copy)]
struct Outcome<'a> {
    commits: &'a [Commit],
    meant: &'a Meaning,
    net: &'a [TableNet],
    writes: &'a Option<WriteSet>,
    commits_now: bool,
}

/// A statement, and the reply that it may have.
#[derive(Clone, Copy)]
struct Answer<'a> {
    statement: &'a Statement,
    reply: &'a Reply,
}

/// A statement, and why it may be refused.
#[derive(Clone, Copy)]
struct Refused<'a> {
    statement: &'a Statement,
    refusal: &'a Refusal,
}

/// Whether the receipt has the number of the next commit.
fn is_next(commits: &[Commit], receipt: &Receipt) -> bool
    ensures { result ≡ is_next commits.now receipt.now }
{
    receipt.number == commits.len() as u64 + 1
}

fn is_ended(reply: &Reply) -> bool
    ensures { result ≡ is_ended reply.now }
{
    matches!(reply, Reply::Ended)
}

fn is_begun(start: u64, reply: &Reply) -> bool
    ensures { result ≡ is_begun start reply.now }
{
    match reply {
        Reply::Begun { start: at } => *at == start,
        _ => false,
    }
}

fn checkpoint_answers(commits: &[Commit], reply: &Reply) -> bool
    ensures { result ≡ checkpoint_answers commits.now reply.now }
{
    match reply {
        Reply::Checkpointed { iteration } => *iteration <= MAX_ITERATION,
        Reply::Refused(refusal) => {
            has_no_iteration(refusal) || (is_stopped(commits, refusal) || is_fault(refusal))
        }
        _ => false,
    }
}

/// The reply to a call outside a transaction.
fn outside_answers(commits: &[Commit], kind: Kind, reply: &Reply) -> bool
    ensures { result ≡ outside_answers commits.now kind reply.now }
{
    match kind {
        Kind::Checkpoint => checkpoint_answers(commits, reply),
        Kind::Commit | Kind::Rollback => has_no_transaction(reply),
        _ => is_spent(reply),
    }
}

/// The reply to a call in a transaction that was aborted.
fn aborted_answers(kind: Kind, reply: &Reply) -> bool
    ensures { result ≡ aborted_answers kind reply.now }
{
    match kind {
        Kind::Rollback => is_ended(reply),
        _ => is_aborted(reply),
    }
}

/// The reply to COMMIT in an open transaction with that net.
fn commit_answers(commits: &[Commit], net: &[TableNet], reply: &Reply) -> bool
    ensures { result ≡ commit_answers commits.now net.now reply.now }
{
    match net {
        [] => is_ended(reply),
        [..] => match reply {
            Reply::Committed { receipt } => is_next(commits, receipt),
            Reply::Refused(refusal) => is_stopped(commits, refusal) || is_fault(refusal),
            _ => false,
        },
    }
}

fn is_meant_refusal(meant: &Meaning, refusal: &Refusal) -> bool
    ensures { result ≡ is_meant_refusal meant.now refusal.now }
{
    match meant {
        Meaning::Refused(own) => is_same_refusal(own, refusal),
        _ => false,
    }
}

fn are_meant_rows(alloc: Global, meant: &Meaning, others: &Rows) -> Result<bool, OutOfMemory>
    ensures { IfOk result (λ so. so ≡ are_meant_rows meant.now others.now) }
{
    let Meaning::Rows { rows } = meant else {
        return Ok(false);
    };
    let rows = rows.to_list(alloc)?;
    let others = others.to_list(alloc)?;
    Ok(same_rows(rows.as_slice(), others.as_slice()))
}

/// The reply to a query.
fn select_answers(alloc: Global, meant: &Meaning, reply: &Reply) -> Result<bool, OutOfMemory>
    ensures { IfOk result (λ so. so ≡ select_answers meant.now reply.now) }
{
    match reply {
        Reply::Rows { rows } => are_meant_rows(alloc, meant, rows),
        Reply::Refused(refusal) => Ok(is_meant_refusal(meant, refusal) || is_fault(refusal)),
        _ => Ok(false),
    }
}

fn is_creation(meant: &Meaning) -> bool
    ensures { result ≡ is_creation meant.now }
{
    matches!(meant, Meaning::Create { .. })
}

/// Whether the statement is refused so in the state after n commits.
fn is_refused_at(
    alloc: Global,
    log: &CommitLog<'_>,
    n: u64,
    refused: &Refused<'_>,
) -> Result<bool, OutOfMemory>
    ensures { IfOk result (λ so. so ≡ is_refused_from log.now.opened.now log.now.commits.now
        refused.now.statement.now refused.now.refusal.now n 0) }
{
    let tables = after(alloc, log, n)?;
    let meant = meaning(alloc, tables.as_slice(), refused.statement)?;
    Ok(is_meant_refusal(&meant, refused.refusal))
}

/// Whether the statement is refused so in a state from this one to the last commit.
#[tactic(auto, using(crate::proofs::RefusedSinceLemmas::refused_on))]
fn is_refused_behind(
    alloc: Global,
    log: &CommitLog<'_>,
    start: u64,
    refused: &Refused<'_>,
) -> Result<bool, OutOfMemory>
    ensures { IfOk result (λ so. so ≡ is_refused_from log.now.opened.now log.now.commits.now
        refused.now.statement.now refused.now.refusal.now start
        (length log.now.commits.now - start)) }
{
    let more = (log.commits.len() as u64).saturating_sub(start);
    for step in 0..more {
        if is_refused_at(alloc, log, start + step, refused)? {
            return Ok(true);
        }
    }
    is_refused_at(alloc, log, start + more, refused)
}

/// Whether the statement is refused so in a state since the transaction's start.
fn is_refused_since(
    alloc: Global,
    inside: &Inside<'_>,
    refused: &Refused<'_>,
) -> Result<bool, OutOfMemory>
    ensures { IfOk result (λ so. so ≡ is_refused_from inside.now.log.opened.now
        inside.now.log.commits.now refused.now.statement.now refused.now.refusal.now
        inside.now.active.now.start
        (length inside.now.log.commits.now - inside.now.active.now.start)) }
{
    is_refused_behind(alloc, &inside.log, inside.active.start, refused)
}

/// Whether the statement makes a table in the state of the last commit.
fn creates_now(
    alloc: Global,
    log: &CommitLog<'_>,
    statement: &Statement,
) -> Result<bool, OutOfMemory>
    ensures { IfOk result (λ so. so ≡ is_creation (meaning
        (after log.now.opened.now log.now.commits.now (length log.now.commits.now)) statement.now)) }
{
    let tables = after(alloc, log, log.commits.len() as u64)?;
    let meant = meaning(alloc, tables.as_slice(), statement)?;
    Ok(is_creation(&meant))
}

/// The reply to CREATE TABLE.
fn create_answers(
    alloc: Global,
    inside: &Inside<'_>,
    answer: &Answer<'_>,
) -> Result<bool, OutOfMemory>
    ensures { IfOk result (λ so. so ≡ create_answers inside.now.log.opened.now
        inside.now.log.commits.now inside.now.active.now answer.now.statement.now
        answer.now.reply.now) }
{
    let commits = inside.log.commits;
    let statement = answer.statement;
    match answer.reply {
        Reply::Created { receipt } => {
            let creates = creates_now(alloc, &inside.log, statement)?;
            Ok(creates && is_next(commits, receipt))
        }
        Reply::Refused(refusal) => {
            let refused = is_refused_since(alloc, inside, &Refused { statement, refusal })?;
            Ok(refused || (is_stopped(commits, refusal) || is_fault(refusal)))
        }
        _ => Ok(false),
    }
}

fn is_change_of(count: u64, meant: &Meaning) -> bool
    ensures { result ≡ is_change_of count meant.now }
{
    match meant {
        Meaning::Change { count: changed, .. } => *changed == count,
        _ => false,
    }
}

fn is_any_change(meant: &Meaning) -> bool
    ensures { result ≡ is_any_change meant.now }
{
    matches!(meant, Meaning::Change { .. })
}

fn is_that_refusal(own: Option<Refusal>, refusal: &Refusal) -> bool
    ensures { result ≡ is_that_refusal own refusal.now }
{
    match own {
        None => false,
        Some(own) => is_same_refusal(&own, refusal),
    }
}

/// A statement commits for itself exactly where its net is not empty, and then has the next receipt.
fn is_receipt_for(commits: &[Commit], commits_now: bool, receipt: &Option<Receipt>) -> bool
    ensures { result ≡ is_receipt_for commits.now commits_now receipt.now }
{
    match receipt {
        None => !commits_now,
        Some(receipt) => commits_now && is_next(commits, receipt),
    }
}

/// Why a change may be refused, which leads to a net of that size.
fn is_change_refusal(outcome: &Outcome<'_>, size: Option<Refusal>, refusal: &Refusal) -> bool
    requires { size ≡ size_refusal outcome.now.net.now }
    ensures { result ≡ is_change_refusal outcome.now.commits.now outcome.now.meant.now
        outcome.now.net.now outcome.now.writes.now outcome.now.commits_now refusal.now }
{
    match refusal {
        Refusal::Conflict { table, row, .. } => writes_row(outcome.writes, *table, *row),
        Refusal::Stopped { first } => {
            outcome.commits_now && *first == outcome.commits.len() as u64 + 1
        }
        _ => {
            is_meant_refusal(outcome.meant, refusal)
                || (is_fault(refusal)
                    || (is_any_change(outcome.meant) && is_that_refusal(size, refusal)))
        }
    }
}

/// The reply to a change.
fn is_change_reply(alloc: Global, outcome: &Outcome<'_>, reply: &Reply) -> Result<bool, OutOfMemory>
    ensures { IfOk result (λ so. so ≡ is_change_reply outcome.now.commits.now outcome.now.meant.now
        outcome.now.net.now outcome.now.writes.now outcome.now.commits_now reply.now) }
{
    let size = size_refusal(alloc, outcome.net)?;
    Ok(match reply {
        Reply::Changed { count, receipt } => {
            (is_change_of(*count, outcome.meant) && size.is_none())
                && is_receipt_for(outcome.commits, outcome.commits_now, receipt)
        }
        Reply::Refused(refusal) => is_change_refusal(outcome, size, refusal),
        _ => false,
    })
}

/// The reply to INSERT, UPDATE and DELETE, whose meaning in the view is this.
fn change_answers(
    alloc: Global,
    inside: &Inside<'_>,
    meant: &Meaning,
    reply: &Reply,
) -> Result<bool, OutOfMemory>
    ensures { IfOk result (λ so. so ≡ change_answers inside.now.log.opened.now
        inside.now.log.commits.now inside.now.active.now meant.now reply.now) }
{
    let net = net_after(alloc, inside, meant)?;
    let writes = write_set(alloc, inside, meant)?;
    let outcome = Outcome {
        commits: inside.log.commits,
        meant,
        net: net.as_slice(),
        writes: &writes,
        commits_now: inside.active.fresh && !net.is_empty(),
    };
    is_change_reply(alloc, &outcome, reply)
}

/// The reply to a statement in a transaction that is open.
fn open_answers(
    alloc: Global,
    inside: &Inside<'_>,
    answer: &Answer<'_>,
) -> Result<bool, OutOfMemory>
    ensures { IfOk result (λ so. so ≡ open_answers inside.now.log.opened.now
        inside.now.log.commits.now inside.now.active.now answer.now.statement.now (kind_of
        answer.now.statement.now) answer.now.reply.now) }
{
    let Answer { statement, reply } = *answer;
    let active = inside.active;
    match Kind::of(statement) {
        Kind::Begin if active.fresh => Ok(is_begun(active.start, reply)),
        Kind::Create if active.fresh => create_answers(alloc, inside, answer),
        Kind::Begin | Kind::Checkpoint | Kind::Create => Ok(is_in_transaction(reply)),
        Kind::Commit => Ok(commit_answers(inside.log.commits, active.net.as_slice(), reply)),
        Kind::Rollback => Ok(is_ended(reply)),
        Kind::Select => {
            let meant = statement_meaning(alloc, inside, statement)?;
            select_answers(alloc, &meant, reply)
        }
        Kind::Change => {
            let meant = statement_meaning(alloc, inside, statement)?;
            change_answers(alloc, inside, &meant, reply)
        }
    }
}

/// The reply to a statement.
fn statement_answers(
    alloc: Global,
    log: &CommitLog<'_>,
    transaction: &Transaction,
    answer: &Answer<'_>,
) -> Result<bool, OutOfMemory>
    ensures { IfOk result (λ so. so ≡ statement_answers log.now.opened.now log.now.commits.now
        transaction.now answer.now.statement.now answer.now.reply.now) }
{
    let Answer { statement, reply } = *answer;
    match transaction {
        Transaction::Outside => Ok(outside_answers(log.commits, Kind::of(statement), reply)),
        Transaction::Aborted => Ok(aborted_answers(Kind::of(statement), reply)),
        Transaction::Open(active) => open_answers(alloc, &Inside { log: *log, active }, answer),
    }
}

/// The reply to a call, by what its own session knows: its transaction and the commits.
pub fn may_answer(
    alloc: Global,
    log: &CommitLog<'_>,
    transaction: &Transaction,
    asked: &Asked,
    reply: &Reply,
) -> Result<bool, OutOfMemory>
    ensures { IfOk result (λ may. may ≡ may_answer log.now.opened.now log.now.commits.now
        transaction.now asked.now reply.now) }
{
    match asked {
        Asked::Unread => Ok(has_no_memory(reply)),
        Asked::Bad { at } => Ok(is_outside_grammar(*at, reply)),
        Asked::Good(statement) => {
            statement_answers(alloc, log, transaction, &Answer { statement, reply })
        }
    }
}
