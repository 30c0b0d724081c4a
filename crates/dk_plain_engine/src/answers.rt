//! The answer to a call, and what it makes of the session's transaction.
ghost use Rattle.std.specs.Prelude.{◌≡◌, ◌≤◌, Some, None, true, length, IfOk, OnErr};
ghost use Rattle.dk_si.specs.declared.history.Asked.TheVariants as asked_variants;
ghost use Rattle.dk_si.specs.Answer.{next_receipt, answer_spent, answer_checkpoint, answer_outside};
ghost use Rattle.dk_si.specs.Database.{after_all};
ghost use Rattle.dk_si.specs.Machine.{kind_of};
ghost use Rattle.dk_si.specs.OneThread.{is_open, is_spent_alone};
ghost use Rattle.dk_si.specs.declared.limits.TheConstants.{MAX_ITERATION};
ghost use Rattle.std.specs.List.{filter};
ghost use Rattle.dk_si.specs.Spent.{committed_rows};
ghost use Rattle.dk_si.specs.Weight.{cap};
ghost use Rattle.dk_plain_engine.specs.Outcomes.{create_outcome, select_outcome, changed_outcome, rows_outcome};
ghost use Rattle.dk_plain_engine.specs.Outcomes.{net_outcome, change_outcome, meant_outcome, commit_outcome};
ghost use Rattle.dk_plain_engine.specs.Outcomes.{open_outcome, aborted_outcome, statement_outcome, outcome, call_outcome};
ghost use Rattle.dk_plain_engine.specs.Held.{row_pair};
ghost use Rattle.dk_plain_engine.specs.Still.{state_of};
ghost use Rattle.dk_plain_engine.specs.Turns.{may_lack, takes_memory};

use crate::effect::{Effect, Outcome, own_effect, refuse, stay};
use crate::held::{holder_of, least_blocked};
use crate::now::{creation_of, meaning_of, net_of, writes_of};
use crate::scene::{RowId, Scene};
use dk_plain::Inside;
use dk_plain::size::size_refusal;
use dk_si::history::Asked;
use dk_si::kind::Kind;
use dk_si::limits::{MAX_ITERATION, MAX_ROWS, MAX_TRANSACTIONS};
use dk_si::machine::{OpenTransaction, Session, Transaction, WriteSet};
use dk_si::meaning::Meaning;
use dk_types::{Commit, Exhausted, Net, OutOfMemory, Receipt, Refusal, Reply, Statement, TableNet};
use std::alloc::Global;

/// Each transaction that is open, and the one that would begin, may have so many new rows.
const OPEN_ROWS: u64 = 1 << 32;

fn is_open(session: &Session) -> bool
    ensures { result ≡ is_open session.now }
{
    matches!(session.transaction, Transaction::Open(_))
}

fn open_among(sessions: &[Session]) -> usize
    ensures { result ≡ length (filter is_open sessions.now) }
{
    sessions.iter().filter(|session| is_open(session)).count()
}

/// Whether no further transaction can begin.
pub fn is_spent(scene: &Scene<'_>) -> bool
    requires rows { scene.now.rows ≡ cap (committed_rows scene.now.log.opened.now scene.now.log.commits.now) }
    ensures { result ≡ is_spent_alone scene.now.log.opened.now (state_of scene.now.log.commits.now
        scene.now.begun scene.now.sessions.now) }
{
    let open = (open_among(scene.sessions) as u64).saturating_add(1);
    let rows = scene.rows.saturating_add(open.saturating_mul(OPEN_ROWS));
    scene.begun == MAX_TRANSACTIONS || MAX_ROWS < rows
}

/// The receipt of the next commit.
fn next_receipt(commits: &[Commit]) -> Receipt
    ensures { result ≡ next_receipt commits.now }
{
    Receipt {
        number: commits.len() as u64 + 1,
        moment: 0,
    }
}

/// The numbers of which none is left for a further transaction.
fn answer_spent(scene: &Scene<'_>) -> Reply
    requires rows { scene.now.rows ≡ cap (committed_rows scene.now.log.opened.now scene.now.log.commits.now) }
    ensures { result ≡ answer_spent scene.now.log.opened.now (state_of scene.now.log.commits.now
        scene.now.begun scene.now.sessions.now) }
{
    Reply::Refused(Refusal::Exhausted(Exhausted {
        clock: 0,
        rows: scene.rows,
        transactions: scene.begun,
        iteration: 0,
    }))
}

/// A checkpoint writes the iteration behind the last one.
fn answer_checkpoint(iteration: u64) -> Reply
    requires { iteration ≤ MAX_ITERATION }
    ensures { result ≡ answer_checkpoint iteration }
{
    if iteration < MAX_ITERATION {
        return Reply::Checkpointed {
            iteration: iteration + 1,
        };
    }
    Reply::Refused(Refusal::Exhausted(Exhausted {
        clock: 0,
        rows: 0,
        transactions: 0,
        iteration: MAX_ITERATION,
    }))
}

/// A statement outside a transaction.
fn answer_outside(scene: &Scene<'_>, iteration: u64, kind: Kind) -> Reply
    requires iteration { iteration ≤ MAX_ITERATION }
    requires rows { scene.now.rows ≡ cap (committed_rows scene.now.log.opened.now scene.now.log.commits.now) }
    ensures { result ≡ answer_outside scene.now.log.opened.now iteration (state_of
        scene.now.log.commits.now scene.now.begun scene.now.sessions.now) kind }
{
    match kind {
        Kind::Commit | Kind::Rollback => Reply::Refused(Refusal::NoTransaction),
        Kind::Checkpoint => answer_checkpoint(iteration),
        _ => answer_spent(scene),
    }
}

/// CREATE TABLE in a transaction of its own.
fn create_outcome(commits: &[Commit], meant: Meaning) -> Outcome
    ensures { result ≡ create_outcome commits.now meant }
{
    match meant {
        Meaning::Create { name, schema } => Outcome {
            reply: Reply::Created {
                receipt: next_receipt(commits),
            },
            effect: Effect::CommitThis(Commit::Create { name, schema }),
        },
        Meaning::Refused(refusal) => Outcome {
            reply: Reply::Refused(refusal),
            effect: Effect::End,
        },
        _ => Outcome {
            reply: Reply::Refused(Refusal::Unsupported),
            effect: Effect::End,
        },
    }
}

fn select_outcome(active: &OpenTransaction, meant: Meaning) -> Outcome
    ensures { result ≡ select_outcome active.now meant }
{
    match meant {
        Meaning::Rows { rows } => Outcome {
            reply: Reply::Rows { rows },
            effect: own_effect(active, Kind::Select),
        },
        Meaning::Refused(refusal) => refuse(active, Kind::Select, refusal),
        _ => refuse(active, Kind::Select, Refusal::Unsupported),
    }
}

/// A transaction that changes rows to this net.
fn changed_outcome(commits: &[Commit], active: &OpenTransaction, count: u64, net: Net) -> Outcome
    ensures { result ≡ changed_outcome commits.now active.now count net }
{
    if active.fresh && !net.is_empty() {
        let receipt = next_receipt(commits);
        return Outcome {
            reply: Reply::Changed {
                count,
                receipt: Some(receipt),
            },
            effect: Effect::CommitThis(Commit::Change { net }),
        };
    }
    let reply = Reply::Changed {
        count,
        receipt: None,
    };
    if active.fresh {
        return Outcome {
            reply,
            effect: Effect::End,
        };
    }
    Outcome {
        reply,
        effect: Effect::Keep(net),
    }
}

/// A row that is held is refused.
fn rows_outcome(
    scene: &Scene<'_>,
    active: &OpenTransaction,
    count: u64,
    net: Net,
    held: Option<RowId>,
) -> Outcome
    ensures { result ≡ rows_outcome (state_of scene.now.log.commits.now scene.now.begun
        scene.now.sessions.now) scene.now.number active.now count net (row_pair held) }
{
    let Some(at) = held else {
        return changed_outcome(scene.log.commits, active, count, net);
    };
    let refusal = Refusal::Conflict {
        table: at.table,
        row: at.row,
        by: holder_of(scene, at),
    };
    refuse(active, Kind::Change, refusal)
}

/// A change that leads to this net and updates or deletes these rows.
fn net_outcome(
    alloc: Global,
    scene: &Scene<'_>,
    active: &OpenTransaction,
    change: Change,
) -> Result<Outcome, OutOfMemory>
    ensures { IfOk result (λ outcome. outcome ≡ net_outcome (state_of scene.now.log.commits.now
        scene.now.begun scene.now.sessions.now) scene.now.number active.now change.count change.net
        change.writes) }
{
    let Change { count, net, writes } = change;
    if let Some(refusal) = size_refusal(alloc, net.as_slice())? {
        return Ok(refuse(active, Kind::Change, refusal));
    }
    let held = least_blocked(scene, active.start, &writes);
    Ok(rows_outcome(scene, active, count, net, held))
}

/// A change of so many rows, the net that it leads to, and the committed rows that it updates or deletes.
#[derive(Debug, Drop)]
struct Change {
    count: u64,
    net: Net,
    writes: Option<WriteSet>,
}

/// A change of rows, which means this in the transaction.
fn meant_outcome(
    alloc: Global,
    scene: &Scene<'_>,
    active: &OpenTransaction,
    meant: &Meaning,
) -> Result<Outcome, OutOfMemory>
    requires { scene.now.tables.now ≡ after_all scene.now.log.commits.now scene.now.log.opened.now }
    ensures { IfOk result (λ outcome. outcome ≡ meant_outcome scene.now.log.opened.now (state_of
        scene.now.log.commits.now scene.now.begun scene.now.sessions.now) scene.now.number active.now
        meant.now) }
{
    match meant {
        Meaning::Change { count, .. } => {
            let inside = Inside {
                log: scene.log,
                active,
            };
            let net = net_of(alloc, &inside, scene.tables, meant)?;
            let writes = writes_of(alloc, &inside, scene.tables, meant)?;
            let change = Change {
                count: *count,
                net,
                writes,
            };
            net_outcome(alloc, scene, active, change)
        }
        Meaning::Refused(refusal) => Ok(refuse(active, Kind::Change, *refusal)),
        _ => Ok(refuse(active, Kind::Change, Refusal::Unsupported)),
    }
}

/// COMMIT in an open transaction with that net.
fn commit_outcome(commits: &[Commit], net: &[TableNet]) -> Outcome
    ensures { result ≡ commit_outcome commits.now net.now }
{
    match net {
        [] => Outcome {
            reply: Reply::Ended,
            effect: Effect::End,
        },
        [..] => Outcome {
            reply: Reply::Committed {
                receipt: next_receipt(commits),
            },
            effect: Effect::CommitOwn,
        },
    }
}

/// A statement in an open transaction.
fn open_outcome(
    alloc: Global,
    scene: &Scene<'_>,
    active: &OpenTransaction,
    statement: &Statement,
) -> Result<Outcome, OutOfMemory>
    requires tables { scene.now.tables.now ≡ after_all scene.now.log.commits.now scene.now.log.opened.now }
    ensures ok { IfOk result (λ outcome. outcome ≡ open_outcome scene.now.log.opened.now (state_of
        scene.now.log.commits.now scene.now.begun scene.now.sessions.now) scene.now.number active.now
        statement.now (kind_of statement.now)) }
    ensures err { OnErr result (takes_memory active.now (kind_of statement.now) ≡ true) }
{
    let inside = Inside {
        log: scene.log,
        active,
    };
    match Kind::of(statement) {
        Kind::Begin if active.fresh => Ok(stay(Reply::Begun {
            start: active.start,
        })),
        Kind::Create if active.fresh => {
            let meant = creation_of(alloc, &scene.log, scene.tables, statement)?;
            Ok(create_outcome(scene.log.commits, meant))
        }
        Kind::Begin | Kind::Checkpoint | Kind::Create => {
            Ok(stay(Reply::Refused(Refusal::InTransaction)))
        }
        Kind::Commit => Ok(commit_outcome(scene.log.commits, active.net.as_slice())),
        Kind::Rollback => Ok(Outcome {
            reply: Reply::Ended,
            effect: Effect::End,
        }),
        Kind::Select => {
            let meant = meaning_of(alloc, &inside, scene.tables, statement)?;
            Ok(select_outcome(active, meant))
        }
        Kind::Change => {
            let meant = meaning_of(alloc, &inside, scene.tables, statement)?;
            meant_outcome(alloc, scene, active, &meant)
        }
    }
}

/// A statement in a transaction that was aborted.
fn aborted_outcome(kind: Kind) -> Outcome
    ensures { result ≡ aborted_outcome kind }
{
    match kind {
        Kind::Rollback => Outcome {
            reply: Reply::Ended,
            effect: Effect::End,
        },
        _ => stay(Reply::Refused(Refusal::Aborted)),
    }
}

fn statement_outcome(
    alloc: Global,
    scene: &Scene<'_>,
    iteration: u64,
    transaction: &Transaction,
    statement: &Statement,
) -> Result<Outcome, OutOfMemory>
    requires iteration { iteration ≤ MAX_ITERATION }
    requires rows { scene.now.rows ≡ cap (committed_rows scene.now.log.opened.now scene.now.log.commits.now) }
    requires tables { scene.now.tables.now ≡ after_all scene.now.log.commits.now scene.now.log.opened.now }
    ensures ok { IfOk result (λ outcome. outcome ≡ statement_outcome scene.now.log.opened.now iteration
        (state_of scene.now.log.commits.now scene.now.begun scene.now.sessions.now) scene.now.number
        transaction.now statement.now) }
    ensures err { OnErr result (may_lack transaction.now (asked_variants.Good statement.now) ≡ true) }
{
    match transaction {
        Transaction::Outside => Ok(stay(answer_outside(scene, iteration, Kind::of(statement)))),
        Transaction::Aborted => Ok(aborted_outcome(Kind::of(statement))),
        Transaction::Open(active) => open_outcome(alloc, scene, active, statement),
    }
}

/// What a call of a session in that transaction comes to, where the last iteration so far is this one.
#[tactic(auto, unfolding(crate::specs::Outcomes::call_outcome))]
pub fn outcome(
    alloc: Global,
    scene: &Scene<'_>,
    iteration: u64,
    transaction: &Transaction,
    asked: &Asked,
) -> Result<Outcome, OutOfMemory>
    requires iteration { iteration ≤ MAX_ITERATION }
    requires rows { scene.now.rows ≡ cap (committed_rows scene.now.log.opened.now scene.now.log.commits.now) }
    requires tables { scene.now.tables.now ≡ after_all scene.now.log.commits.now scene.now.log.opened.now }
    ensures ok { IfOk result (λ found. found ≡ call_outcome scene.now.log.opened.now iteration (state_of
        scene.now.log.commits.now scene.now.begun scene.now.sessions.now) scene.now.number
        transaction.now asked.now) }
    ensures err { OnErr result (may_lack transaction.now asked.now ≡ true) }
{
    match asked {
        Asked::Unread => Ok(stay(Reply::Refused(Refusal::OutOfMemory))),
        Asked::Bad { at } => Ok(stay(Reply::Refused(Refusal::Syntax { at: *at }))),
        Asked::Good(statement) => statement_outcome(
            alloc,
            scene,
            iteration,
            transaction,
            statement,
        ),
    }
}
