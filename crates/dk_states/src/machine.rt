//! The machine's state behind each entry.
ghost use Rattle.std.specs.Prelude.{◌≡◌, ◌+◌, ◌^◌, ◌<◌, Some, None, IfOk, OnOk, IsSome};
ghost use Rattle.std.proofs.Math.ListN.{replicate};
ghost use Rattle.std.specs.Option.{option_copied};
ghost use Rattle.dk_types.specs.declared.net.Commit.TheVariants as commit_variants;
ghost use Rattle.dk_si.specs.Machine.{asks_for, idle, first_state, session_at, with_session, stay_open, end_with};
ghost use Rattle.dk_si.specs.Machine.{is_own, end_own, aborts, refusal_transition, meaning_now, creation};
ghost use Rattle.dk_si.specs.Machine.{change_transition, transition, last_transaction, session_behind, after_aborted};
ghost use Rattle.dk_si.specs.Machine.{after_call, after_begin, after_reply, after_open_reply, next};

use crate::call::{asks_for_own, kind_in, net_behind, write_set_in_flight};
use crate::meaning::meaning;
use dk_plain::database::after;
use dk_plain::{CommitLog, Inside};
use dk_si::database::Table;
use dk_si::history::{Asked, Entry};
use dk_si::kind::Kind;
use dk_si::limits::{MAX_TRANSACTIONS, SESSIONS};
use dk_si::machine::{
    LastTransaction, Machine, OpenTransaction, Session, Transaction, Transition, WriteSet,
};
use dk_si::meaning::Meaning;
use dk_types::{Commit, List, Net, OutOfMemory, Receipt, Refusal, Reply, TryCopy};
use std::alloc::Global;

fn idle() -> Session
    ensures { result ≡ idle }
{
    Session {
        transaction: Transaction::Outside,
        asked: None,
        writes: None,
        last: None,
    }
}

/// The transaction stays open, and was not begun by the next call.
fn stay_open(active: &OpenTransaction, net: Net) -> Result<Transition, OutOfMemory>
    ensures { IfOk result (λ after. after ≡ stay_open active.now net) }
{
    Ok(Transition {
        transaction: Transaction::Open(OpenTransaction {
            number: active.number,
            start: active.start,
            net: net.copy()?,
            fresh: false,
        }),
        commit: None,
        net,
    })
}

/// The transaction is over.
fn end_with(net: Net, commit: Option<Commit>) -> Transition
    ensures { result ≡ end_with net commit }
{
    Transition {
        transaction: Transaction::Outside,
        commit,
        net,
    }
}

/// Whether the statement in flight began the transaction for itself.
fn is_own(active: &OpenTransaction, asked: &Option<Asked>) -> bool
    ensures { result ≡ is_own active.now asked.now }
{
    active.fresh && asks_for_own(asked)
}

fn end_own(active: &OpenTransaction, asked: &Option<Asked>) -> Result<Transition, OutOfMemory>
    ensures { IfOk result (λ after. after ≡ end_own active.now asked.now) }
{
    let net = active.net.copy()?;
    if is_own(active, asked) {
        return Ok(end_with(net, None));
    }
    stay_open(active, net)
}

/// Whether a refusal of a call of that kind aborts its transaction.
fn aborts(refusal: &Refusal, kind: Kind) -> bool
    ensures { result ≡ aborts refusal.now kind }
{
    match refusal {
        Refusal::Conflict { .. } => true,
        Refusal::DiskFault { .. } => matches!(kind, Kind::Commit | Kind::Change),
        Refusal::Damaged(_) | Refusal::OutOfMemory => matches!(kind, Kind::Change),
        _ => false,
    }
}

fn aborts_asked(refusal: &Refusal, asked: &Option<Asked>) -> bool
    ensures { result ≡ asks_for (aborts refusal.now) asked.now }
{
    match kind_in(asked) {
        None => false,
        Some(kind) => aborts(refusal, kind),
    }
}

fn refusal_transition(
    active: &OpenTransaction,
    asked: &Option<Asked>,
    refusal: &Refusal,
) -> Result<Transition, OutOfMemory>
    ensures { IfOk result (λ after. after ≡ refusal_transition active.now asked.now refusal.now) }
{
    let net = active.net.copy()?;
    if is_own(active, asked) {
        return Ok(end_with(net, None));
    }
    if aborts_asked(refusal, asked) {
        return Ok(Transition {
            transaction: Transaction::Aborted,
            commit: None,
            net,
        });
    }
    stay_open(active, net)
}

/// What a call means in the state of the last commit, at which a CREATE TABLE looks.
fn meaning_now(
    alloc: Global,
    log: &CommitLog<'_>,
    asked: &Option<Asked>,
) -> Result<Meaning, OutOfMemory>
    ensures { IfOk result (λ meant. meant ≡ meaning_now log.now.opened.now log.now.commits.now
        asked.now) }
{
    let Some(Asked::Good(statement)) = asked else {
        return Ok(Meaning::Nothing);
    };
    let tables = after(alloc, log, log.commits.len() as u64)?;
    meaning(alloc, tables.as_slice(), statement)
}

/// The commit of a new table.
fn creation(meant: Meaning) -> Option<Commit>
    ensures { result ≡ creation meant }
{
    match meant {
        Meaning::Create { name, schema } => Some(Commit::Create { name, schema }),
        _ => None,
    }
}

/// A changed net is kept, or committed where the reply has a receipt.
fn change_transition(
    active: &OpenTransaction,
    asked: &Option<Asked>,
    net: Net,
    receipt: &Option<Receipt>,
) -> Result<Transition, OutOfMemory>
    ensures { IfOk result (λ after. after ≡ change_transition active.now asked.now net receipt.now) }
{
    if receipt.is_some() {
        let commit = Commit::Change { net: net.copy()? };
        return Ok(end_with(net, Some(commit)));
    }
    if is_own(active, asked) {
        return Ok(end_with(net, None));
    }
    stay_open(active, net)
}

/// What a reply makes of an open transaction.
pub fn transition(
    alloc: Global,
    inside: &Inside<'_>,
    asked: &Option<Asked>,
    reply: &Reply,
) -> Result<Transition, OutOfMemory>
    ensures { IfOk result (λ after. after ≡ transition inside.now.log.opened.now
        inside.now.log.commits.now inside.now.active.now asked.now reply.now) }
{
    let active = inside.active;
    match reply {
        Reply::Created { .. } => {
            let meant = meaning_now(alloc, &inside.log, asked)?;
            Ok(end_with(active.net.copy()?, creation(meant)))
        }
        Reply::Changed { receipt, .. } => {
            let net = net_behind(alloc, inside, asked)?;
            change_transition(active, asked, net, receipt)
        }
        Reply::Rows { .. } => end_own(active, asked),
        Reply::Begun { .. } | Reply::Checkpointed { .. } => stay_open(active, active.net.copy()?),
        Reply::Committed { .. } => commit_net(active),
        Reply::Ended => Ok(end_with(active.net.copy()?, None)),
        Reply::Refused(refusal) => refusal_transition(active, asked, refusal),
    }
}

/// The transaction's net is committed.
fn commit_net(active: &OpenTransaction) -> Result<Transition, OutOfMemory>
    ensures { IfOk result (λ after. after ≡ end_with active.now.net (Some (commit_variants.Change
        active.now.net))) }
{
    let net = active.net.copy()?;
    Ok(end_with(active.net.copy()?, Some(Commit::Change { net })))
}

/// The session's last transaction, if the entry that ended it is this one, behind so many commits.
pub fn last_transaction(
    number: u64,
    transaction: &Transaction,
    commit: &Option<Commit>,
    net: Net,
    commits: usize,
) -> Option<LastTransaction>
    requires { commits + 1 < 2 ^ 64 }
    ensures { result ≡ last_transaction number transaction.now commit.now net commits }
{
    match transaction {
        Transaction::Open(_) => None,
        Transaction::Outside => {
            let commit = match commit {
                None => None,
                Some(_) => Some(commits as u64 + 1),
            };
            Some(LastTransaction {
                number,
                net,
                commit,
            })
        }
        Transaction::Aborted => Some(LastTransaction {
            number,
            net,
            commit: None,
        }),
    }
}

/// A session after a reply.
pub fn session_behind(
    transaction: Transaction,
    writes: Option<WriteSet>,
    last: Option<LastTransaction>,
) -> Session
    ensures { result ≡ session_behind transaction writes last }
{
    Session {
        transaction,
        asked: None,
        writes,
        last,
    }
}

/// A transaction that is aborted ends by a ROLLBACK.
pub fn after_aborted(reply: &Reply) -> Transaction
    ensures { result ≡ after_aborted reply.now }
{
    match reply {
        Reply::Ended => Transaction::Outside,
        _ => Transaction::Aborted,
    }
}

/// So many sessions before their first calls.
fn idle_sessions(alloc: Global, count: usize) -> Result<List<Session>, OutOfMemory>
    ensures { IfOk result (λ sessions. sessions ≡ replicate count idle) }
{
    let mut sessions = List::new(alloc);
    'sessions: for _number in 0..count {
        sessions.push(idle())?;
    }
    Ok(sessions)
}

/// The machine before the first entry.
pub fn first_state(alloc: Global) -> Result<Machine, OutOfMemory>
    ensures { IfOk result (λ machine. machine ≡ first_state) }
{
    let sessions = idle_sessions(alloc, SESSIONS)?;
    Ok(Machine {
        commits: List::new(alloc),
        begun: 0,
        sessions,
    })
}

/// The session of that number, counted from 1.
pub fn session_at(machine: &Machine, number: u32) -> Option<&Session>
    ensures { option_copied result ≡ session_at machine.now.sessions number }
{
    if number == 0 {
        return None;
    }
    machine.sessions.as_slice().get(number as usize - 1)
}

fn put_session(machine: &mut Machine, number: u32, session: Session)
    requires { IsSome (session_at machine.old.sessions number) }
    ensures { machine.new ≡ with_session machine.old number session }
{
    let place = number as usize - 1;
    machine.sessions.set(place, session);
}

/// A call is in flight, and what its session's last transaction held is let go.
fn call(machine: &mut Machine, number: u32, asked: &Asked) -> Result<(), OutOfMemory>
    ensures { OnOk result (machine.new ≡ elim (session_at machine.old.sessions number) [
      | None ↦ machine.old
      | Some before ↦ after_call machine.old number asked.now before
    ]) }
{
    let Some(before) = session_at(machine, number) else {
        return Ok(());
    };
    let session = Session {
        transaction: before.transaction.copy()?,
        asked: Some(asked.copy()?),
        writes: before.writes.copy()?,
        last: None,
    };
    put_session(machine, number, session);
    Ok(())
}

/// A session's transaction begins.
fn begin(
    machine: &mut Machine,
    alloc: Global,
    number: u32,
    transaction: u64,
    start: u64,
) -> Result<(), OutOfMemory>
    ensures { OnOk result (machine.new ≡ elim (session_at machine.old.sessions number) [
      | None ↦ machine.old
      | Some before ↦ after_begin machine.old number transaction start before
    ]) }
{
    let Some(before) = session_at(machine, number) else {
        return Ok(());
    };
    let active = OpenTransaction {
        number: transaction,
        start,
        net: Net::new(alloc),
        fresh: true,
    };
    let session = Session {
        transaction: Transaction::Open(active),
        asked: before.asked.copy()?,
        writes: before.writes.copy()?,
        last: before.last.copy()?,
    };
    put_session(machine, number, session);
    if machine.begun < MAX_TRANSACTIONS {
        machine.begun += 1;
    }
    Ok(())
}

/// A session's call in flight is answered.
fn reply_to(
    machine: &mut Machine,
    alloc: Global,
    opened: &[Table],
    number: u32,
    reply: &Reply,
) -> Result<(), OutOfMemory>
    ensures { OnOk result (machine.new ≡ elim (session_at machine.old.sessions number) [
      | None ↦ machine.old
      | Some before ↦ after_reply opened.now machine.old number before reply.now
    ]) }
{
    let Some(before) = session_at(machine, number) else {
        return Ok(());
    };
    let commits = machine.commits.as_slice();
    let log = CommitLog { opened, commits };
    match &before.transaction {
        Transaction::Outside => {
            let session = session_behind(Transaction::Outside, None, None);
            put_session(machine, number, session);
        }
        Transaction::Aborted => {
            let session = session_behind(after_aborted(reply), None, None);
            put_session(machine, number, session);
        }
        Transaction::Open(active) => {
            let inside = Inside { log, active };
            let after = transition(alloc, &inside, &before.asked, reply)?;
            let writes = write_set_in_flight(alloc, &log, &before.transaction, &before.asked)?;
            let Transition {
                transaction,
                commit,
                net,
            } = after;
            let last = last_transaction(active.number, &transaction, &commit, net, commits.len());
            put_session(machine, number, session_behind(transaction, writes, last));
            if let Some(commit) = commit {
                machine.commits.push(commit)?;
            }
        }
    }
    Ok(())
}

/// Makes of the machine what an entry makes of it.
pub fn next(
    machine: &mut Machine,
    alloc: Global,
    opened: &[Table],
    entry: &Entry,
) -> Result<(), OutOfMemory>
    ensures { OnOk result (machine.new ≡ next opened.now machine.old entry.now) }
{
    match entry {
        Entry::Call { session, asked } => call(machine, *session, asked),
        Entry::Begun {
            session,
            number,
            start,
        } => begin(machine, alloc, *session, *number, *start),
        Entry::Reply { session, reply } => reply_to(machine, alloc, opened, *session, reply),
    }
}
