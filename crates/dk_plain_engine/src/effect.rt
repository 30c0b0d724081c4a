//! What a call comes to, and what that makes of a transaction. Nothing here takes memory.
ghost use Rattle.std.specs.Prelude.{◌≡◌, false, Some, None};
ghost use Rattle.dk_si.specs.declared.kind.Kind.TheVariants as kind;
ghost use Rattle.dk_si.specs.Machine.{aborts};
ghost use Rattle.dk_si.specs.Spent.{new_rows_of};
ghost use Rattle.dk_si.specs.Weight.{cap};
ghost use Rattle.dk_plain_engine.specs.Now.{rows_entered};
ghost use Rattle.dk_plain_engine.specs.Outcomes.{open_after, aborted_after, transaction_after, open_commit, commit_of};
ghost use Rattle.dk_plain_engine.specs.Outcomes.{commits, own_effect, refusal_effect, stay, refuse, lack_effect};

use dk_plain::weights::new_rows;
use dk_si::history::Asked;
use dk_si::kind::Kind;
use dk_si::machine::{OpenTransaction, Transaction};
use dk_types::{Commit, Net, Refusal, Reply};

/// What a reply makes of the transaction that its session has open.
#[derive(Debug, Drop)]
pub enum Effect {
    /// It goes on as it was.
    Stay,
    /// It goes on with this net.
    Keep(Net),
    /// It is over, and nothing of it is committed.
    End,
    /// Only a ROLLBACK ends it.
    Abort,
    /// It is over, and its net is committed.
    CommitOwn,
    /// It is over, and this is committed.
    CommitThis(Commit),
}

/// The reply to a call, and what it makes of its session's transaction.
#[derive(Debug, Drop)]
pub struct Outcome {
    pub reply: Reply,
    pub effect: Effect,
}

/// A transaction behind an effect, and the commit that it is.
#[derive(Debug, Drop)]
pub struct Behind {
    pub transaction: Transaction,
    pub commit: Option<Commit>,
}

impl Effect {
    /// Whether it is a commit.
    pub fn commits(&self) -> bool
        ensures { result ≡ commits self.now }
    {
        matches!(self, Effect::CommitOwn | Effect::CommitThis(_))
    }
}

/// An open transaction goes on.
fn go_on(active: OpenTransaction, net: Net) -> Transaction
    ensures { result ≡ Transaction.Open (record active { net = net; fresh = false }) }
{
    Transaction::Open(OpenTransaction {
        number: active.number,
        start: active.start,
        net,
        fresh: false,
    })
}

fn open_after(active: OpenTransaction, effect: Effect) -> Transaction
    ensures { result ≡ open_after active effect }
{
    match effect {
        Effect::Stay => Transaction::Open(OpenTransaction {
            fresh: false,
            ..active
        }),
        Effect::Keep(net) => go_on(active, net),
        Effect::Abort => Transaction::Aborted,
        Effect::End | Effect::CommitOwn | Effect::CommitThis(_) => Transaction::Outside,
    }
}

fn aborted_after(effect: &Effect) -> Transaction
    ensures { result ≡ aborted_after effect.now }
{
    match effect {
        Effect::End => Transaction::Outside,
        _ => Transaction::Aborted,
    }
}

/// An open transaction behind an effect.
fn open_behind(active: OpenTransaction, effect: Effect) -> Behind
    ensures transaction { result.transaction ≡ open_after active effect }
    ensures commit { result.commit ≡ open_commit active effect }
{
    match effect {
        Effect::CommitOwn => Behind {
            transaction: Transaction::Outside,
            commit: Some(Commit::Change { net: active.net }),
        },
        Effect::CommitThis(commit) => Behind {
            transaction: Transaction::Outside,
            commit: Some(commit),
        },
        other => Behind {
            transaction: open_after(active, other),
            commit: None,
        },
    }
}

/// A transaction behind an effect.
pub fn carry_out(transaction: Transaction, effect: Effect) -> Behind
    ensures transaction { result.transaction ≡ transaction_after transaction effect }
    ensures commit { result.commit ≡ commit_of transaction effect }
{
    match transaction {
        Transaction::Outside => Behind {
            transaction: Transaction::Outside,
            commit: None,
        },
        Transaction::Aborted => Behind {
            transaction: aborted_after(&effect),
            commit: None,
        },
        Transaction::Open(active) => open_behind(active, effect),
    }
}

/// Whether a refusal of a call of that kind aborts its transaction.
fn aborts(refusal: &Refusal, kind: Kind) -> bool
    ensures { result ≡ aborts refusal.now kind }
{
    match refusal {
        Refusal::Conflict { .. } => true,
        Refusal::DiskFault { .. } => matches!(kind, Kind::Commit | Kind::Change),
        Refusal::Damaged(_) | Refusal::OutOfMemory => matches!(kind, Kind::Change),
        _ => false,
    }
}

/// A transaction that its statement began for itself is over with it.
pub fn own_effect(active: &OpenTransaction, kind: Kind) -> Effect
    ensures { result ≡ own_effect active.now kind }
{
    if active.fresh && kind.has_own() {
        Effect::End
    } else {
        Effect::Stay
    }
}

fn refusal_effect(active: &OpenTransaction, kind: Kind, refusal: &Refusal) -> Effect
    ensures { result ≡ refusal_effect active.now kind refusal.now }
{
    if active.fresh && kind.has_own() {
        return Effect::End;
    }
    if aborts(refusal, kind) {
        return Effect::Abort;
    }
    Effect::Stay
}

/// A reply that leaves the transaction as it is.
pub fn stay(reply: Reply) -> Outcome
    ensures { result ≡ stay reply }
{
    Outcome {
        reply,
        effect: Effect::Stay,
    }
}

/// A refusal of a statement of that kind in an open transaction.
pub fn refuse(active: &OpenTransaction, kind: Kind, refusal: Refusal) -> Outcome
    ensures { result ≡ refuse active.now kind refusal }
{
    Outcome {
        effect: refusal_effect(active, kind, &refusal),
        reply: Reply::Refused(refusal),
    }
}

/// What want of memory makes of a transaction.
pub fn lack_effect(transaction: &Transaction, asked: &Asked) -> Effect
    ensures { result ≡ lack_effect transaction.now asked.now }
{
    let (Transaction::Open(active), Asked::Good(statement)) = (transaction, asked) else {
        return Effect::Stay;
    };
    refusal_effect(active, Kind::of(statement), &Refusal::OutOfMemory)
}

/// How many new rows a commit has; the greatest number of 64 bits stands for all above.
fn commit_rows(commit: &Commit) -> u64
    ensures { result ≡ cap (new_rows_of commit.now) }
{
    match commit {
        Commit::Create { .. } => 0,
        Commit::Change { net } => new_rows(net.as_slice()),
    }
}

/// How many new rows an effect on a transaction commits; the greatest number of 64 bits stands for all above.
pub fn effect_rows(transaction: &Transaction, effect: &Effect) -> u64
    ensures { result ≡ cap (rows_entered (commit_of transaction.now effect.now)) }
{
    let Transaction::Open(active) = transaction else {
        return 0;
    };
    match effect {
        Effect::CommitOwn => new_rows(active.net.as_slice()),
        Effect::CommitThis(commit) => commit_rows(commit),
        _ => 0,
    }
}
