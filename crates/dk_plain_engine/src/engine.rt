//! The engine: a database in memory, and sessions whose calls are answered one at a time.
ghost use Rattle.std.specs.Prelude.{◌≡◌, ◌<◌, ◌≤◌, ◌-◌, ◌++◌, ◌&&◌, not, [], true, List, length, vec_len, vec_capacity, Some, None, IfOk, OnErr, OnOk, option_map, option_to_list, slice_get, slice_set};
ghost use Rattle.dk_si.specs.declared.history.Entry.{Entry};
ghost use Rattle.dk_si.specs.declared.limits.TheConstants.{SESSIONS, MAX_ITERATION};
ghost use Rattle.dk_si.specs.declared.machine.Session.{Session};
ghost use Rattle.dk_si.specs.Database.{after_all};
ghost use Rattle.dk_si.specs.LawfulCalls.{is_lawful_call};
ghost use Rattle.dk_si.specs.Machine.{asks_for, begins_one, is_outside, first_state, next, next_number, session_behind, session_at};
ghost use Rattle.dk_si.specs.Spent.{committed_rows};
ghost use Rattle.dk_si.specs.Weight.{cap};
ghost use Rattle.dk_alone.specs.AnswerHistory.{will_begin, begun_next, iteration_behind, transaction_at};
ghost use Rattle.dk_plain_engine.specs.Now.{entered};
ghost use Rattle.dk_plain_engine.specs.Outcomes.{transaction_after, commit_of, commits, is_conflict, call_outcome};
ghost use Rattle.dk_plain_engine.specs.Stands.{Stands, Answers, IsTurn, conflict_name, name_in, carried, outcome_in};
ghost use Rattle.dk_plain_engine.specs.Stands.{is_full, lacking, begins_in, begun_in, sessions_begun, transaction_in};
ghost use Rattle.dk_plain_engine.specs.Still.{state_of, transaction_of};
ghost use Rattle.dk_plain_engine.specs.Turns.{may_lack};

use crate::answers::{is_spent, outcome};
use crate::effect::{Behind, Effect, Outcome, carry_out, effect_rows, lack_effect};
use crate::now::enter_effect;
use crate::scene::Scene;
use dk_plain::database::view;
use dk_plain::{CommitLog, Inside};
use dk_si::database::Table;
use dk_si::history::Asked;
use dk_si::kind::Kind;
use dk_si::limits::MAX_TRANSACTIONS;
use dk_si::machine::{Machine, OpenTransaction, Session, Transaction};
use dk_states::machine::{first_state, session_behind};
use dk_types::{Bytes, Commit, Net, OutOfMemory, Refusal, Reply, TryCopy};
use std::alloc::Global;
use std::marker::Model;
use std::mem;

/// A database in memory, whose sessions have the numbers 1 to 32. Contracts see the last iteration, and the machine's
/// state between two calls.
#[derive(Drop)]
pub struct Engine {
    iteration: u64,
    commits: Vec<Commit>,
    /// The tables behind all commits.
    tables: Vec<Table>,
    /// How many rows stand in them all; the greatest number of 64 bits stands for all above.
    rows: u64,
    begun: u64,
    sessions: Vec<Session>,
}

impl Model for Engine {
    ghost use Rattle.std.specs.Prelude.{◌≡◌, ◌≤◌, [], length};
    ghost use Rattle.dk_si.specs.Database.{after_all};
    ghost use Rattle.dk_si.specs.Spent.{committed_rows};
    ghost use Rattle.dk_si.specs.Weight.{cap};
    ghost use Rattle.dk_si.specs.declared.limits.TheConstants.{SESSIONS, MAX_ITERATION};
    ghost use Rattle.dk_plain_engine.specs.contracts.state.EngineState as state;
    ghost use Rattle.dk_plain_engine.specs.declared.state.EngineState.{EngineState};
    ghost use Rattle.dk_plain_engine.specs.Still.{state_of};

    ghost Value = { EngineState };

    ghost coded = { state.the_row.coded };

    ghost view = { λ e. record {
      iteration = e.iteration;
      machine = state_of e.commits.items e.begun e.sessions.items;
    } };

    ghost invariant = { λ e. (e.iteration ≤ MAX_ITERATION) × (length e.sessions.items ≡ SESSIONS)
        × ((e.tables.items ≡ after_all e.commits.items []) × (e.rows ≡ cap (committed_rows [] e.commits.items))) };
}

/// The answer to a call.
#[derive(Debug, Drop)]
pub struct Answer {
    pub reply: Reply,
    /// The table of a conflict, by its name in the view of the transaction that is refused.
    pub name: Option<Bytes>,
}

/// Whether a call asks for a transaction where its session has none.
fn asks_to_begin(asked: &Asked) -> bool
    ensures { result ≡ asks_for begins_one (Some asked.now) }
{
    match asked {
        Asked::Good(statement) => Kind::of(statement).begins_one(),
        _ => false,
    }
}

fn is_outside(transaction: &Transaction) -> bool
    ensures { result ≡ is_outside transaction.now }
{
    matches!(transaction, Transaction::Outside)
}

/// A transaction begins where one is asked for outside one, and a further one can begin.
fn may_begin(asks: bool, outside: bool, full: bool) -> bool
    ensures { result ≡ ((asks && outside) && not full) }
{
    (asks && outside) && !full
}

fn next_number(begun: u64) -> u64
    ensures { result ≡ next_number begun }
{
    if begun < MAX_TRANSACTIONS {
        begun + 1
    } else {
        begun
    }
}

/// The transaction of the session of that number.
#[tactic(auto, using(crate::proofs::EngineLemmas::transaction_or))]
fn transaction_of(sessions: &[Session], number: u32) -> &Transaction
    requires above { 0 < number }
    requires within { number ≤ length sessions.now }
    ensures { result.now ≡ transaction_of sessions.now number }
{
    &sessions[number as usize - 1].transaction
}

/// Lets an item go.
fn discard<T: Drop>(_item: T) {}

/// Puts an item in a place.
fn put<T: Drop>(items: &mut Vec<T>, place: usize, item: T)
    requires { place < length items.old.items }
    ensures { items.new.items ≡ slice_set items.old.items place item }
{
    items[place] = item;
}

/// A session's transaction begins: it has that number, and sees so many commits.
#[tactic(auto, unfolding(crate::specs::Stands::sessions_begun))]
fn begin(sessions: &mut Vec<Session>, number: u32, transaction: u64, start: u64)
    requires above { 0 < number }
    requires within { number ≤ length sessions.old.items }
    ensures sessions { sessions.new.items ≡ sessions_begun sessions.old.items number transaction start }
    ensures length { length sessions.new.items ≡ length sessions.old.items }
{
    let alloc = *sessions.allocator();
    let place = number as usize - 1;
    let opening = Transaction::Open(OpenTransaction {
        number: transaction,
        start,
        net: Net::new(alloc),
        fresh: true,
    });
    discard(mem::replace(&mut sessions[place].transaction, opening));
}

/// Takes the transaction of a session, which has none until it is put back.
#[tactic(auto, using(crate::proofs::EngineLemmas::transaction_or, crate::proofs::EngineLemmas::set_again))]
fn take(sessions: &mut Vec<Session>, number: u32) -> Transaction
    requires above { 0 < number }
    requires within { number ≤ length sessions.old.items }
    ensures transaction { result ≡ transaction_of sessions.old.items number }
    ensures others { (session : Session) → slice_set sessions.new.items (number - 1) session
        ≡ slice_set sessions.old.items (number - 1) session }
    ensures length { length sessions.new.items ≡ length sessions.old.items }
{
    let place = number as usize - 1;
    mem::replace(&mut sessions[place].transaction, Transaction::Outside)
}

/// Makes of a session's transaction what a call comes to, and hands out what is to be committed.
fn settle(sessions: &mut Vec<Session>, number: u32, effect: Effect) -> Option<Commit>
    requires above { 0 < number }
    requires within { number ≤ length sessions.old.items }
    ensures sessions { sessions.new.items ≡ slice_set sessions.old.items (number - 1) (session_behind
        (transaction_after (transaction_of sessions.old.items number) effect) None None) }
    ensures commit { result ≡ commit_of (transaction_of sessions.old.items number) effect }
{
    let Behind {
        transaction,
        commit,
    } = carry_out(take(sessions, number), effect);
    put(
        sessions,
        number as usize - 1,
        session_behind(transaction, None, None),
    );
    commit
}

/// Adds a commit, if there is one, in room that was reserved.
fn push_commit(commits: &mut Vec<Commit>, commit: Option<Commit>)
    requires { vec_len commits.old < vec_capacity commits.old }
    ensures { commits.new.items ≡ commits.old.items ++ option_to_list commit }
{
    if let Some(commit) = commit {
        commits.push_reserved(commit);
    }
}

/// The iteration behind a reply.
fn iteration_behind(iteration: u64, reply: &Reply) -> u64
    ensures { result ≡ iteration_behind iteration reply.now }
{
    match reply {
        Reply::Checkpointed { iteration } => *iteration,
        _ => iteration,
    }
}

/// Carries out what a call comes to that is no commit.
fn carry_in_place(
    iteration: &mut u64,
    sessions: &mut Vec<Session>,
    number: u32,
    outcome: Outcome,
) -> Reply
    requires above { 0 < number }
    requires within { number ≤ length sessions.old.items }
    ensures iteration { iteration.new ≡ iteration_behind iteration.old outcome.reply }
    ensures sessions { sessions.new.items ≡ slice_set sessions.old.items (number - 1) (session_behind
        (transaction_after (transaction_of sessions.old.items number) outcome.effect) None None) }
    ensures reply { result ≡ outcome.reply }
{
    let Outcome { reply, effect } = outcome;
    *iteration = iteration_behind(*iteration, &reply);
    discard(settle(sessions, number, effect));
    reply
}

/// Takes the room of a commit, and makes its changes of the tables.
fn reserve(
    commits: &mut Vec<Commit>,
    tables: &mut Vec<Table>,
    transaction: &Transaction,
    effect: &Effect,
) -> Result<(), OutOfMemory>
    ensures commits { commits.new.items ≡ commits.old.items }
    ensures room { OnOk result (vec_len commits.new < vec_capacity commits.new) }
    ensures ok { OnOk result (tables.new.items ≡ entered (commit_of transaction.now effect.now)
        tables.old.items) }
    ensures err { OnErr result (tables.new.items ≡ tables.old.items) }
{
    let alloc = *commits.allocator();
    commits.reserve(1)?;
    enter_effect(tables, alloc, transaction, effect)
}

/// Carries out what a call comes to, in room that was reserved.
fn carry_reserved(
    iteration: &mut u64,
    commits: &mut Vec<Commit>,
    sessions: &mut Vec<Session>,
    number: u32,
    outcome: Outcome,
) -> Reply
    requires above { 0 < number }
    requires within { number ≤ length sessions.old.items }
    requires room { vec_len commits.old < vec_capacity commits.old }
    ensures iteration { iteration.new ≡ iteration_behind iteration.old outcome.reply }
    ensures commits { commits.new.items ≡ commits.old.items ++ option_to_list (commit_of
        (transaction_of sessions.old.items number) outcome.effect) }
    ensures sessions { sessions.new.items ≡ slice_set sessions.old.items (number - 1) (session_behind
        (transaction_after (transaction_of sessions.old.items number) outcome.effect) None None) }
    ensures reply { result ≡ outcome.reply }
{
    let Outcome { reply, effect } = outcome;
    *iteration = iteration_behind(*iteration, &reply);
    let commit = settle(sessions, number, effect);
    push_commit(commits, commit);
    reply
}

/// The name of the table at a place, if there is one.
fn name_at(tables: &[Table], place: u32) -> Result<Option<Bytes>, OutOfMemory>
    ensures { IfOk result (λ name. name ≡ option_map (λ found. found.name) (slice_get tables.now place)) }
{
    match tables.get(place as usize) {
        None => Ok(None),
        Some(table) => Ok(Some(table.name.copy()?)),
    }
}

/// The table of a conflict, by its name in the view of the transaction.
#[tactic(auto, unfolding(crate::specs::Stands::conflict_name))]
fn conflict_name(
    alloc: Global,
    scene: &Scene<'_>,
    transaction: &Transaction,
    reply: &Reply,
) -> Result<Option<Bytes>, OutOfMemory>
    requires { scene.now.log.opened.now ≡ [] }
    ensures ok { IfOk result (λ name. name ≡ conflict_name (state_of scene.now.log.commits.now
        scene.now.begun scene.now.sessions.now) transaction.now reply.now) }
    ensures err { OnErr result (is_conflict reply.now ≡ true) }
{
    let (Transaction::Open(active), Reply::Refused(Refusal::Conflict { table, .. })) = (
        transaction,
        reply,
    ) else {
        return Ok(None);
    };
    let inside = Inside {
        log: scene.log,
        active,
    };
    let tables = view(alloc, &inside)?;
    name_at(tables.as_slice(), *table)
}

/// What a call comes to, with the name of the table of its conflict.
#[derive(Debug, Drop)]
struct Found {
    outcome: Outcome,
    name: Option<Bytes>,
}

impl Engine {
    /// An empty database at its first iteration, whose sessions have no transaction.
    #[tactic(auto, using(crate::proofs::StandLemmas::stands_first))]
    pub fn new(alloc: Global) -> Result<Engine, OutOfMemory>
        ensures { IfOk result (λ engine. Stands engine []) }
    {
        let Machine {
            commits,
            begun,
            sessions,
        } = first_state(alloc)?;
        Ok(Engine {
            iteration: 1,
            commits: commits.into_vec(),
            tables: Vec::new(alloc),
            rows: 0,
            begun,
            sessions: sessions.into_vec(),
        })
    }

    fn scene(&self, number: u32) -> Scene<'_>
        ensures opened { result.log.opened.now ≡ [] }
        ensures machine { state_of result.log.commits.now result.begun result.sessions.now
            ≡ self.now.machine }
        ensures tables { result.tables.now ≡ after_all result.log.commits.now result.log.opened.now }
        ensures rows { result.rows ≡ cap (committed_rows result.log.opened.now result.log.commits.now) }
        ensures number { result.number ≡ number }
    {
        let log = CommitLog {
            opened: &[],
            commits: self.commits.as_slice(),
        };
        Scene {
            log,
            tables: self.tables.as_slice(),
            rows: self.rows,
            sessions: self.sessions.as_slice(),
            begun: self.begun,
            number,
        }
    }

    /// Whether no further transaction can begin.
    #[tactic(auto, unfolding(crate::specs::Stands::is_full))]
    fn is_full(&self) -> bool
        ensures { result ≡ is_full [] self.now.machine }
    {
        is_spent(&self.scene(0))
    }

    /// Whether a transaction begins with a call.
    #[tactic(auto, using(crate::proofs::EngineLemmas::begins_from))]
    fn will_begin(&self, number: u32, asked: &Asked) -> bool
        requires above { 0 < number }
        requires within { number ≤ SESSIONS }
        ensures { result ≡ begins_in self.now.machine number asked.now }
    {
        let outside = is_outside(transaction_of(self.sessions.as_slice(), number));
        may_begin(asks_to_begin(asked), outside, self.is_full())
    }

    /// Begins the transaction of a call, where it makes one.
    #[tactic(auto, using(crate::proofs::EngineLemmas::begun_now, crate::proofs::EngineLemmas::begun_never))]
    fn begin_for(&mut self, number: u32, asked: &Asked)
        requires above { 0 < number }
        requires within { number ≤ SESSIONS }
        ensures { self.new ≡ begun_in self.old number asked.now }
    {
        if self.will_begin(number, asked) {
            let start = self.commits.len() as u64;
            begin(&mut self.sessions, number, self.begun, start);
            self.begun = next_number(self.begun);
        }
    }

    /// What a call comes to.
    #[tactic(auto, using(crate::proofs::EngineLemmas::conflict_may))]
    fn find(&self, number: u32, asked: &Asked) -> Result<Found, OutOfMemory>
        requires above { 0 < number }
        requires within { number ≤ SESSIONS }
        ensures iteration { self.now.iteration ≤ MAX_ITERATION }
        ensures outcome { IfOk result (λ found. found.outcome ≡ outcome_in self.now number asked.now) }
        ensures name { IfOk result (λ found. found.name ≡ conflict_name self.now.machine
            (transaction_in self.now number) found.outcome.reply) }
        ensures err { OnErr result (may_lack (transaction_in self.now number) asked.now
            ≡ true) }
    {
        let alloc = *self.commits.allocator();
        let scene = self.scene(number);
        let transaction = transaction_of(self.sessions.as_slice(), number);
        let outcome = outcome(alloc, &scene, self.iteration, transaction, asked)?;
        match conflict_name(alloc, &scene, transaction, &outcome.reply) {
            Ok(name) => Ok(Found { outcome, name }),
            Err(_) => {
                discard(outcome);
                Err(OutOfMemory)
            }
        }
    }

    /// Carries out what a call comes to.
    #[tactic(auto, unfolding(crate::specs::Stands::carried), using(crate::proofs::OutcomeLemmas::none_committed))]
    fn carry(&mut self, number: u32, outcome: Outcome) -> Result<Reply, OutOfMemory>
        requires above { 0 < number }
        requires within { number ≤ SESSIONS }
        requires iteration { iteration_behind self.old.iteration outcome.reply ≤ MAX_ITERATION }
        ensures reply { IfOk result (λ reply. reply ≡ outcome.reply) }
        ensures ok { OnOk result (self.new ≡ carried self.old number
            (transaction_in self.old number) outcome) }
        ensures err { OnErr result (self.new ≡ self.old) }
        ensures commits { OnErr result (commits outcome.effect ≡ true) }
    {
        if !outcome.effect.commits() {
            return Ok(carry_in_place(&mut self.iteration, &mut self.sessions, number, outcome));
        }
        let transaction = transaction_of(self.sessions.as_slice(), number);
        let rows = effect_rows(transaction, &outcome.effect);
        match reserve(
            &mut self.commits,
            &mut self.tables,
            transaction,
            &outcome.effect,
        ) {
            Ok(()) => {
                self.rows = self.rows.saturating_add(rows);
                Ok(carry_reserved(
                    &mut self.iteration,
                    &mut self.commits,
                    &mut self.sessions,
                    number,
                    outcome,
                ))
            }
            Err(_) => {
                discard(outcome);
                Err(OutOfMemory)
            }
        }
    }

    /// Answers a call whose transaction has begun, if memory does not want.
    #[tactic(auto, using(crate::proofs::EngineLemmas::commit_may, crate::proofs::EngineLemmas::next_within))]
    fn answer(&mut self, number: u32, asked: &Asked) -> Result<Answer, OutOfMemory>
        requires above { 0 < number }
        requires within { number ≤ SESSIONS }
        ensures reply { IfOk result (λ answer. answer.reply ≡ (outcome_in self.old number asked.now).reply) }
        ensures name { IfOk result (λ answer. answer.name ≡ conflict_name self.old.machine
            (transaction_in self.old number) answer.reply) }
        ensures ok { OnOk result (self.new ≡ carried self.old number
            (transaction_in self.old number) (outcome_in self.old number asked.now)) }
        ensures err { OnErr result (self.new ≡ self.old) }
        ensures lacks { OnErr result (may_lack (transaction_in self.old number) asked.now
            ≡ true) }
    {
        let Found { outcome, name } = self.find(number, asked)?;
        let reply = self.carry(number, outcome)?;
        Ok(Answer { reply, name })
    }

    /// Refuses a call for want of memory.
    #[tactic(auto, unfolding(crate::specs::Stands::lacking))]
    fn lack(&mut self, number: u32, asked: &Asked) -> Answer
        requires above { 0 < number }
        requires within { number ≤ SESSIONS }
        ensures reply { result.reply ≡ Reply.Refused Refusal.OutOfMemory }
        ensures name { result.name ≡ None }
        ensures state { self.new ≡ lacking self.old number
            (transaction_in self.old number) asked.now }
    {
        let effect = lack_effect(transaction_of(self.sessions.as_slice(), number), asked);
        discard(settle(&mut self.sessions, number, effect));
        Answer {
            reply: Reply::Refused(Refusal::OutOfMemory),
            name: None,
        }
    }

    /// Answers a call.
    #[tactic(auto, using(crate::proofs::EngineLemmas::answered_turn, crate::proofs::EngineLemmas::lacked_turn))]
    fn turn(&mut self, number: u32, asked: &Asked) -> Answer
        requires above { 0 < number }
        requires within { number ≤ SESSIONS }
        ensures { IsTurn self.old self.new number asked.now result.reply result.name }
    {
        self.begin_for(number, asked);
        match self.answer(number, asked) {
            Ok(answer) => answer,
            Err(_) => self.lack(number, asked),
        }
    }

    /// Answers a session's call, which a text can make: as the machine answers it, or by want of memory where memory may
    /// want. Behind it the engine stands behind the entries so far and those of the call.
    pub fn run(&mut self, session: u32, asked: Asked) -> Answer
        requires above { 0 < session }
        requires within { session ≤ SESSIONS }
        ensures { is_lawful_call asked ≡ true → (entries : List Entry) → Stands self.old entries
            → Answers self.new entries session asked result.reply result.name }
    {
        let answer = self.turn(session, &asked);
        discard(asked);
        answer
    }
}
