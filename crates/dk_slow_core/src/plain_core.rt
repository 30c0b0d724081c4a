//! The core itself.
ghost use Rattle.std.specs.Prelude.{◌≡◌, ◌+◌, ◌^◌, ◌<◌, ◌≤◌, ◌++◌, ◌∷◌, [], ℕ, true, Some, None, length, option_map, slice_set, IfOk, OnOk, OnErr};
ghost use Rattle.dk_types.specs.declared.vector.VectorId.{VectorId};
ghost use Rattle.dk_core.specs.declared.event.Done.TheVariants as done_variants;
ghost use Rattle.dk_core.specs.declared.event.Event.TheVariants as event;
ghost use Rattle.dk_core.specs.Allows.{is_bound};
ghost use Rattle.dk_core.specs.Core.{first_core, no_seat, seat_at, next_snapshot, next_receipt};
ghost use Rattle.dk_core.specs.Findings.{is_full, spent_numbers, conflict};
ghost use Rattle.dk_core.specs.Layout.{groups_of, rows_in, with_rows};
ghost use Rattle.dk_core.specs.Step.{seat_after_reply, without_oldest, without_newest};
ghost use Rattle.dk_slow_core.specs.Moves.{entered, core_behind, committed, placed, FitsIn};
ghost use Rattle.dk_slow_core.specs.Outcomes.{begin_outcome, change_outcome, numbered, point_outcome, refusal_outcome};
ghost use Rattle.dk_slow_seats.specs.Seats.{seats_with, seats_put, start_at, committed_at, with_version};

use crate::outcome::Outcome;
use dk_core::{Done, NewTable, Seat, Snapshot};
use dk_plain::CommitLog;
use dk_si::Database;
use dk_si::database::Table;
use dk_si::history::{Asked, Entry};
use dk_si::limits::SESSIONS;
use dk_si::machine::Session;
use dk_slow_seats::conflicts::Scope;
use dk_slow_seats::layout::{self, Groups, layout_of};
use dk_slow_seats::seats::{self, empty_seats};
use dk_slow_seats::{bounds, room};
use dk_slow_state::state::State;
use dk_types::{Commit, Exhausted, List, OutOfMemory, Receipt, Refusal, Reply, Rows, TableNet};
use std::alloc::Global;
use std::marker::Model;

/// The plain core, which contracts see as a core of `dk_core`'s definitions.
#[derive(Drop)]
pub struct Core {
    opened: Database,
    iteration: u64,
    sessions: u32,
    entries: Vec<Entry>,
    now: State,
    seats: Vec<Seat>,
    layout: Vec<Groups>,
}

impl Model for Core {
    ghost use Rattle.dk_core.specs.Core.{Core};
    ghost use Rattle.dk_slow_core.specs.Code.{core_code};
    ghost use Rattle.dk_slow_core.specs.Moves.{standing_of};

    ghost Value = { Core };

    ghost coded = { core_code };

    ghost view = { λ c. record {
      opened = c.opened;
      iteration = c.iteration;
      sessions = c.sessions;
      entries = c.entries.items;
      standing = standing_of c.iteration c.entries.items;
      now = c.now;
      seats = c.seats.items;
      layout = c.layout.items;
    } };
}

/// What a Change tells of why it was refused.
fn outcome_of(refusal: &Refusal) -> Outcome
    ensures { result ≡ refusal_outcome refusal.now }
{
    match refusal {
        Refusal::Conflict { row, by, .. } => Outcome::Conflict { row: *row, by: *by },
        _ => Outcome::Done,
    }
}

impl Core {
    /// The core of a database that was opened at that iteration, for sessions with the numbers from 1 to this one.
    #[tactic(auto, using(crate::proofs::EventLemmas::standing_first))]
    pub fn new(
        alloc: Global,
        opened: Database,
        iteration: u64,
        sessions: u32,
    ) -> Result<Core, OutOfMemory>
        ensures { IfOk result (λ core. core ≡ first_core opened iteration sessions) }
    {
        let layout = layout_of(alloc, opened.as_slice())?;
        let now = State::new(alloc)?;
        let seats = empty_seats(alloc, SESSIONS)?;
        Ok(Core {
            opened,
            iteration,
            sessions,
            entries: Vec::new(alloc),
            now,
            seats,
            layout,
        })
    }

    /// What allocates for the core.
    pub fn alloc(&self) -> Global {
        *self.entries.allocator()
    }

    /// One more entry.
    #[tactic(auto, using(crate::proofs::EventLemmas::standing_more))]
    fn enter(&mut self, entry: Entry) -> Result<(), OutOfMemory>
        ensures ok { OnOk result (self.new ≡ entered self.old entry) }
        ensures err { OnErr result (self.new ≡ self.old) }
    {
        let alloc = *self.entries.allocator();
        self.entries.reserve(1)?;
        self.now.enter(alloc, self.opened.as_slice(), &entry)?;
        self.entries.push_reserved(entry);
        Ok(())
    }

    fn set_found(&mut self, session: u32, found: Option<Refusal>)
        ensures { self.new ≡ seats_with self.old session (λ seat. record seat { found = found }) }
    {
        seats::set_found(&mut self.seats, session, found);
    }

    fn end_snapshot(&mut self, session: u32)
        ensures { self.new ≡ seats_with self.old session (λ seat. record seat { live = None }) }
    {
        seats::end_snapshot(&mut self.seats, session);
    }

    fn begin_snapshot(&mut self, session: u32, live: Snapshot)
        ensures { self.new ≡ seats_with self.old session (λ _. record no_seat { live = Some live }) }
    {
        let alloc = *self.entries.allocator();
        seats::begin_snapshot(alloc, &mut self.seats, session, live);
    }

    /// Whether no further transaction can begin.
    fn is_full(&self) -> bool
        ensures { result ≡ is_full self.entry.now }
    {
        let log = CommitLog {
            opened: self.opened.as_slice(),
            commits: self.now.commits(),
        };
        let live = room::live_count(self.seats.as_slice());
        room::is_full(&log, self.now.begun(), live)
    }

    fn spent_numbers(&self) -> Exhausted
        ensures { result ≡ spent_numbers self.entry.now }
    {
        let log = CommitLog {
            opened: self.opened.as_slice(),
            commits: self.now.commits(),
        };
        room::spent_numbers(&log, self.now.begun())
    }

    /// The snapshot of a transaction that begins.
    fn next_snapshot(&self) -> Snapshot
        ensures { result ≡ next_snapshot self.entry.now.now }
    {
        Snapshot {
            number: self.now.begun(),
            start: self.now.commits().len() as u64,
            commit: None,
        }
    }

    /// A session calls.
    #[tactic(auto, using(crate::proofs::EventLemmas::call_behind))]
    pub fn call(&mut self, session: u32, asked: Asked) -> Result<(), OutOfMemory>
        ensures ok { OnOk result (self.new ≡ core_behind self.old (event.Call session asked)) }
        ensures err { OnErr result (self.new ≡ self.old) }
    {
        self.enter(Entry::Call { session, asked })?;
        self.set_found(session, None);
        Ok(())
    }

    /// A session's transaction begins, or there is no room for one.
    #[tactic(auto, using(crate::proofs::EventLemmas::full_behind, crate::proofs::EventLemmas::begin_behind, crate::proofs::OutcomeLemmas::full_told, crate::proofs::OutcomeLemmas::begin_told))]
    pub fn begin(&mut self, session: u32) -> Result<Outcome, OutOfMemory>
        ensures ok { OnOk result (self.new ≡ core_behind self.old (event.Begin session)) }
        ensures err { OnErr result (self.new ≡ self.old) }
        ensures outcome { IfOk result (λ outcome. outcome ≡ begin_outcome self.old) }
    {
        if self.is_full() {
            let numbers = self.spent_numbers();
            self.set_found(session, Some(Refusal::Exhausted(numbers)));
            return Ok(Outcome::Exhausted(numbers));
        }
        let live = self.next_snapshot();
        let number = live.number;
        let start = live.start;
        self.enter(Entry::Begun {
            session,
            number,
            start,
        })?;
        self.begin_snapshot(session, live);
        Ok(Outcome::Begun { number, start })
    }

    fn put_seat(&mut self, session: u32, seat: Option<Seat>)
        ensures { self.new ≡ record self.old { seats = seats_put self.old.seats session seat } }
    {
        seats::put_seat(&mut self.seats, session, seat);
    }

    fn seat_behind_reply(&self, session: u32) -> Result<Option<Seat>, OutOfMemory>
        ensures { IfOk result (λ seat. seat ≡ option_map seat_after_reply (seat_at self.entry.now.seats session)) }
    {
        let alloc = *self.entries.allocator();
        seats::seat_behind_reply(alloc, self.seats.as_slice(), session)
    }

    /// A session's call is answered by a reply that is no commit.
    #[tactic(auto, using(crate::proofs::EventLemmas::reply_behind))]
    pub fn reply(&mut self, session: u32, reply: Reply) -> Result<(), OutOfMemory>
        ensures ok { OnOk result (self.new ≡ core_behind self.old (event.Reply session reply)) }
        ensures err { OnErr result (self.new ≡ self.old) }
    {
        let seat = self.seat_behind_reply(session)?;
        self.enter(Entry::Reply { session, reply })?;
        self.put_seat(session, seat);
        Ok(())
    }

    /// A session notes a place in time.
    #[tactic(auto, using(crate::proofs::EventLemmas::mark_behind))]
    pub fn mark(&mut self, session: u32)
        ensures { self.new ≡ core_behind self.old (event.Mark session) }
    {}

    /// A snapshot ends without a commit.
    #[tactic(auto, using(crate::proofs::EventLemmas::leave_behind))]
    pub fn leave(&mut self, session: u32)
        ensures { self.new ≡ core_behind self.old (event.Leave session) }
    {
        self.end_snapshot(session);
    }

    /// All versions are stamped, and the snapshot ends.
    #[tactic(auto, using(crate::proofs::EventLemmas::finish_behind))]
    pub fn finish(&mut self, session: u32)
        ensures { self.new ≡ core_behind self.old (event.Finish session) }
    {
        self.end_snapshot(session);
    }

    fn stamp_oldest(&mut self, session: u32)
        ensures { self.new ≡ seats_with self.old session (λ seat. record seat {
          versions = without_oldest seat.versions;
        }) }
    {
        let alloc = *self.entries.allocator();
        seats::stamp_oldest(alloc, &mut self.seats, session);
    }

    fn undo_newest(&mut self, session: u32)
        ensures { self.new ≡ seats_with self.old session (λ seat. record seat {
          versions = without_newest seat.versions;
        }) }
    {
        let alloc = *self.entries.allocator();
        seats::undo_newest(alloc, &mut self.seats, session);
    }

    /// A session's oldest version gets its commit's number.
    #[tactic(auto, using(crate::proofs::EventLemmas::stamp_behind))]
    pub fn stamp(&mut self, session: u32)
        ensures { self.new ≡ core_behind self.old (event.Stamp session) }
    {
        self.stamp_oldest(session);
    }

    /// A session's newest version is undone.
    #[tactic(auto, using(crate::proofs::EventLemmas::undo_behind))]
    pub fn undo(&mut self, session: u32)
        ensures { self.new ≡ core_behind self.old (event.Undo session) }
    {
        self.undo_newest(session);
    }

    /// Versions that every snapshot sees are let go: there are none here.
    #[tactic(auto, using(crate::proofs::EventLemmas::drop_behind))]
    pub fn drop_versions(&mut self)
        ensures { (at : VectorId) (bound : ℕ) → self.new ≡ core_behind self.old (event.Drop at bound) }
    {}

    /// A group is given its page: there are none here.
    #[tactic(auto, using(crate::proofs::EventLemmas::settle_behind))]
    pub fn settle(&mut self)
        ensures { (table group root : ℕ) → self.new ≡ core_behind self.old (event.Settle table group root) }
    {}

    fn set_creates(&mut self, session: u32, creates: NewTable)
        ensures { self.new ≡ seats_with self.old session (λ seat. record seat { creates = Some creates }) }
    {
        seats::set_creates(&mut self.seats, session, creates);
    }

    fn next_receipt(&self, moment: u64) -> Receipt
        ensures { result ≡ next_receipt self.entry.now.now moment }
    {
        Receipt {
            number: self.now.commits().len() as u64 + 1,
            moment,
        }
    }

    fn seat_behind_commit(&self, session: u32) -> Result<Option<Seat>, OutOfMemory>
        ensures { IfOk result (λ seat. seat ≡ committed_at (length self.entry.now.now.commits) self.entry.now.seats session) }
    {
        let alloc = *self.entries.allocator();
        seats::seat_behind_commit(alloc, self.seats.as_slice(), session, self.now.commits())
    }

    /// A session's call is answered by a reply that is a commit.
    fn commit(&mut self, session: u32, reply: Reply) -> Result<Outcome, OutOfMemory>
        ensures ok { OnOk result (self.new ≡ committed self.old session reply) }
        ensures err { OnErr result (self.new ≡ self.old) }
        ensures outcome { IfOk result (λ outcome. outcome ≡ numbered self.old) }
    {
        let number = self.now.commits().len() as u64 + 1;
        let seat = self.seat_behind_commit(session)?;
        self.enter(Entry::Reply { session, reply })?;
        self.put_seat(session, seat);
        Ok(Outcome::Numbered { number })
    }

    /// A table without groups.
    fn add_table(&mut self) -> Result<(), OutOfMemory>
        ensures ok { OnOk result (self.new ≡ record self.old { layout = self.old.layout ++ [] ∷ [] }) }
        ensures err { OnErr result (self.new ≡ self.old) }
    {
        let alloc = *self.entries.allocator();
        self.layout.push(List::new(alloc))?;
        Ok(())
    }

    fn remove_last_table(&mut self)
        ensures { self.new ≡ record self.old { layout = without_oldest self.old.layout } }
    {
        self.layout.truncate(self.layout.len().saturating_sub(1));
    }

    /// The second point of a creation, which is the commit.
    #[tactic(auto, using(crate::proofs::PointLemmas::created_behind, crate::proofs::PointLemmas::last_table_removed))]
    fn commit_creation(&mut self, session: u32, moment: u64) -> Result<Outcome, OutOfMemory>
        ensures ok { OnOk result (self.new ≡ core_behind self.old (event.Point session done_variants.Created moment)) }
        ensures err { OnErr result (self.new ≡ self.old) }
        ensures outcome { IfOk result (λ outcome. outcome ≡ numbered self.old) }
    {
        let receipt = self.next_receipt(moment);
        self.add_table()?;
        match self.commit(session, Reply::Created { receipt }) {
            Ok(outcome) => Ok(outcome),
            Err(error) => {
                self.remove_last_table();
                Err(error)
            }
        }
    }

    /// A commit point. That of a commit tells the commit's number.
    #[tactic(auto, using(crate::proofs::EventLemmas::create_behind, crate::proofs::PointLemmas::changed_behind, crate::proofs::PointLemmas::commit_behind))]
    pub fn point(&mut self, session: u32, done: Done, moment: u64) -> Result<Outcome, OutOfMemory>
        ensures ok { OnOk result (self.new ≡ core_behind self.old (event.Point session done moment)) }
        ensures err { OnErr result (self.new ≡ self.old) }
        ensures outcome { IfOk result (λ outcome. outcome ≡ point_outcome self.old done) }
    {
        match done {
            Done::Create { name, schema } => {
                self.set_creates(session, NewTable { name, schema });
                Ok(Outcome::Done)
            }
            Done::Created => self.commit_creation(session, moment),
            Done::Changed { count } => {
                let receipt = Some(self.next_receipt(moment));
                self.commit(session, Reply::Changed { count, receipt })
            }
            Done::Commit => {
                let receipt = self.next_receipt(moment);
                self.commit(session, Reply::Committed { receipt })
            }
        }
    }

    /// A session makes a version.
    fn make_version(&mut self, session: u32, part: TableNet) -> Result<(), OutOfMemory>
        ensures ok { OnOk result (self.new ≡ seats_with self.old session (with_version part)) }
        ensures err { OnErr result (self.new ≡ self.old) }
    {
        seats::make_version(&mut self.seats, session, part)
    }

    fn groups_behind(&self, table: u32, group: u64, more: u64) -> Result<Groups, OutOfMemory>
        requires { rows_in (groups_of self.now.layout table) group + more < 2 ^ 64 }
        ensures { IfOk result (λ groups. groups ≡ with_rows group more (groups_of self.entry.now.layout table)) }
    {
        let alloc = *self.entries.allocator();
        layout::groups_behind(alloc, self.layout.as_slice(), table, group, more)
    }

    fn put_groups(&mut self, table: u32, groups: Groups)
        ensures { self.new ≡ record self.old { layout = slice_set self.old.layout table groups } }
    {
        layout::put_groups(&mut self.layout, table, groups);
    }

    /// Own rows go into a group, or into a new one behind the others.
    fn place(&mut self, session: u32, table: u32, group: u64, rows: Rows) -> Result<(), OutOfMemory>
        requires { FitsIn self.old.layout table group rows }
        ensures ok { OnOk result (self.new ≡ placed self.old session table group rows) }
        ensures err { OnErr result (self.new ≡ self.old) }
    {
        let alloc = *self.entries.allocator();
        let groups = self.groups_behind(table, group, rows.len() as u64)?;
        self.make_version(session, seats::appended_part(alloc, table, rows))?;
        self.put_groups(table, groups);
        Ok(())
    }

    /// Own rows go into a group that has room, or into a new one. The id of the first is told by the group.
    #[tactic(auto, using(crate::proofs::EventLemmas::append_behind))]
    pub fn append(
        &mut self,
        session: u32,
        table: u32,
        group: u64,
        rows: Rows,
    ) -> Result<(), OutOfMemory>
        requires { FitsIn self.old.layout table group rows }
        ensures ok { OnOk result ((first : ℕ) → self.new ≡ core_behind self.old (event.Append session
            table group first rows)) }
        ensures err { OnErr result (self.new ≡ self.old) }
    {
        self.place(session, table, group, rows)
    }

    /// A full group of own rows becomes a group of the table.
    #[tactic(auto, using(crate::proofs::EventLemmas::adopt_behind))]
    pub fn adopt(
        &mut self,
        session: u32,
        table: u32,
        group: u64,
        rows: Rows,
    ) -> Result<(), OutOfMemory>
        requires { FitsIn self.old.layout table group rows }
        ensures ok { OnOk result ((first : ℕ) → self.new ≡ core_behind self.old (event.Adopt session
            table group first rows)) }
        ensures err { OnErr result (self.new ≡ self.old) }
    {
        self.place(session, table, group, rows)
    }

    fn conflict(
        &self,
        session: u32,
        start: u64,
        part: &TableNet,
    ) -> Result<Option<Refusal>, OutOfMemory>
        ensures { IfOk result (λ found. found ≡ conflict self.entry.now session start part.now) }
    {
        let alloc = *self.entries.allocator();
        let scope = Scope {
            number: session,
            seats: self.seats.as_slice(),
            commits: self.now.commits(),
        };
        scope.conflict(alloc, start, part)
    }

    fn start_of(&self, session: u32) -> Option<u64>
        ensures { result ≡ start_at self.entry.now.seats session }
    {
        seats::start_of(self.seats.as_slice(), session)
    }

    /// Rows of one vector are updated or deleted, or a conflict is found.
    #[tactic(auto, using(crate::proofs::ChangeLemmas::no_change_behind, crate::proofs::ChangeLemmas::conflict_behind, crate::proofs::ChangeLemmas::change_behind, crate::proofs::OutcomeLemmas::no_change_told, crate::proofs::OutcomeLemmas::conflict_told, crate::proofs::OutcomeLemmas::change_told))]
    pub fn change(&mut self, session: u32, part: TableNet) -> Result<Outcome, OutOfMemory>
        ensures ok { OnOk result ((at : VectorId) → self.new ≡ core_behind self.old (event.Change session
            at part)) }
        ensures err { OnErr result (self.new ≡ self.old) }
        ensures outcome { IfOk result (λ outcome. outcome ≡ change_outcome self.old session part) }
    {
        let Some(start) = self.start_of(session) else {
            return Ok(Outcome::Done);
        };
        match self.conflict(session, start, &part)? {
            Some(refusal) => {
                self.set_found(session, Some(refusal));
                Ok(outcome_of(&refusal))
            }
            None => {
                self.make_version(session, part)?;
                Ok(Outcome::Done)
            }
        }
    }

    /// The machine's entries so far.
    pub fn entries(&self) -> &[Entry]
        ensures { result.now ≡ self.entry.now.entries }
    {
        self.entries.as_slice()
    }

    /// The database that was opened.
    pub fn opened(&self) -> &[Table]
        ensures { result.now ≡ self.entry.now.opened }
    {
        self.opened.as_slice()
    }

    /// The file's iteration at opening.
    pub fn iteration(&self) -> u64
        ensures { result ≡ self.entry.now.iteration }
    {
        self.iteration
    }

    /// The sessions have the numbers from 1 to this one.
    pub fn session_count(&self) -> u32
        ensures { result ≡ self.entry.now.sessions }
    {
        self.sessions
    }

    /// The commits so far.
    pub fn commits(&self) -> &[Commit]
        ensures { result.now ≡ self.entry.now.now.commits }
    {
        self.now.commits()
    }

    /// How many transactions have begun.
    pub fn begun(&self) -> u64
        ensures { result ≡ self.entry.now.now.begun }
    {
        self.now.begun()
    }

    /// What the machine knows of each session.
    pub fn sessions(&self) -> &[Session]
        ensures { result.now ≡ self.entry.now.now.sessions }
    {
        self.now.sessions()
    }

    /// How many rows the groups of each table have.
    pub fn layout(&self) -> &[Groups]
        ensures { result.now ≡ self.entry.now.layout }
    {
        self.layout.as_slice()
    }

    /// What each session has beside what the machine knows of it.
    pub fn seats(&self) -> &[Seat]
        ensures { result.now ≡ self.entry.now.seats }
    {
        self.seats.as_slice()
    }

    /// The number of the last commit.
    pub fn commit_count(&self) -> u64
        ensures { result ≡ length self.entry.now.now.commits }
    {
        self.now.commits().len() as u64
    }

    /// How many rows the groups of a table have.
    pub fn groups(&self, table: u32) -> &[u64]
        ensures { result.now ≡ groups_of self.entry.now.layout table }
    {
        layout::groups_of(self.layout.as_slice(), table)
    }

    /// The greatest number of a commit that every snapshot sees.
    #[tactic(auto, using(crate::proofs::BoundLemmas::bound_holds, crate::proofs::BoundLemmas::bound_greatest))]
    pub fn bound(&self) -> u64
        ensures holds { is_bound self.entry.now result ≡ true }
        ensures greatest { (other : ℕ) → is_bound self.entry.now other ≡ true → other ≤ result }
    {
        bounds::bound(self.commit_count(), self.seats.as_slice())
    }
}
