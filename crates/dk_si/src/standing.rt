//! How stops and iterations stand behind a list of entries: a state that each entry carries on, and that decides
//! whether the next one may come. It keeps what may still be asked for, and so it is as long as the calls in flight
//! make it.
ghost use Rattle.std.specs.Prelude.{[], ℕ, ◌≡◌, ◌&&◌, ◌+◌, ◌^◌, ◌<◌, ◌++◌, ◌==◌, not, option_to_list};
ghost use Rattle.std.specs.Prelude.{IfOk, OnErr, OnOk};
ghost use Rattle.std.specs.List.{list_all, list_any, filter, flat_map};
ghost use Rattle.dk_si.specs.declared.history.Entry.TheVariants as entry;
ghost use Rattle.dk_si.specs.Standing.{comes_after, first_stop, is_calling, is_of, is_only, is_settled, iterates};
ghost use Rattle.dk_si.specs.Standing.{are_payable, may_end, may_end_all, needs_by, pays, stop_before, stopped_after};
ghost use Rattle.dk_si.specs.Standing.{standing_and, written_after, written_by};
ghost use Rattle.dk_si.specs.ShortStanding.{as_full, fallen, first_short, greatest_past, is_beside, is_last, is_passed};
ghost use Rattle.dk_si.specs.ShortStanding.{reply_behind, rises, rises_all, short_and, short_needs_after};
ghost use Rattle.dk_si.specs.ShortStanding.{DecidesBehind, IsBehind, StepsOn, short_needs_by, short_stands_on, unpaid};

use crate::exchange::is_checkpoint;
use crate::history::Entry;
use crate::limits::MAX_ITERATION;
use crate::needs::{add_need, is_paid, is_payable, owes};
use crate::replies::{is_commit, is_disk_stop, is_stop, iteration_of};
use dk_types::{List, OutOfMemory, Reply, TryCopy};
use std::alloc::Global;

/// A session's call that has no reply yet.
#[derive(Clone, Copy, Debug, PartialEq, Eq)]
pub struct Flight {
    pub session: u32,
    pub place: u64,
    pub checkpoint: bool,
}

/// What a reply needs of a call before it.
#[derive(Clone, Copy, Debug, PartialEq, Eq)]
pub enum Cause {
    /// It stopped the engine, or may have.
    Stop,
    /// It wrote that iteration, or may have.
    Iteration { iteration: u64 },
}

/// What the reply at that place needs, and no reply has settled.
#[derive(Clone, Copy, Debug, PartialEq, Eq)]
pub struct Need {
    pub cause: Cause,
    pub place: u64,
}

/// An iteration that a CHECKPOINT was answered, with the places of its call and its reply.
#[derive(Clone, Copy, Debug, PartialEq, Eq)]
pub struct Written {
    pub called: u64,
    pub place: u64,
    pub iteration: u64,
}

/// What stops and iterations ask of the entries to come.
#[derive(Debug, Drop, PartialEq)]
pub struct Standing {
    /// The place of the next entry.
    pub place: u64,
    /// Stops and iterations stand well so far. If not, nothing else is kept.
    pub well: bool,
    /// The place of the first reply after which nothing is committed.
    pub stop: Option<u64>,
    /// A reply told that its call stopped the engine.
    pub stopped: bool,
    /// The calls that have no reply yet.
    pub flights: List<Flight>,
    /// The greatest of the iterations that were answered before each CHECKPOINT in flight was called; 0 without one.
    pub greatest: u64,
    /// The last iteration that there is was answered.
    pub spent: bool,
    /// The iterations that were answered since a CHECKPOINT in flight was called.
    pub written: List<Written>,
    /// Of what no reply has settled, and of each cause, the earliest.
    pub needs: List<Need>,
}

/// A reply to a session, in a history that was opened at that iteration.
#[derive(Clone, Copy)]
struct Told<'a> {
    opened: u64,
    session: u32,
    reply: &'a Reply,
}

impl TryCopy for Flight {
    fn copy(&self) -> Result<Flight, OutOfMemory> {
        Ok(*self)
    }
}

impl TryCopy for Written {
    fn copy(&self) -> Result<Written, OutOfMemory> {
        Ok(*self)
    }
}

fn stop_before(stop: Option<u64>, place: u64) -> bool
    ensures { result ≡ stop_before stop place }
{
    match stop {
        None => false,
        Some(first) => first < place,
    }
}

fn first_stop(stop: Option<u64>, place: u64) -> Option<u64>
    ensures { result ≡ first_stop stop place }
{
    match stop {
        None => Some(place),
        Some(first) => Some(first),
    }
}

pub fn is_of(session: u32, flight: &Flight) -> bool
    ensures { result ≡ is_of session flight.now }
{
    session == flight.session
}

/// Whether the iteration is told apart from one that was answered, and is above it where that stands before the call.
fn comes_after(flight: &Flight, iteration: u64, written: &Written) -> bool
    ensures { result ≡ comes_after flight.now iteration written.now }
{
    (written.called == flight.place || written.iteration != iteration)
        && (written.place >= flight.place || written.iteration < iteration)
}

fn comes_after_all(flight: &Flight, iteration: u64, written: &[Written]) -> bool
    ensures { result ≡ list_all (comes_after flight.now iteration) written.now }
{
    written
        .iter()
        .all(|other| comes_after(flight, iteration, other))
}

fn is_only(session: u32, flight: &Flight, flights: &[Flight]) -> bool
    ensures { result ≡ list_all (is_only session flight.now) flights.now }
{
    flights.iter().all(|other| !(is_of(session, other) && other.checkpoint)
        || flight.place == other.place)
}

/// Whether an iteration was answered.
fn is_written(iteration: u64, written: &[Written]) -> bool
    ensures { result ≡ list_any (λ other. other.iteration == iteration) written.now }
{
    written.iter().any(|other| other.iteration == iteration)
}

/// Whether a reply has settled the cause.
fn is_settled(stopped: bool, written: &[Written], cause: Cause) -> bool
    ensures { result ≡ is_settled stopped written.now cause }
{
    match cause {
        Cause::Stop => stopped,
        Cause::Iteration { iteration } => is_written(iteration, written),
    }
}

/// Whether a CHECKPOINT in flight was called before the iteration was answered.
fn is_beside(flights: &[Flight], written: &Written) -> bool
    ensures { result ≡ is_beside flights.now written.now }
{
    flights.iter().any(|flight| flight.checkpoint && written.place >= flight.place)
}

/// The greatest of a number and of the iterations that were answered before each CHECKPOINT in flight was called.
fn greatest_past(flights: &[Flight], least: u64, written: &[Written]) -> u64
    ensures { result ≡ greatest_past flights.now least written.now }
{
    let mut greatest = least;
    for other in written {
        if !is_beside(flights, other) && greatest < other.iteration {
            greatest = other.iteration;
        }
    }
    greatest
}

/// The iterations that were answered since a CHECKPOINT in flight was called.
fn beside_all(
    alloc: Global,
    flights: &[Flight],
    written: &[Written],
) -> Result<List<Written>, OutOfMemory>
    ensures { IfOk result (λ kept. kept ≡ filter (is_beside flights.now) written.now) }
{
    let mut kept = List::new(alloc);
    for other in written {
        if is_beside(flights, other) {
            kept.push(*other)?;
        }
    }
    Ok(kept)
}

impl Standing {
    /// What stands before the first entry.
    pub fn new(alloc: Global) -> Standing
        ensures first { result ≡ first_short }
        ensures list { (opened : ℕ) → IsBehind opened [] result }
    {
        Standing::from_place(alloc, 0, true)
    }

    fn from_place(alloc: Global, place: u64, well: bool) -> Standing
        ensures { result ≡ record first_short { place = place; well = well } }
    {
        Standing {
            place,
            well,
            stop: None,
            stopped: false,
            flights: List::new(alloc),
            greatest: 0,
            spent: false,
            written: List::new(alloc),
            needs: List::new(alloc),
        }
    }

    fn iterates(&self, opened: u64, session: u32, flight: &Flight, iteration: Option<u64>) -> bool
        ensures { result ≡ iterates opened (as_full self.now) session flight.now iteration }
    {
        match iteration {
            None => true,
            Some(iteration) => {
                opened < iteration
                    && (comes_after_all(flight, iteration, self.written.as_slice())
                        && is_only(session, flight, self.flights.as_slice()))
            }
        }
    }

    /// Whether the reply to this call commits nothing behind a stop, and its iteration comes after those before it.
    fn may_end(&self, told: &Told<'_>, flight: &Flight) -> bool
        ensures { result ≡ may_end told.now.opened (as_full self.now) told.now.session told.now.reply.now flight.now }
    {
        let iteration = iteration_of(told.reply);
        !((self.stop.is_some() && is_commit(told.reply))
            || (stop_before(self.stop, flight.place) && iteration.is_some()))
            && (!flight.checkpoint || self.iterates(told.opened, told.session, flight, iteration))
    }

    fn may_end_all(&self, told: &Told<'_>) -> bool
        ensures { result ≡ may_end_all told.now.opened (as_full self.now) told.now.session told.now.reply.now }
    {
        self.flights.as_slice().iter().all(|flight| !is_of(told.session, flight)
            || self.may_end(told, flight))
    }

    /// Whether a call in flight may still settle each need.
    fn are_payable(&self) -> bool
        ensures { result ≡ are_payable (as_full self.now) }
    {
        let flights = self.flights.as_slice();
        self.needs
            .as_slice()
            .iter()
            .all(|need| is_payable(need, flights))
    }

    fn is_calling(&self, session: u32) -> bool
        ensures { result ≡ is_calling (as_full self.now) session }
    {
        self.flights
            .as_slice()
            .iter()
            .any(|flight| is_of(session, flight))
    }

    fn stopped_after(&self, told: &Told<'_>) -> bool
        ensures { result ≡ stopped_after (as_full self.now) told.now.session told.now.reply.now }
    {
        (self.is_calling(told.session) && is_disk_stop(told.reply)) || self.stopped
    }

    fn written_by(&self, told: &Told<'_>, flight: &Flight) -> Option<Written>
        ensures { option_to_list result ≡ written_by told.now.session self.now.place told.now.reply.now flight.now }
    {
        if !is_of(told.session, flight) || !flight.checkpoint {
            return None;
        }
        match iteration_of(told.reply) {
            None => None,
            Some(iteration) => Some(Written {
                called: flight.place,
                place: self.place,
                iteration,
            }),
        }
    }

    fn written_after(&self, told: &Told<'_>) -> Result<List<Written>, OutOfMemory>
        ensures { IfOk result (λ written. written ≡ written_after (as_full self.now) told.now.session
            told.now.reply.now) }
    {
        let mut all = self.written.copy()?;
        for flight in self.flights.as_slice() {
            if let Some(written) = self.written_by(told, flight) {
                all.push(written)?;
            }
        }
        Ok(all)
    }

    fn flights_after(&self, alloc: Global, session: u32) -> Result<List<Flight>, OutOfMemory>
        ensures { IfOk result (λ flights. flights ≡ filter (λ flight. not (is_of session flight)) self.now.flights) }
    {
        let mut flights = List::new(alloc);
        for flight in self.flights.as_slice() {
            if !is_of(session, flight) {
                flights.push(*flight)?;
            }
        }
        Ok(flights)
    }

    /// The needs that the reply does not settle.
    fn unpaid(&self, alloc: Global, told: &Told<'_>) -> Result<List<Need>, OutOfMemory>
        ensures { IfOk result (λ needs. needs ≡ unpaid self.now told.now.session told.now.reply.now) }
    {
        let flights = self.flights.as_slice();
        let mut needs = List::new(alloc);
        for need in self.needs.as_slice() {
            if !is_paid(told.session, told.reply, need, flights) {
                needs.push(*need)?;
            }
        }
        Ok(needs)
    }

    /// What the reply to this call needs, where so much is settled behind it.
    fn need_by(&self, told: &Told<'_>, flight: &Flight, written: &[Written]) -> Option<Need>
        requires { written.now ≡ written_after (as_full self.now) told.now.session told.now.reply.now }
        ensures { option_to_list result ≡ needs_by told.now.opened (as_full self.now) told.now.session
            told.now.reply.now flight.now }
    {
        if !is_of(told.session, flight) {
            return None;
        }
        let Some(cause) = owes(told.opened, flight.checkpoint, told.reply) else {
            return None;
        };
        if is_settled(self.stopped_after(told), written, cause) {
            return None;
        }
        Some(Need {
            cause,
            place: self.place,
        })
    }

    /// Whether the cause was settled by an iteration that is in no list any more.
    fn is_passed(&self, cause: Cause) -> bool
        ensures { result ≡ is_passed self.now cause }
    {
        match cause {
            Cause::Stop => false,
            Cause::Iteration { iteration } => {
                if iteration == MAX_ITERATION {
                    self.spent
                } else {
                    self.greatest == iteration
                }
            }
        }
    }

    /// A need that no iteration has settled that is in no list any more.
    fn unpassed(&self, need: Option<Need>) -> Option<Need>
        ensures { option_to_list result ≡ filter (λ need. not (is_passed self.now need.cause)) (option_to_list need) }
    {
        let need = need?;
        if self.is_passed(need.cause) {
            return None;
        }
        Some(need)
    }

    fn needs_after(
        &self,
        alloc: Global,
        told: &Told<'_>,
        written: &[Written],
    ) -> Result<List<Need>, OutOfMemory>
        requires { written.now ≡ written_after (as_full self.now) told.now.session told.now.reply.now }
        ensures { IfOk result (λ needs. needs ≡ short_needs_after told.now.opened self.now told.now.session
            told.now.reply.now) }
    {
        let mut needs = self.unpaid(alloc, told)?;
        for flight in self.flights.as_slice() {
            if let Some(need) = self.unpassed(self.need_by(told, flight, written)) {
                add_need(&mut needs, need)?;
            }
        }
        Ok(needs)
    }

    /// Whether the reply, where it answers a CHECKPOINT, says an iteration above those before all in flight.
    fn rises(&self, told: &Told<'_>, flight: &Flight) -> bool
        ensures { result ≡ rises self.now told.now.session told.now.reply.now flight.now }
    {
        if !(is_of(told.session, flight) && flight.checkpoint) {
            return true;
        }
        match iteration_of(told.reply) {
            None => true,
            Some(iteration) => self.greatest < iteration,
        }
    }

    fn rises_all(&self, told: &Told<'_>) -> bool
        ensures { result ≡ rises_all self.now told.now.session told.now.reply.now }
    {
        self.flights
            .as_slice()
            .iter()
            .all(|flight| self.rises(told, flight))
    }

    /// What is kept behind the reply, where it stands well.
    fn reply_behind(&self, alloc: Global, told: &Told<'_>) -> Result<Standing, OutOfMemory>
        requires { self.now.place + 1 < 2 ^ 64 }
        ensures { IfOk result (λ behind. behind ≡ reply_behind told.now.opened self.now told.now.session
            told.now.reply.now) }
    {
        let written = self.written_after(told)?;
        let needs = self.needs_after(alloc, told, written.as_slice())?;
        let flights = self.flights_after(alloc, told.session)?;
        let stops = self.is_calling(told.session) && is_stop(told.reply);
        Ok(Standing {
            place: self.place + 1,
            well: true,
            stop: if stops {
                first_stop(self.stop, self.place)
            } else {
                self.stop
            },
            stopped: self.stopped_after(told),
            greatest: greatest_past(flights.as_slice(), self.greatest, written.as_slice()),
            spent: self.spent || is_written(MAX_ITERATION, written.as_slice()),
            written: beside_all(alloc, flights.as_slice(), written.as_slice())?,
            flights,
            needs,
        })
    }

    /// Whether the reply stands well, where so much is kept behind it.
    fn ends_well(&self, told: &Told<'_>, behind: &Standing) -> bool
        ensures { result ≡ (self.now.well
            && ((may_end_all told.now.opened (as_full self.now) told.now.session told.now.reply.now
            && rises_all self.now told.now.session told.now.reply.now) && are_payable (as_full behind.now))) }
    {
        self.well && ((self.may_end_all(told) && self.rises_all(told)) && behind.are_payable())
    }

    /// What stands behind the reply.
    fn after_reply(&self, alloc: Global, told: &Told<'_>) -> Result<Standing, OutOfMemory>
        requires { self.now.place + 1 < 2 ^ 64 }
        ensures { IfOk result (λ after. after ≡ short_and told.now.opened self.now
            (entry.Reply told.now.session told.now.reply.now)) }
    {
        let behind = self.reply_behind(alloc, told)?;
        if self.ends_well(told, &behind) {
            return Ok(behind);
        }
        Ok(Standing::from_place(alloc, self.place + 1, false))
    }

    fn reply_stands(&self, alloc: Global, told: &Told<'_>) -> Result<bool, OutOfMemory>
        requires { self.now.place + 1 < 2 ^ 64 }
        ensures { IfOk result (λ stands. stands ≡ short_stands_on told.now.opened self.now
            (entry.Reply told.now.session told.now.reply.now)) }
    {
        let behind = self.reply_behind(alloc, told)?;
        Ok(self.ends_well(told, &behind))
    }

    fn entry_stands(&self, alloc: Global, opened: u64, entry: &Entry) -> Result<bool, OutOfMemory>
        requires { self.now.place + 1 < 2 ^ 64 }
        ensures { IfOk result (λ stands. stands ≡ short_stands_on opened self.now entry.now) }
    {
        let Entry::Reply { session, reply } = entry else {
            return Ok(self.well);
        };
        let told = Told {
            opened,
            session: *session,
            reply,
        };
        self.reply_stands(alloc, &told)
    }

    /// Whether stops and iterations stand well behind this entry too.
    pub fn stands_on(&self, alloc: Global, opened: u64, entry: &Entry) -> Result<bool, OutOfMemory>
        requires { self.now.place + 1 < 2 ^ 64 }
        ensures stands { IfOk result (λ stands. stands ≡ short_stands_on opened self.now entry.now) }
        ensures list { IfOk result (λ stands. DecidesBehind opened entry.now self.now stands) }
    {
        self.entry_stands(alloc, opened, entry)
    }

    /// Makes of it what stands behind one more entry. Without memory it stays as it is.
    pub fn next(&mut self, alloc: Global, opened: u64, entry: &Entry) -> Result<(), OutOfMemory>
        requires { self.old.place + 1 < 2 ^ 64 }
        ensures ok { OnOk result (self.new ≡ short_and opened self.old entry.now) }
        ensures list { OnOk result (StepsOn opened entry.now self.old self.new) }
        ensures err { OnErr result (self.new ≡ self.old) }
    {
        self.take_entry(alloc, opened, entry)
    }

    fn take_entry(&mut self, alloc: Global, opened: u64, entry: &Entry) -> Result<(), OutOfMemory>
        requires { self.old.place + 1 < 2 ^ 64 }
        ensures ok { OnOk result (self.new ≡ short_and opened self.old entry.now) }
        ensures err { OnErr result (self.new ≡ self.old) }
    {
        if !self.well {
            *self = Standing::from_place(alloc, self.place + 1, false);
            return Ok(());
        }
        match entry {
            Entry::Call { session, asked } => self.flights.push(Flight {
                session: *session,
                place: self.place,
                checkpoint: is_checkpoint(asked),
            })?,
            Entry::Begun { .. } => {}
            Entry::Reply { session, reply } => {
                let told = Told {
                    opened,
                    session: *session,
                    reply,
                };
                *self = self.after_reply(alloc, &told)?;
                return Ok(());
            }
        }
        self.place += 1;
        Ok(())
    }
}
