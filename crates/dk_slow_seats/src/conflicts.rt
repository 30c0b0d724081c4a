//! Who made the newest version of a row, and which of the rows that a session would change it does not see.
ghost use Rattle.std.specs.Prelude.{◌≡◌, ◌++◌, nat_lt, if◌then◌else◌, IfOk};
ghost use Rattle.dk_si.specs.Answer.{last_change, least_where};
ghost use Rattle.dk_si.specs.Machine.{changed_ids};
ghost use Rattle.dk_si.specs.Nets.{net_has};
ghost use Rattle.dk_core.specs.Core.{all_but, unstamped};
ghost use Rattle.dk_core.specs.Findings.{writer_in, writer_among, stamper_in, stamper_among};
ghost use Rattle.dk_core.specs.Findings.{newest, is_unseen, conflict};
ghost use Rattle.dk_slow_seats.specs.Folds.{first_of, lesser};
ghost use Rattle.dk_slow_seats.specs.Seats.{core_of};

use dk_core::Seat;
use dk_plain::nets::net_has;
use dk_plain::slices::{first, rest};
use dk_plain::writers::commit_has;
use dk_states::call::changed_ids;
use dk_types::{Commit, Holder, OutOfMemory, Refusal, TableNet};
use std::alloc::Global;

/// What a session's change is compared with: the seats of all sessions, and the commits.
#[derive(Clone, Copy)]
pub struct Scope<'a> {
    /// The session's own number.
    pub number: u32,
    pub seats: &'a [Seat],
    pub commits: &'a [Commit],
}

/// Whether a session has a version of the row that has no commit number yet.
#[tactic(auto, using(crate::proofs::ConflictLemmas::net_has_both))]
fn has_unstamped(seat: &Seat, table: u32, row: u64) -> bool
    ensures { result ≡ net_has (unstamped seat.now) table row }
{
    net_has(seat.made.as_slice(), table, row) || net_has(seat.versions.as_slice(), table, row)
}

/// The seat's transaction, where it made a version of the row and has made no Point.
fn writer_in(table: u32, row: u64, seat: &Seat) -> Option<u64>
    ensures { result ≡ writer_in table row seat.now }
{
    let Some(live) = &seat.live else {
        return None;
    };
    if live.commit.is_none() && has_unstamped(seat, table, row) {
        return Some(live.number);
    }
    None
}

fn writer_among(table: u32, row: u64, seats: &[Seat]) -> Option<u64>
    ensures { result ≡ writer_among table row seats.now }
{
    for seat in seats {
        if let Some(number) = writer_in(table, row, seat) {
            return Some(number);
        }
    }
    None
}

/// The seat's transaction, where it made commit n and has a version of the row to stamp.
fn stamper_in(n: u64, table: u32, row: u64, seat: &Seat) -> Option<u64>
    ensures { result ≡ stamper_in n table row seat.now }
{
    let Some(live) = &seat.live else {
        return None;
    };
    let Some(number) = live.commit else {
        return None;
    };
    if number == n && has_unstamped(seat, table, row) {
        return Some(live.number);
    }
    None
}

fn stamper_among(n: u64, table: u32, row: u64, seats: &[Seat]) -> Option<u64>
    ensures { result ≡ stamper_among n table row seats.now }
{
    for seat in seats {
        if let Some(number) = stamper_in(n, table, row, seat) {
            return Some(number);
        }
    }
    None
}

/// The number of the last commit that changed the row, 0 where none did.
#[tactic(auto, using(crate::proofs::ConflictLemmas::last_all, crate::proofs::ConflictLemmas::last_end))]
fn last_change(table: u32, row: u64, commits: &[Commit]) -> u64
    ensures { result ≡ last_change table row commits.now }
{
    let mut last = 0;
    let mut number = 0;
    for commit in commits {
        number += 1;
        last = later(last, number, commit_has(table, row, commit));
    }
    last
}

/// A number, or a later one where that is it.
fn later(number: u64, other: u64, is_it: bool) -> u64
    ensures { result ≡ (if is_it then other else number) }
{
    if is_it { other } else { number }
}

/// The first of two that is there.
fn first_of(found: Option<u64>, other: Option<u64>) -> Option<u64>
    ensures { result ≡ first_of found other }
{
    if found.is_some() { found } else { other }
}

impl Scope<'_> {
    /// The transaction of another session that made a version of the row and no Point yet.
    #[tactic(auto, using(crate::proofs::ConflictLemmas::writer_beside))]
    fn writer(&self, table: u32, row: u64) -> Option<u64>
        ensures { result ≡ writer_among table row (all_but self.now.number self.now.seats.now) }
    {
        let before = first(self.seats, (self.number as u64).saturating_sub(1));
        let behind = rest(self.seats, self.number as u64);
        first_of(
            writer_among(table, row, before),
            writer_among(table, row, behind),
        )
    }

    /// The transaction of another session that made commit n and still has to stamp a version of the row.
    #[tactic(auto, using(crate::proofs::ConflictLemmas::stamper_beside))]
    fn stamper(&self, n: u64, table: u32, row: u64) -> Option<u64>
        ensures { result ≡ stamper_among n table row (all_but self.now.number self.now.seats.now) }
    {
        let before = first(self.seats, (self.number as u64).saturating_sub(1));
        let behind = rest(self.seats, self.number as u64);
        first_of(
            stamper_among(n, table, row, before),
            stamper_among(n, table, row, behind),
        )
    }

    /// Who made the row's newest version, as its stamp says it: a transaction, or the last commit that changed it.
    pub fn newest(&self, table: u32, row: u64) -> Holder
        ensures { result ≡ newest (core_of self.now.seats.now self.now.commits.now) self.now.number table row }
    {
        if let Some(transaction) = self.writer(table, row) {
            return Holder::Transaction(transaction);
        }
        let last = last_change(table, row, self.commits);
        match self.stamper(last, table, row) {
            Some(transaction) => Holder::Transaction(transaction),
            None => Holder::Commit(last),
        }
    }

    /// Whether a snapshot with that start does not see the row's newest version.
    pub fn is_unseen(&self, start: u64, table: u32, row: u64) -> bool
        ensures { result ≡ is_unseen (core_of self.now.seats.now self.now.commits.now) self.now.number start table row }
    {
        self.writer(table, row).is_some() || start < last_change(table, row, self.commits)
    }

    /// The least of these rows whose newest version is unseen.
    #[tactic(auto, using(crate::proofs::ConflictLemmas::least_more, crate::proofs::ConflictLemmas::least_end))]
    fn least_unseen(&self, start: u64, table: u32, ids: &[u64]) -> Option<u64>
        ensures { result ≡ least_where (is_unseen (core_of self.now.seats.now self.now.commits.now) self.now.number
            start table) ids.now }
    {
        let mut least = None;
        for id in ids {
            least = lesser_where(least, *id, self.is_unseen(start, table, *id));
        }
        least
    }

    /// Why a session with a snapshot of that start may not make this change, if it may not: the least of its rows whose
    /// newest version it does not see, and who made that version.
    pub fn conflict(
        &self,
        alloc: Global,
        start: u64,
        part: &TableNet,
    ) -> Result<Option<Refusal>, OutOfMemory>
        ensures { IfOk result (λ found. found ≡ conflict (core_of self.now.seats.now self.now.commits.now) self.now.number
            start part.now) }
    {
        let ids = changed_ids(alloc, part)?;
        let Some(row) = self.least_unseen(start, part.table, ids.as_slice()) else {
            return Ok(None);
        };
        let by = self.newest(part.table, row);
        Ok(Some(Refusal::Conflict {
            table: part.table,
            row,
            by,
        }))
    }
}

/// The lesser of two numbers, where the second is one of those that are asked for.
fn lesser_where(least: Option<u64>, id: u64, is_one: bool) -> Option<u64>
    ensures { result ≡ (if is_one then lesser least (Some id) else least) }
{
    if !is_one {
        return least;
    }
    match least {
        None => Some(id),
        Some(other) => Some(other.min(id)),
    }
}
