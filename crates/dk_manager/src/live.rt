//! The live snapshots of the sessions: how many there are, the oldest, and the commits that are pending.
ghost use Rattle.std.specs.Prelude.{◌≡◌, is_some, length, map};
ghost use Rattle.std.specs.List.{count_by, fold};
ghost use Rattle.dk_stamp.specs.declared.snapshot.TheConstants.{SESSIONS};
ghost use Rattle.dk_manager.specs.State.{lesser_start, pending_entry, with_commit};

use dk_stamp::{Pending, SESSIONS};

/// A session's snapshot, from its begin until its versions are stamped or undone.
#[derive(Clone, Copy, Debug, PartialEq, Eq)]
pub struct LiveSnapshot {
    /// The stamp of what its transaction does.
    pub id: u64,
    /// It sees the commits up to this one.
    pub start: u64,
    /// The number of its own commit, from its point on.
    pub commit: Option<u64>,
}

fn is_live(seat: &Option<LiveSnapshot>) -> bool
    ensures { result ≡ is_some seat.now }
{
    seat.is_some()
}

/// How many snapshots are alive.
pub fn live_count(seats: &[Option<LiveSnapshot>]) -> usize
    ensures { result ≡ count_by is_some seats.now }
{
    seats.iter().filter(|seat| is_live(seat)).count()
}

fn lesser_start(least: u64, seat: &Option<LiveSnapshot>) -> u64
    ensures { result ≡ lesser_start least seat.now }
{
    match seat {
        Some(live) => least.min(live.start),
        None => least,
    }
}

/// The least of this number and the starts of the live snapshots.
pub fn least_start(last: u64, seats: &[Option<LiveSnapshot>]) -> u64
    ensures { result ≡ fold lesser_start last seats.now }
{
    let mut least = last;
    'seats: for seat in seats {
        least = lesser_start(least, seat);
    }
    least
}

fn pending_entry(seat: &Option<LiveSnapshot>) -> Pending
    ensures { result ≡ pending_entry seat.now }
{
    match seat {
        Some(
            LiveSnapshot {
                id,
                commit: Some(number),
                ..
            },
        ) => Pending {
            id: *id,
            number: *number,
        },
        _ => Pending { id: 0, number: 0 },
    }
}

/// The pending commits, each at its session's place.
pub fn pending_commits(seats: &[Option<LiveSnapshot>]) -> [Pending; 32]
    requires { length seats.now ≡ SESSIONS }
    ensures { result ≡ map pending_entry seats.now }
{
    let mut committing = [Pending { id: 0, number: 0 }; 32];
    'entries: for i in 0..SESSIONS {
        committing[i] = pending_entry(&seats[i]);
    }
    committing
}

/// The session's snapshot with the number of its commit.
pub fn with_commit(number: u64, seat: Option<LiveSnapshot>) -> Option<LiveSnapshot>
    ensures { result ≡ with_commit number seat }
{
    match seat {
        Some(live) => Some(LiveSnapshot {
            commit: Some(number),
            ..live
        }),
        None => None,
    }
}
