//! Up to which commit every snapshot sees.
ghost use Rattle.std.specs.Prelude.{◌≡◌};
ghost use Rattle.dk_slow_seats.specs.Folds.{bound_with, bound_from};

use dk_core::Seat;

/// The lesser of a bound and the start of a seat's snapshot, if it has one.
fn lower(bound: u64, seat: &Seat) -> u64
    ensures { result ≡ bound_with bound seat.now }
{
    match &seat.live {
        None => bound,
        Some(live) => bound.min(live.start),
    }
}

/// The greatest number that is no more than the number of commits, nor than the start of any snapshot.
pub fn bound(commits: u64, seats: &[Seat]) -> u64
    ensures { result ≡ bound_from commits seats.now }
{
    let mut bound = commits;
    for seat in seats {
        bound = lower(bound, seat);
    }
    bound
}
