//! What a Begin finds: whether a further transaction can begin, and the numbers of which none is left.
ghost use Rattle.std.specs.Prelude.{◌≡◌, ◌+◌, ◌*◌, ◌||◌, ◌==◌, length, nat_lt};
ghost use Rattle.std.specs.List.{filter};
ghost use Rattle.dk_si.specs.declared.limits.TheConstants.{MAX_TRANSACTIONS, MAX_ROWS};
ghost use Rattle.dk_si.specs.OneThread.{OPEN_ROWS};
ghost use Rattle.dk_si.specs.Spent.{committed_rows};
ghost use Rattle.dk_si.specs.Weight.{cap};
ghost use Rattle.dk_core.specs.Findings.{has_live};

use dk_core::Seat;
use dk_plain::CommitLog;
use dk_plain::weights::committed_rows;
use dk_si::limits::{MAX_ROWS, MAX_TRANSACTIONS};
use dk_types::Exhausted;

/// Each transaction that is open, and the one that would begin, may have so many new rows.
const OPEN_ROWS: u64 = 1 << 32;

fn has_live(seat: &Seat) -> bool
    ensures { result ≡ has_live seat.now }
{
    seat.live.is_some()
}

/// How many sessions have a snapshot.
pub fn live_count(seats: &[Seat]) -> usize
    ensures { result ≡ length (filter has_live seats.now) }
{
    seats.iter().filter(|seat| has_live(seat)).count()
}

/// Whether no further transaction can begin beside so many, of which this many have begun.
pub fn is_full(log: &CommitLog<'_>, begun: u64, live: usize) -> bool
    ensures { result ≡ (begun == MAX_TRANSACTIONS || nat_lt MAX_ROWS (committed_rows log.now.opened.now
        log.now.commits.now + OPEN_ROWS * (live + 1))) }
{
    let open = (live as u64).saturating_add(1);
    let rows = committed_rows(log).saturating_add(open.saturating_mul(OPEN_ROWS));
    begun == MAX_TRANSACTIONS || MAX_ROWS < rows
}

/// The numbers of which none is left.
pub fn spent_numbers(log: &CommitLog<'_>, begun: u64) -> Exhausted
    ensures { result ≡ record {
      clock = 0;
      rows = cap (committed_rows log.now.opened.now log.now.commits.now);
      transactions = begun;
      iteration = 0;
    } }
{
    Exhausted {
        clock: 0,
        rows: committed_rows(log),
        transactions: begun,
        iteration: 0,
    }
}
