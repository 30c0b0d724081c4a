//! The header of a log, read.
ghost use Rattle.std.specs.Prelude.{◌≡◌, ◌+◌, ◌≤◌, length, take, drop};
ghost use Rattle.std.specs.Int.{w64, from_le_bytes};
ghost use Rattle.dk_wal.specs.LogReading.{header_sum, header_read};

use crate::limits::{HEADER_SUM_PLACE, ITERATION_PLACE};
use crate::records::sum_of;
use dk_bytes::word_of;
use dk_header::LOG_MAGIC;
use dk_types::Damage;

/// The number of eight bytes at a place.
fn word_at(log: &[u8], at: usize) -> u64
    requires { at + 8 ≤ length log.now }
    ensures { result ≡ from_le_bytes w64 (drop at log.now) }
{
    let (_, rest) = log.split_at(at);
    word_of(rest)
}

/// The checksum that the header is to have.
fn header_sum(log: &[u8]) -> u64
    requires { HEADER_SUM_PLACE ≤ length log.now }
    ensures { result ≡ header_sum log.now }
{
    let (fields, _) = log.split_at(HEADER_SUM_PLACE);
    sum_of(fields)
}

/// Whether a log is of an earlier iteration than the current one. The magic and the checksum are looked at first.
pub(crate) fn is_stale(log: &[u8], iteration: u64) -> Result<bool, Damage>
    requires { HEADER_SUM_PLACE + 8 ≤ length log.now }
    ensures { result ≡ header_read iteration log.now }
{
    let stored = word_at(log, HEADER_SUM_PLACE);
    let computed = header_sum(log);
    if word_at(log, 0) != LOG_MAGIC || stored != computed {
        return Err(Damage::LogHeader { stored, computed });
    }
    let of_log = word_at(log, ITERATION_PLACE);
    if of_log > iteration {
        return Err(Damage::LogAhead {
            log: of_log,
            iteration,
        });
    }
    Ok(of_log < iteration)
}
