//! Where rows stand: the groups of a table, and their vectors.
ghost use Rattle.std.specs.Prelude.{◌≡◌, ◌==◌, ◌+◌, ◌*◌, ◌&&◌, ◌<◌, ◌^◌, nat_le, nat_lt, sum, if◌then◌else◌};
ghost use Rattle.dk_si.specs.declared.limits.TheConstants.{GROUP_ROWS};
ghost use Rattle.dk_core.specs.Layout.{first_row, next_group, has_vector, is_in_vector};
ghost use Rattle.dk_slow_rules.specs.Rows.{place_behind, is_zero};

use dk_core::layout::{VECTOR_ROWS, VECTORS};
use dk_plain::slices::first;
use dk_si::limits::GROUP_ROWS;
use dk_slow_seats::layout::{Groups, groups_of, rows_in};
use dk_types::VectorId;

/// A row's place behind these groups, where it is not in one of them.
fn place_behind(groups: &[u64], row: u64) -> Option<u64>
    ensures { result ≡ place_behind groups.now row }
{
    let mut left = row;
    for rows in groups {
        if left < *rows {
            return None;
        }
        left -= *rows;
    }
    Some(left)
}

fn is_zero(place: Option<u64>) -> bool
    ensures { result ≡ is_zero place }
{
    match place {
        None => false,
        Some(n) => n == 0,
    }
}

/// Whether a row is the first one behind these groups.
#[tactic(auto, using(crate::proofs::PlaceLemmas::first_behind))]
pub fn is_first_behind(groups: &[u64], row: u64) -> bool
    ensures { result ≡ (row == sum groups.now) }
{
    is_zero(place_behind(groups, row))
}

/// Whether a row is the first one of a group.
pub fn is_first_row(groups: &[u64], group: u64, row: u64) -> bool
    ensures { result ≡ (row == first_row groups.now group) }
{
    is_first_behind(first(groups, group), row)
}

/// So many groups, or one more where the last of them has no room.
fn next_behind(before: u64, rows: u64) -> u64
    requires { before + 1 < 2 ^ 64 }
    ensures { result ≡ (if nat_lt rows GROUP_ROWS then before else before + 1) }
{
    if rows < GROUP_ROWS as u64 {
        before
    } else {
        before + 1
    }
}

/// The group that the next rows go into: the last one where it has room, else a new one.
#[tactic(auto, using(crate::proofs::PlaceLemmas::next_end))]
pub fn next_group(groups: &[u64]) -> u64
    ensures { result ≡ next_group groups.now }
{
    let mut next = 0;
    for (before, rows) in groups.iter().enumerate() {
        next = next_behind(before as u64, *rows);
    }
    next
}

/// Whether a vector exists: where its group does.
pub fn has_vector(layout: &[Groups], at: VectorId) -> bool
    ensures { result ≡ has_vector layout.now at }
{
    at.group < groups_of(layout, at.table).len() as u64 && at.vector < VECTORS
}

/// Whether a place in a group is one of the vector's, where the group has so many rows.
fn is_vector_place(vector: u32, rows: u64, place: u64) -> bool
    ensures { result ≡ (nat_le (vector * 2048) place && (nat_lt place ((vector + 1) * 2048) && nat_lt place rows)) }
{
    let begin = vector as u64 * VECTOR_ROWS;
    begin <= place && (place < begin + VECTOR_ROWS && place < rows)
}

/// Whether a row is one of the vector's.
#[tactic(auto, using(crate::proofs::PlaceLemmas::no_place, crate::proofs::PlaceLemmas::vector_place))]
pub fn is_in_vector(groups: &[u64], at: VectorId, row: u64) -> bool
    ensures { result ≡ is_in_vector groups.now at row }
{
    match place_behind(first(groups, at.group), row) {
        None => false,
        Some(place) => is_vector_place(at.vector, rows_in(groups, at.group), place),
    }
}
