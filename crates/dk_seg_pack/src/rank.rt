//! The rank of a value: how far its number stands above the least one of 64 bits.
ghost use Rattle.std.specs.Prelude.{◌≡◌, ◌+◌, nat_lt};
ghost use Rattle.dk_seg_pack.specs.Packed.{rank, number_of_rank, rank_of, half_turned};
ghost use Rattle.dk_seg_pack.specs.Above.{number_above, first_rank, end_rank, are_ranks};

use dk_values::{ColType, Value};

/// The rank of the number 0.
const ZERO: u64 = 1 << 63;

fn signed_rank(number: i64) -> u64
    ensures { result ≡ rank number }
{
    number.cast_unsigned().wrapping_add(ZERO)
}

/// The rank of a number.
pub(crate) fn rank_at(number: &i64) -> u64
    ensures { result ≡ rank number.now }
{
    signed_rank(*number)
}

/// How far the value's number stands above the least one of 64 bits.
pub(crate) fn rank_of(value: &Value) -> u64
    ensures { result ≡ rank_of value.now }
{
    match value {
        Value::Bool(truth) => ZERO + *truth as u64,
        Value::Int(number) => signed_rank(*number as i64),
        Value::Big(number) => signed_rank(*number),
        _ => 0,
    }
}

/// The number of that rank.
fn number_of_rank(rank: u64) -> i64
    ensures { result ≡ number_of_rank rank }
{
    rank.wrapping_sub(ZERO).cast_signed()
}

/// The number of the rank so far above the least one.
pub(crate) fn number_above(base: u64, difference: u64) -> i64
    ensures { result ≡ number_above base difference }
{
    number_of_rank(base.wrapping_add(difference))
}

/// The least rank of a value of the type.
fn first_rank(kind: ColType) -> u64
    ensures { result ≡ first_rank kind }
{
    match kind {
        ColType::Bool => ZERO,
        ColType::Int => ZERO - (1 << 31),
        ColType::Big | ColType::Text => 0,
    }
}

/// Whether a rank lies below the least one above all values of the type.
fn is_before_end(kind: ColType, rank: u64) -> bool
    ensures { result ≡ nat_lt rank (end_rank kind) }
{
    match kind {
        ColType::Bool => rank < ZERO + 2,
        ColType::Int => rank < ZERO + (1 << 31),
        ColType::Big => true,
        ColType::Text => false,
    }
}

/// Whether all ranks from the least one to so far above it are those of values of the type.
#[tactic(auto, using(crate::proofs::AboveLemmas::too_high))]
pub(crate) fn are_ranks(kind: ColType, base: u64, greatest: u64) -> bool
    ensures { result ≡ are_ranks kind base (base + greatest) }
{
    match base.checked_add(greatest) {
        Some(top) => first_rank(kind) <= base && is_before_end(kind, top),
        None => false,
    }
}

/// Two's complement of the number of that rank, and the rank of the number with that two's complement.
pub(crate) fn half_turned(rank: u64) -> u64
    ensures { result ≡ half_turned rank }
{
    rank.wrapping_add(ZERO)
}
