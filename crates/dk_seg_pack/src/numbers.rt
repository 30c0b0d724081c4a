//! The body of numbers that stand for values.
ghost use Rattle.std.specs.Prelude.{◌≡◌, ◌++◌, ◌-◌, ◌<◌, ◌≤◌, ◌^◌, map, length, take, IfOk, OnOk, OnErr};
ghost use Rattle.dk_bytes.specs.Bits.{bit_width};
ghost use Rattle.dk_seg_pack.specs.Packed.{rank, least, greatest, body_of};

use crate::packed::{Frame, put_fields};
use crate::rank::rank_at;
use dk_bytes::{bit_width, cut_if_failed};
use dk_values::OutOfMemory;
use std::alloc::Global;

/// The least and the greatest of some ranks, or of what ranks stand above one.
#[derive(Clone, Copy, Debug)]
pub struct RankRange {
    pub least: u64,
    pub greatest: u64,
}

/// The least and the greatest rank; of no numbers the greatest rank of all and 0.
pub fn range_of(numbers: &[i64]) -> RankRange
    ensures least { result.least ≡ least (map rank numbers.now) }
    ensures greatest { result.greatest ≡ greatest (map rank numbers.now) }
{
    RankRange {
        least: least(numbers),
        greatest: greatest(numbers),
    }
}

fn least(numbers: &[i64]) -> u64
    ensures { result ≡ least (map rank numbers.now) }
{
    numbers
        .iter()
        .map(|number| rank_at(number))
        .fold(u64::MAX, |least, rank| least.min(rank))
}

fn greatest(numbers: &[i64]) -> u64
    ensures { result ≡ greatest (map rank numbers.now) }
{
    numbers
        .iter()
        .map(|number| rank_at(number))
        .fold(0, |greatest, rank| greatest.max(rank))
}

/// The width of the differences of numbers in a range.
pub fn range_width(range: RankRange) -> u32
    ensures value { result ≡ bit_width (range.greatest - range.least) }
    ensures fits { range.greatest - range.least < 2 ^ result }
    ensures most { result ≤ 64 }
{
    bit_width(range.greatest.saturating_sub(range.least))
}

/// Appends the body of numbers in their range.
pub fn put_packed(numbers: &[i64], range: RankRange, out: &mut Vec<u8>) -> Result<(), OutOfMemory>
    requires least { range.least ≡ least (map rank numbers.now) }
    requires greatest { range.greatest ≡ greatest (map rank numbers.now) }
    ensures ok { OnOk result (out.new.items ≡ out.old.items ++ body_of (map rank numbers.now)) }
    ensures err { OnErr result (out.new.items ≡ out.old.items) }
{
    let start = out.len();
    let put = put_body(numbers, range, out);
    cut_if_failed(out, start, put)
}

/// Appends the body. Without memory a part of it may have been appended.
fn put_body(numbers: &[i64], range: RankRange, out: &mut Vec<u8>) -> Result<(), OutOfMemory>
    requires least { range.least ≡ least (map rank numbers.now) }
    requires greatest { range.greatest ≡ greatest (map rank numbers.now) }
    ensures ok { OnOk result (out.new.items ≡ out.old.items ++ body_of (map rank numbers.now)) }
    ensures kept { take (length out.old.items) out.new.items ≡ out.old.items }
{
    let frame = Frame {
        base: range.least,
        width: range_width(range),
    };
    let differences = differences(*out.allocator(), numbers, range.least)?;
    put_fields(frame, &differences, out)
}

/// What the ranks of the numbers stand above that one.
fn differences(alloc: Global, numbers: &[i64], base: u64) -> Result<Vec<u64>, OutOfMemory>
    ensures { IfOk result (λ ds. ds.items ≡ map (λ number. rank number - base) numbers.now) }
{
    numbers
        .iter()
        .map(|number| rank_at(number).saturating_sub(base))
        .collect(alloc)
}
