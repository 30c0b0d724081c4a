//! Packed numbers, each found by its place.
ghost use Rattle.std.specs.Prelude.{◌≡◌, ◌*◌, ◌/◌, ◌%◌, ◌^◌, ◌<◌, ◌≤◌, ◌==◌, length, IfOk};
ghost use Rattle.std.specs.Simd.Lanes.{number_l as number};
ghost use Rattle.dk_bytes.specs.Bits.{number_in, unpacked};

use crate::bits::{BitReader, split_word};
use std::alloc::{AllocError as OutOfMemory, Global};

/// The most bits of a number that stand in the word of its first byte, wherever in that byte the number begins.
const NARROW: u32 = 56;

/// The bytes from that one on in which number `i` begins, and how many bits of it stand before the number.
fn split_before(bytes: &[u8], width: u32, i: usize) -> (&[u8], u32)
    requires width { width ≤ 64 }
    requires within { width * i ≤ 8 * length bytes.now }
    ensures number { number 256 result.0.now / 2 ^ result.1 ≡ number 256 bytes.now / 2 ^ (width * i) }
    ensures few { result.1 < 8 }
{
    let bit = width as u128 * i as u128;
    (&bytes[(bit / 8) as usize..], (bit % 8) as u32)
}

/// Number `i` of that width.
pub fn packed_number(bytes: &[u8], width: u32, i: usize) -> u64
    requires width { width ≤ 64 }
    requires within { width * i ≤ 8 * length bytes.now }
    ensures { result ≡ number_in width i bytes.now }
{
    let (front, before) = split_before(bytes, width, i);
    number_behind(front, before, width)
}

/// The number of that width that stands behind so many bits.
fn number_behind(bytes: &[u8], before: u32, width: u32) -> u64
    requires width { width ≤ 64 }
    requires before { before < 8 }
    ensures { result ≡ number 256 bytes.now / 2 ^ before % 2 ^ width }
{
    if width <= NARROW {
        narrow_number(bytes, before, width)
    } else {
        wide_number(bytes, before, width)
    }
}

/// A number whose bits stand in the first word.
fn narrow_number(bytes: &[u8], before: u32, width: u32) -> u64
    requires width { width ≤ 56 }
    requires before { before < 8 }
    ensures { result ≡ number 256 bytes.now / 2 ^ before % 2 ^ width }
{
    let (word, _) = split_word(bytes);
    (word >> before) & ((1 << width) - 1)
}

/// A number whose bits may stand in two words.
fn wide_number(bytes: &[u8], before: u32, width: u32) -> u64
    requires width { width ≤ 64 }
    requires before { before < 8 }
    ensures { result ≡ number 256 bytes.now / 2 ^ before % 2 ^ width }
{
    let mut reader = BitReader::new(bytes);
    let _before = reader.take(before);
    reader.take(width)
}

/// Whether no bit behind so many numbers of that width is 1.
pub fn is_zero_behind(bytes: &[u8], width: u32, count: usize) -> bool
    requires width { width ≤ 64 }
    requires within { width * count ≤ 8 * length bytes.now }
    ensures { result ≡ (number 256 bytes.now / 2 ^ (width * count) == 0) }
{
    let (front, before) = split_before(bytes, width, count);
    let mut reader = BitReader::new(front);
    let _before = reader.take(before);
    reader.is_zero()
}

/// So many numbers of that width.
pub(crate) fn numbers_within(
    alloc: Global,
    bytes: &[u8],
    width: u32,
    count: usize,
) -> Result<Vec<u64>, OutOfMemory>
    requires width { width ≤ 64 }
    requires within { width * count ≤ 8 * length bytes.now }
    ensures { IfOk result (λ numbers. numbers.items ≡ unpacked width count bytes.now) }
{
    let mut numbers = Vec::with_capacity(alloc, count)?;
    'numbers: for i in 0..count {
        numbers.push(packed_number(bytes, width, i))?;
    }
    Ok(numbers)
}
