//! Numbers of one width, packed into bytes.
ghost use Rattle.std.specs.Prelude.{◌≡◌, ℕ, ◌*◌, ◌^◌, ◌<◌, ◌≤◌, ◌++◌, length, take, option_map, OnOk, IfOk};
ghost use Rattle.std.specs.List.{All};
ghost use Rattle.dk_bytes.specs.Bits.{bit_width, byte_count, packed, numbers_in};
ghost use Rattle.dk_bytes.specs.Fields.{bytes_at};
ghost use Rattle.dk_bytes.specs.Reading.{Gives};

use crate::bits::{BitReader, PendingBits};
use crate::cursor::Cursor;
use crate::field_error::FieldError;
use crate::narrow::{is_zero_behind, numbers_within};
use std::alloc::{AllocError as OutOfMemory, Global};

/// Appends numbers of one width of at most 64 bits. Without memory some bytes may have been appended.
pub fn pack(out: &mut Vec<u8>, width: u32, numbers: &[u64]) -> Result<(), OutOfMemory>
    requires width { width ≤ 64 }
    requires numbers { All (λ number. number < 2 ^ width) numbers.now }
    ensures ok { OnOk result (out.new.items ≡ out.old.items ++ packed width numbers.now) }
    ensures kept { take (length out.old.items) out.new.items ≡ out.old.items }
{
    let mut pending = PendingBits::new();
    for number in numbers {
        pending.put(out, *number, width)?;
    }
    pending.finish(out)
}

/// The first `count` numbers of one width in the bytes, or nothing where a bit behind them is 1.
pub fn unpack(
    alloc: Global,
    bytes: &[u8],
    width: u32,
    count: usize,
) -> Result<Option<Vec<u64>>, OutOfMemory>
    requires { width ≤ 64 }
    ensures { IfOk result (λ found. option_map (λ v. v.items) found ≡ numbers_in width count bytes.now) }
{
    if width as u128 * count as u128 <= 8 * bytes.len() as u128 {
        unpack_within(alloc, bytes, width, count)
    } else {
        unpack_beyond(alloc, bytes, width, count)
    }
}

/// The numbers, where the bytes have them all.
fn unpack_within(
    alloc: Global,
    bytes: &[u8],
    width: u32,
    count: usize,
) -> Result<Option<Vec<u64>>, OutOfMemory>
    requires width { width ≤ 64 }
    requires within { width * count ≤ 8 * length bytes.now }
    ensures { IfOk result (λ found. option_map (λ v. v.items) found ≡ numbers_in width count bytes.now) }
{
    let numbers = numbers_within(alloc, bytes, width, count)?;
    if is_zero_behind(bytes, width, count) {
        Ok(Some(numbers))
    } else {
        Ok(None)
    }
}

/// The numbers, with zeros where the bytes have ended.
fn unpack_beyond(
    alloc: Global,
    bytes: &[u8],
    width: u32,
    count: usize,
) -> Result<Option<Vec<u64>>, OutOfMemory>
    requires { width ≤ 64 }
    ensures { IfOk result (λ found. option_map (λ v. v.items) found ≡ numbers_in width count bytes.now) }
{
    let mut numbers = Vec::with_capacity(alloc, count)?;
    let mut reader = BitReader::new(bytes);
    'numbers: for _ in 0..count {
        numbers.push(reader.take(width))?;
    }
    if reader.is_zero() {
        Ok(Some(numbers))
    } else {
        Ok(None)
    }
}

/// Lends the bytes of so many numbers of that width.
pub fn take_packed<'a>(
    cursor: &mut Cursor<'a>,
    width: u32,
    count: usize,
) -> Result<&'a [u8], FieldError>
    requires { width ≤ 64 }
    ensures { Gives (λ bytes. (bytes.now, cursor.new)) result (bytes_at (byte_count (width * count)) cursor.old) }
{
    let len = byte_count(width, count);
    if len > cursor.left() as u128 {
        return Err(FieldError::Malformed { at: cursor.at() });
    }
    Ok(cursor.take(len as usize)?)
}

/// How many bytes so many numbers of that width have.
pub fn byte_count(width: u32, count: usize) -> u128
    requires { width ≤ 64 }
    ensures { result ≡ byte_count (width * count) }
{
    (width as u128 * count as u128 + 7) / 8
}

/// The least width of a number.
pub fn bit_width(number: u64) -> u32
    ensures value { result ≡ bit_width number }
    ensures fits { number < 2 ^ result }
    ensures most { result ≤ 64 }
    ensures least { (width : ℕ) → number < 2 ^ width → result ≤ width }
{
    64 - number.leading_zeros()
}
