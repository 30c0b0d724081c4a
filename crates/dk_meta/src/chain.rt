//! The payload of a block of a chain: a byte string that is kept in blocks, each of which names the next one.
ghost use Rattle.std.specs.Prelude.{◌≡◌, ◌+◌, ◌-◌, ◌*◌, ◌<◌, ◌≤◌, ◌==◌, ◌++◌, ℕ, IsTrue, Ok, Some, length, replicate, IfOk};
ghost use Rattle.std.specs.List.{list_all};
ghost use Rattle.std.specs.Int.{w32, w64, to_le_bytes, from_le_bytes};
ghost use Rattle.dk_bytes.specs.Reading.{Answers};
ghost use Rattle.dk_meta.specs.Strings.{IsString};
ghost use Rattle.dk_meta.specs.Chain.{Part, IsPart, filled, is_length, next_number, next_of, part_bytes, part_at};

use crate::limits::{NO_BLOCK, PART_BYTES, PAYLOAD_BYTES};
use dk_bytes::word_of;
use thiserror::Error;

/// A part of a chain: the block of the next part, if there is one, and the bytes of this one.
#[derive(Clone, Copy, Debug, PartialEq, Eq)]
pub struct ChainPart<'a> {
    pub next: Option<u64>,
    pub bytes: &'a [u8],
}

/// A block of a chain is none: so many of its bytes are joined before the place that breaks a rule.
#[derive(Clone, Copy, Debug, PartialEq, Eq, Error)]
#[error("malformed behind {joined} bytes")]
pub struct ChainFault {
    pub joined: u64,
}

/// The block that a number names.
fn next_of(number: u64) -> Option<u64>
    ensures { result ≡ next_of number }
{
    if number == NO_BLOCK {
        None
    } else {
        Some(number)
    }
}

/// The number that names a block.
fn next_number(next: Option<u64>) -> u64
    ensures { result ≡ next_number next }
{
    match next {
        None => NO_BLOCK,
        Some(block) => block,
    }
}

/// Whether a part before this next block may have so many bytes.
fn is_length(next: Option<u64>, len: usize) -> bool
    ensures test { result ≡ is_length next len }
    ensures few { IsTrue result → len ≤ PART_BYTES }
{
    match next {
        None => 0 < len && len <= PART_BYTES,
        Some(_) => len == PART_BYTES,
    }
}

/// Whether all bytes are zero.
fn are_zero(bytes: &[u8]) -> bool
    ensures { result ≡ list_all (λ byte. byte == 0) bytes.now }
{
    bytes.iter().all(|byte| *byte == 0)
}

/// The number of four bytes, the least byte first.
fn half_of(bytes: &[u8]) -> u32
    requires { length bytes.now ≡ 4 }
    ensures { result ≡ from_le_bytes w32 bytes.now }
{
    u32::from_le_bytes([bytes[0], bytes[1], bytes[2], bytes[3]])
}

/// Reads the part that a block of a chain holds.
pub fn read_part(payload: &[u8]) -> Result<ChainPart<'_>, ChainFault>
    requires { length payload.now ≡ PAYLOAD_BYTES }
    ensures found { IfOk result (λ p.
        IsString IsPart part_bytes (record { next = p.next; bytes = p.bytes.now }) payload.now) }
    ensures only { (part : Part) → IsString IsPart part_bytes part payload.now
        → Answers (λ fault. Some fault.joined) (λ p. record { next = p.next; bytes = p.bytes.now }) result (Ok part) }
    ensures place { Answers (λ fault. Some fault.joined)
        (λ p. record { next = p.next; bytes = p.bytes.now }) result (part_at payload.now) }
{
    next_part(payload)
}

fn next_part(payload: &[u8]) -> Result<ChainPart<'_>, ChainFault>
    requires { length payload.now ≡ PAYLOAD_BYTES }
    ensures { Answers (λ fault. Some fault.joined)
        (λ p. record { next = p.next; bytes = p.bytes.now }) result (part_at payload.now) }
{
    let (number, rest) = payload.split_at(8);
    let (used, rest) = rest.split_at(4);
    filled(next_of(word_of(number)), half_of(used) as usize, rest)
}

/// The first bytes as a part, where zeros stand behind them.
fn filled(next: Option<u64>, used: usize, rest: &[u8]) -> Result<ChainPart<'_>, ChainFault>
    requires { length rest.now ≡ PART_BYTES }
    ensures { Answers (λ fault. Some fault.joined)
        (λ p. record { next = p.next; bytes = p.bytes.now }) result (filled next used rest.now) }
{
    if !is_length(next, used) {
        return Err(ChainFault { joined: 0 });
    }
    let (bytes, zeros) = rest.split_at(used);
    if are_zero(zeros) {
        Ok(ChainPart { next, bytes })
    } else {
        Err(ChainFault {
            joined: used as u64,
        })
    }
}

/// Writes a part into the payload of its block.
pub fn write_part(payload: &mut [u8], next: Option<u64>, bytes: &[u8])
    requires len { length payload.old ≡ PAYLOAD_BYTES }
    requires part { IsPart (record { next = next; bytes = bytes.now }) }
    ensures { IsString IsPart part_bytes (record { next = next; bytes = bytes.now }) payload.new }
{
    put_part(payload, next_number(next), bytes);
}

/// The next block, the number of bytes, the bytes, and zeros.
fn put_part(payload: &mut [u8], next: u64, bytes: &[u8])
    requires len { length payload.old ≡ PAYLOAD_BYTES }
    requires few { length bytes.now ≤ PART_BYTES }
    ensures { payload.new ≡ to_le_bytes w64 next ++ (to_le_bytes w32 (length bytes.now)
        ++ (bytes.now ++ replicate (PART_BYTES - length bytes.now) 0)) }
{
    let (number, rest) = payload.split_at_mut(8);
    let (used, rest) = rest.split_at_mut(4);
    number.copy_from_slice(&next.to_le_bytes());
    used.copy_from_slice(&(bytes.len() as u32).to_le_bytes());
    put_bytes(rest, bytes);
}

/// The bytes, and zeros behind them.
fn put_bytes(rest: &mut [u8], bytes: &[u8])
    requires len { length rest.old ≡ PART_BYTES }
    requires few { length bytes.now ≤ PART_BYTES }
    ensures { rest.new ≡ bytes.now ++ replicate (PART_BYTES - length bytes.now) 0 }
{
    let (part, zeros) = rest.split_at_mut(bytes.len());
    part.copy_from_slice(bytes);
    zeros.fill(0);
}
