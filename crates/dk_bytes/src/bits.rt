//! Strings of bits, the least bit first: put together from numbers, and taken apart.
ghost use Rattle.std.specs.Prelude.{◌≡◌, ◌+◌, ◌*◌, ◌/◌, ◌%◌, ◌^◌, ◌<◌, ◌≤◌, ◌↔◌, ◌++◌, IsTrue, MatchOption, OnOk, OnErr, length, take};
ghost use Rattle.std.specs.Simd.Lanes.{number_l as number, digits_l as digits};
ghost use Rattle.std.specs.List.{All};
ghost use Rattle.dk_bytes.specs.Bits.{byte_count, PutsBehind};

use crate::put::put_u64;
use crate::word::{last_word, word_of};
use std::alloc::AllocError as OutOfMemory;
use std::marker::Model;

/// One more than the greatest word.
const WORD: u128 = 1 << 64;

/// The bits of a word that isn't full yet, the least bit first.
#[derive(Drop)]
pub(crate) struct PendingBits {
    number: u128,
    count: u32,
}

impl Model for PendingBits {
    ghost use Rattle.std.specs.Prelude.{◌^◌, ◌<◌};
    ghost use Rattle.dk_bytes.specs.Bits.{Pending};

    ghost Value = { Pending };

    ghost view = { λ b. record { number = b.number; count = b.count } };

    ghost invariant = { λ b. (b.number < 2 ^ b.count) × (b.count < 64) };
}

impl PendingBits {
    pub(crate) fn new() -> Self
        ensures number { result.number ≡ 0 }
        ensures count { result.count ≡ 0 }
    {
        PendingBits {
            number: 0,
            count: 0,
        }
    }

    /// Adds the bits of a number, and gives out a word where one is full.
    pub(crate) fn push(&mut self, number: u64, width: u32) -> Option<u64>
        requires width { width ≤ 64 }
        requires number { number < 2 ^ width }
        ensures count { MatchOption result
            (self.new.count ≡ self.old.count + width)
            (λ _. self.new.count + 64 ≡ self.old.count + width) }
        ensures number { MatchOption result
            (self.new.number ≡ self.old.number + 2 ^ self.old.count * number)
            (λ word. word + 2 ^ 64 * self.new.number ≡ self.old.number + 2 ^ self.old.count * number) }
    {
        let all = self.number + ((number as u128) << self.count);
        let count = self.count + width;
        if count < 64 {
            self.number = all;
            self.count = count;
            return None;
        }
        self.number = all / WORD;
        self.count = count - 64;
        Some((all % WORD) as u64)
    }

    /// Adds the bits of a number, and appends the word that is full.
    pub(crate) fn put(
        &mut self,
        out: &mut Vec<u8>,
        number: u64,
        width: u32,
    ) -> Result<(), OutOfMemory>
        requires width { width ≤ 64 }
        requires number { number < 2 ^ width }
        ensures ok { OnOk result (PutsBehind out.old.items out.new.items self.old self.new width number) }
        ensures kept { take (length out.old.items) out.new.items ≡ out.old.items }
    {
        match self.push(number, width) {
            None => Ok(()),
            Some(word) => put_u64(out, word),
        }
    }

    /// The bytes of what is left, the last one filled with zeros.
    #[tactic(auto, using(crate::proofs::DigitLemmas::front_bytes))]
    pub(crate) fn finish(self, out: &mut Vec<u8>) -> Result<(), OutOfMemory>
        ensures ok { OnOk result (out.new.items ≡ out.old.items ++ digits 256 (byte_count self.count) self.number) }
        ensures err { OnErr result (out.new.items ≡ out.old.items) }
    {
        let len = (self.count as usize + 7) / 8;
        let bytes = (self.number as u64).to_le_bytes();
        out.extend_from_slice(&bytes[..len])
    }
}

/// Takes numbers off the front of a string of bits, and zeros where it has ended.
#[derive(Drop)]
pub(crate) struct BitReader<'a> {
    held: u128,
    count: u32,
    rest: &'a [u8],
}

impl<'a> Model for BitReader<'a> {
    ghost use Rattle.std.specs.Prelude.{ℕ, ◌+◌, ◌*◌, ◌^◌, ◌<◌};
    ghost use Rattle.std.specs.Simd.Lanes.{number_l};

    ghost Value = { ℕ };

    ghost view = { λ r. r.held + 2 ^ r.count * number_l 256 r.rest.now };

    ghost invariant = { λ r. (r.held < 2 ^ r.count) × (r.count < 64) };
}

impl<'a> BitReader<'a> {
    pub(crate) fn new(bytes: &'a [u8]) -> Self
        ensures { result ≡ number 256 bytes.now }
    {
        BitReader {
            held: 0,
            count: 0,
            rest: bytes,
        }
    }

    /// The next number of that width.
    pub(crate) fn take(&mut self, width: u32) -> u64
        requires { width ≤ 64 }
        ensures value { result ≡ self.old % 2 ^ width }
        ensures left { self.new ≡ self.old / 2 ^ width }
    {
        let (held, count, rest) = filled(self.held, self.count, self.rest, width);
        let mask = (1u128 << width) - 1;
        self.held = held >> width;
        self.count = count - width;
        self.rest = rest;
        (held & mask) as u64
    }

    /// Whether no bit is left that is 1.
    pub(crate) fn is_zero(&self) -> bool
        ensures { IsTrue result ↔ (self.now ≡ 0) }
    {
        self.held == 0 && are_zero(self.rest)
    }
}

/// The held bits with a word of the bytes above them, where a number of that width needs it.
fn filled(held: u128, count: u32, rest: &[u8], width: u32) -> (u128, u32, &[u8])
    requires held { held < 2 ^ count }
    requires count { count < 64 }
    requires width { width ≤ 64 }
    ensures number { result.0 + 2 ^ result.1 * number 256 result.2.now ≡ held + 2 ^ count * number 256 rest.now }
    ensures below { result.0 < 2 ^ result.1 }
    ensures enough { width ≤ result.1 }
    ensures most { result.1 < width + 64 }
{
    if count >= width {
        return (held, count, rest);
    }
    let (word, behind) = split_word(rest);
    (held + ((word as u128) << count), count + 64, behind)
}

/// Whether all bytes are 0.
fn are_zero(bytes: &[u8]) -> bool
    ensures { IsTrue result ↔ All (λ byte. byte ≡ 0) bytes.now }
{
    bytes.iter().all(|byte| *byte == 0)
}

/// The first eight bytes as a number, the least byte first, with zeros where there are fewer, and the bytes behind
/// them.
pub(crate) fn split_word(bytes: &[u8]) -> (u64, &[u8])
    ensures { number 256 bytes.now ≡ result.0 + 2 ^ 64 * number 256 result.1.now }
{
    if bytes.len() < 8 {
        return (last_word(bytes), &[]);
    }
    let (front, behind) = bytes.split_at(8);
    (word_of(front), behind)
}
