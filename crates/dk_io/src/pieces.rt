//! The piece of a source's input that is held.
ghost use Rattle.std.specs.Prelude.{◌≡◌, ◌+◌, ◌<◌, ◌≤◌, [], length, drop, IfOk, OnErr};
ghost use Rattle.std.specs.Io.{ReadsAtMost};
ghost use Rattle.std.specs.Io.KnownBytes.{Consumes, ReadConsumes, IsAtEnd};
ghost use Rattle.dk_fault.specs.Causes.{HasCause};

use crate::streams::Source;
use dk_fault::Failed;
use std::alloc::{AllocError as OutOfMemory, Global};
use std::marker::Model;

// The bytes of one piece.
const PIECE: usize = 65_536;

/// What was read from a source and not yet passed on, in memory that is taken once.
#[derive(Debug, Drop)]
pub struct Piece {
    bytes: Vec<u8>,
    start: usize,
    end: usize,
}

impl Model for Piece {
    ghost use Rattle.std.specs.Prelude.{ℕ, List, ◌-◌, ◌<◌, ◌≤◌, take, drop, vec_len};

    ghost Value = { List ℕ };

    ghost view = { λ p. take (p.end - p.start) (drop p.start p.bytes.items) };

    ghost invariant = { λ p. (p.start ≤ p.end) × (p.end ≤ vec_len p.bytes) × (0 < vec_len p.bytes) };
}

// Reads at most `most` bytes into the front of a buffer.
fn read_front<S: Source>(source: &mut S, buf: &mut [u8], most: usize) -> Result<usize, Failed>
    requires room { 0 < length buf.old }
    requires most { 0 < most }
    ensures most { IfOk result (λ n. n ≤ most) }
    ensures bound { ReadsAtMost result buf.new }
    ensures bytes { ReadConsumes (S.left source.old) (S.left source.new) result buf.new }
    ensures cause { HasCause (S.faults source.old) (S.faults source.new) result }
{
    let room = buf.len().min(most);
    source.read(&mut buf[..room])
}

impl Piece {
    /// Holds nothing.
    pub fn new(alloc: Global) -> Result<Piece, OutOfMemory>
        ensures { IfOk result (λ piece. piece ≡ []) }
    {
        let bytes = vec![in alloc; 0u8; PIECE]?;
        Ok(Piece {
            bytes,
            start: 0,
            end: 0,
        })
    }

    /// The bytes held.
    pub fn held(&self) -> &[u8]
        ensures { result.now ≡ self.now }
    {
        &self.bytes[self.start..self.end]
    }

    /// Lets the first `count` bytes go.
    pub fn pass(&mut self, count: usize)
        requires { count ≤ length self.old }
        ensures rest { self.new ≡ drop count self.old }
        ensures len { length self.new + count ≡ length self.old }
    {
        self.start += count;
    }

    /// Reads at most `most` bytes in the place of those that were held.
    pub fn refill<S: Source>(&mut self, source: &mut S, most: usize) -> Result<usize, Failed>
        requires { 0 < most }
        ensures count { IfOk result (λ n. n ≡ length self.new) }
        ensures most { length self.new ≤ most }
        ensures bytes { Consumes (S.left source.old) (S.left source.new) self.new }
        ensures end { result ≡ Ok 0 → IsAtEnd (S.left source.new) }
        ensures failed { OnErr result (self.new ≡ []) }
        ensures cause { HasCause (S.faults source.old) (S.faults source.new) result }
    {
        self.start = 0;
        self.end = 0;
        let count = read_front(source, self.bytes.as_mut_slice(), most)?;
        self.end = count;
        Ok(count)
    }
}
