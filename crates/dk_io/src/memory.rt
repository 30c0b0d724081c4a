//! A source and a sink in memory, which fail at listed calls.
ghost use Rattle.std.specs.Prelude.{◌≡◌, ℕ, ◌<◌, List, [], Some, length, min, IsErr, is_err, IfOk, Contains, ◌↔◌, take, drop, vec_len};
ghost use Rattle.std.specs.Io.{ReadsAtMost, WritesAtMost};
ghost use Rattle.std.specs.Io.KnownBytes.{ReadConsumes, WriteAppends};
ghost use Rattle.dk_fault.specs.Causes.{HasCause};
ghost use Rattle.dk_io.specs.Memory.{FailsAsListed, after_call, fresh_plan};

use crate::call_plan::CallPlan;
use crate::streams::{Sink, Source};
use dk_fault::{Failed, next_count};
use std::marker::Model;

/// A source over bytes in memory. It fails at the listed calls, counted from 0, and gives at most `piece` bytes a call.
/// The count of calls stands still at 2^64 - 1.
#[derive(Debug, Drop)]
pub struct MemorySource {
    bytes: Vec<u8>,
    at: usize,
    plan: CallPlan,
}

impl Model for MemorySource {
    ghost use Rattle.std.specs.Prelude.{◌<◌, ◌≤◌, drop, vec_len};
    ghost use Rattle.dk_io.specs.Memory.{Feed};

    ghost Value = { Feed };

    ghost view = { λ s. record { left = drop s.at s.bytes.items; plan = s.plan } };

    ghost invariant = { λ s. (s.at ≤ vec_len s.bytes) × (0 < s.plan.piece) };
}

impl MemorySource {
    /// A source of `bytes`. It takes no memory.
    pub fn new(bytes: Vec<u8>, failing: Vec<u64>, piece: usize) -> MemorySource
        requires { 0 < piece }
        ensures exact { result ≡ record {
          left = bytes.items;
          plan = fresh_plan failing.items piece;
        } }
        ensures left { ⟦<MemorySource as Source>⟧.left result ≡ Some bytes.items }
        ensures faults { ⟦<MemorySource as Source>⟧.faults result ≡ 0 }
    {
        MemorySource {
            bytes,
            at: 0,
            plan: CallPlan::new(failing, piece),
        }
    }
}

// Copies the front of `from`, at most `most` bytes and no more than fit, to the front of `to`.
fn copy_front(from: &[u8], most: usize, to: &mut [u8]) -> usize
    ensures count { result ≡ min (min (length from.now) (length to.old)) most }
    ensures bytes { take result to.new ≡ take result from.now }
{
    let count = from.len().min(to.len()).min(most);
    to[..count].copy_from_slice(&from[..count]);
    count
}

impl Source for MemorySource {
    ghost left = { λ s. Some s.left };

    ghost faults = { λ s. s.plan.faults };

    fn read(&mut self, buf: &mut [u8]) -> Result<usize, Failed>
        requires { 0 < length buf.old }
        ensures bound { ReadsAtMost result buf.new }
        ensures bytes { ReadConsumes (Some self.old.left) (Some self.new.left) result buf.new }
        ensures cause { HasCause self.old.plan.faults self.new.plan.faults result }

        ensures listed { IsErr result ↔ Contains self.old.plan.failing self.old.plan.calls }
        ensures amount { IfOk result (λ n.
            n ≡ min (min (length self.old.left) (length buf.old)) self.old.plan.piece) }
        ensures counted { self.new.plan ≡ after_call self.old.plan (is_err result) }
    {
        let most = self.plan.piece();
        if self.plan.begin_call() {
            return Err(Failed);
        }
        let count = copy_front(&self.bytes[self.at..], most, buf);
        self.at += count;
        Ok(count)
    }
}

/// A sink into memory. It fails at the listed calls, counted from 0, and takes at most `piece` bytes a call. A call
/// that finds no memory fails too, and counts in [`MemorySink::refused`] besides. The counts stand still at 2^64 - 1.
#[derive(Debug, Drop)]
pub struct MemorySink {
    bytes: Vec<u8>,
    plan: CallPlan,
    refused: u64,
}

impl Model for MemorySink {
    ghost use Rattle.std.specs.Prelude.{◌<◌};
    ghost use Rattle.dk_io.specs.Memory.{Taker};

    ghost Value = { Taker };

    ghost view = { λ s. record { taken = s.bytes.items; plan = s.plan; refused = s.refused } };

    ghost invariant = { λ s. 0 < s.plan.piece };
}

impl MemorySink {
    /// A sink that has taken nothing. It keeps what it takes in memory of the allocator of `failing`.
    pub fn new(failing: Vec<u64>, piece: usize) -> MemorySink
        requires { 0 < piece }
        ensures exact { result ≡ record {
          taken = [];
          plan = fresh_plan failing.items piece;
          refused = 0;
        } }
        ensures taken { ⟦<MemorySink as Sink>⟧.taken result ≡ Some [] }
        ensures faults { ⟦<MemorySink as Sink>⟧.faults result ≡ 0 }
    {
        MemorySink {
            bytes: Vec::new(*failing.allocator()),
            plan: CallPlan::new(failing, piece),
            refused: 0,
        }
    }

    /// The bytes taken so far.
    pub fn bytes(&self) -> &[u8]
        ensures exact { result.now ≡ self.now.taken }
        ensures taken { ⟦<MemorySink as Sink>⟧.taken self.now ≡ Some result.now }
    {
        self.bytes.as_slice()
    }

    /// How many calls failed for want of memory.
    pub fn refused(&self) -> u64
        ensures { result ≡ self.now.refused }
    {
        self.refused
    }
}

impl Sink for MemorySink {
    ghost taken = { λ s. Some s.taken };

    ghost faults = { λ s. s.plan.faults };

    fn write(&mut self, bytes: &[u8]) -> Result<usize, Failed>
        requires { 0 < length bytes.now }
        ensures bound { WritesAtMost result bytes.now }
        ensures some { IfOk result (λ n. 0 < n) }
        ensures bytes { WriteAppends (Some self.old.taken) (Some self.new.taken) result bytes.now }
        ensures cause { HasCause self.old.plan.faults self.new.plan.faults result }

        ensures listed { FailsAsListed self.old self.new (is_err result) }
        ensures amount { IfOk result (λ n. n ≡ min (length bytes.now) self.old.plan.piece) }
        ensures counted { self.new.plan ≡ after_call self.old.plan (is_err result) }
    {
        let most = self.plan.piece();
        if self.plan.begin_call() {
            return Err(Failed);
        }
        let count = bytes.len().min(most);
        if self.bytes.extend_from_slice(&bytes[..count]).is_err() {
            self.refused = next_count(self.refused);
            return Err(self.plan.fail());
        }
        Ok(count)
    }
}
