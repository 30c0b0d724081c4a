//! A block in memory.
ghost use Rattle.std.specs.Prelude.{◌≡◌, ◌≤◌, ◌+◌, ◌++◌, ◌∷◌, [], length, take, drop, IfOk, IfSome, OnOk, OnErr};
ghost use Rattle.std.specs.Borrow.{sem};
ghost use Rattle.std.specs.Int.{w64, to_le_bytes};
ghost use Rattle.dk_bytes.specs.Checksum.{checksum_of};
ghost use Rattle.dk_fault.specs.Causes.{HasCause};
ghost use Rattle.dk_device.specs.Calls.{Makes};
ghost use Rattle.dk_device.specs.Changes.{Looks};
ghost use Rattle.dk_device.specs.declared.device.FileId.TheVariants.{Main};
ghost use Rattle.dk_device.specs.declared.calls.Request.TheVariants.{Read};
ghost use Rattle.dk_block_file.specs.Blocks.{zero_block, stored_sum, payload_sum, with_sum};
ghost use Rattle.dk_block_file.specs.Lending.{LendsPayload};

use crate::layout::{BLOCK_BYTES, PAYLOAD_BYTES};
use dk_bytes::checksum;
use dk_device::{Disk, Failed, FileId};
use dk_header::SUM_BYTES;
use std::alloc::{AllocError as OutOfMemory, Global};
use std::marker::Model;

/// One block: a checksum, and its payload.
#[derive(Drop)]
pub struct BlockBuf {
    bytes: Vec<u8>,
}

impl Model for BlockBuf {
    ghost use Rattle.std.specs.Prelude.{◌≡◌, ℕ, List, length};
    ghost use Rattle.dk_block_file.specs.declared.layout.TheConstants.{BLOCK_BYTES};

    ghost Value = { List ℕ };

    ghost view = { λ b. b.bytes.items };

    ghost invariant = { λ b. length b.bytes.items ≡ BLOCK_BYTES };
}

fn seal_bytes(block: &mut [u8])
    requires { SUM_BYTES ≤ length block.old }
    ensures { block.new ≡
        to_le_bytes w64 (checksum_of (drop SUM_BYTES block.old)) ++ drop SUM_BYTES block.old }
{
    let (sum, payload) = block.split_at_mut(SUM_BYTES);
    sum.copy_from_slice(&checksum(payload).to_le_bytes());
}

fn stored_in(block: &[u8]) -> u64
    requires { SUM_BYTES ≤ length block.now }
    ensures { result ≡ stored_sum block.now }
{
    dk_bytes::word_of(block)
}

fn computed_in(block: &[u8]) -> u64
    requires { SUM_BYTES ≤ length block.now }
    ensures { result ≡ payload_sum block.now }
{
    let (_, payload) = block.split_at(SUM_BYTES);
    checksum(payload)
}

impl BlockBuf {
    /// A block of zeros, which takes all its bytes at once.
    pub fn new(alloc: Global) -> Result<BlockBuf, OutOfMemory>
        ensures { IfOk result (λ block. block ≡ zero_block) }
    {
        Ok(BlockBuf {
            bytes: vec![in alloc; 0; BLOCK_BYTES as usize]?,
        })
    }

    /// Makes all bytes zero.
    pub fn clear(&mut self)
        ensures { self.new ≡ zero_block }
    {
        self.bytes.as_mut_slice().fill(0);
    }

    /// The bytes behind the checksum.
    pub fn payload(&self) -> &[u8]
        ensures bytes { result.now ≡ drop SUM_BYTES self.now }
        ensures len { length result.now ≡ PAYLOAD_BYTES }
    {
        let (_, payload) = self.bytes.as_slice().split_at(SUM_BYTES);
        payload
    }

    /// The bytes behind the checksum, for writing.
    pub fn payload_mut(&mut self) -> &mut [u8]
        ensures* lends { sem 𝓛 (LendsPayload self.entry result) }
        ensures bytes { result.now ≡ drop SUM_BYTES self.old }
        ensures len { length result.now ≡ PAYLOAD_BYTES }
    {
        self.bytes.slice_mut(SUM_BYTES..)
    }

    /// All bytes.
    pub(crate) fn as_slice(&self) -> &[u8]
        ensures bytes { result.now ≡ self.now }
        ensures len { length result.now ≡ BLOCK_BYTES }
    {
        self.bytes.as_slice()
    }

    /// Reads all bytes from a place of the main file.
    pub(crate) fn fill<D: Disk>(&mut self, disk: &mut D, at: u64) -> Result<(), Failed>
        requires { at + BLOCK_BYTES ≤ D.extent disk.old Main }
        ensures whole { length self.old ≡ BLOCK_BYTES }
        ensures bytes { OnOk result (IfSome (D.content disk.old Main)
            (λ main. self.new ≡ take (length self.old) (drop at main))) }
        ensures looks { Looks D.Disk disk.old disk.new }
        ensures calls { Makes D.Disk ((Main, Read at BLOCK_BYTES) ∷ []) disk.old disk.new result }
        ensures cause { HasCause (D.faults disk.old) (D.faults disk.new) result }
    {
        disk.read_at(FileId::Main, at, self.bytes.as_mut_slice())
    }

    /// Puts the payload's checksum in front of it.
    pub(crate) fn seal(&mut self)
        ensures with_sum { self.new ≡ with_sum self.old }
        ensures len { length self.new ≡ BLOCK_BYTES }
    {
        seal_bytes(self.bytes.as_mut_slice());
    }

    /// The checksum in front.
    pub(crate) fn stored(&self) -> u64
        ensures { result ≡ stored_sum self.now }
    {
        stored_in(self.bytes.as_slice())
    }

    /// The payload's checksum.
    pub(crate) fn computed(&self) -> u64
        ensures { result ≡ payload_sum self.now }
    {
        computed_in(self.bytes.as_slice())
    }
}
