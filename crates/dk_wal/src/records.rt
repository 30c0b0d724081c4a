//! A commit as a record of the log: its payload behind the payload's length and checksum.
ghost use Rattle.std.specs.Prelude.{◌≡◌, ◌≤◌, ◌<◌, ◌^◌, List, length, drop, IfOk};
ghost use Rattle.dk_bytes.specs.Checksum.{checksum_of};
ghost use Rattle.dk_pages.specs.declared.tree.TableEntry.{TableEntry};
ghost use Rattle.dk_wal.specs.Payload.{IsCommit, payload_bytes};
ghost use Rattle.dk_wal.specs.Records.{framed, record_bytes};
ghost use Rattle.dk_wal.specs.Writable.{IsWritable};

use crate::limits::{FRAME_BYTES, MOST_PAYLOAD};
use crate::payload_size::payload_len;
use crate::put::put_payload;
use dk_bytes::checksum;
use dk_pages::LogCommit;
use dk_types::OutOfMemory;
use std::alloc::Global;

/// The checksum of a payload.
pub(crate) fn sum_of(payload: &[u8]) -> u64
    ensures { result ≡ checksum_of payload.now }
{
    checksum(payload)
}

/// Puts the length and the checksum of a payload into the bytes before it.
fn frame(bytes: &mut [u8])
    requires head { FRAME_BYTES ≤ length bytes.old }
    requires small { length bytes.old < 2 ^ 32 }
    ensures { bytes.new ≡ framed (drop FRAME_BYTES bytes.old) }
{
    let (head, payload) = bytes.split_at_mut(FRAME_BYTES);
    let (len, sum) = head.split_at_mut(4);
    len.copy_from_slice(&(payload.len() as u32).to_le_bytes());
    sum.copy_from_slice(&sum_of(payload).to_le_bytes());
}

/// The record of a commit whose numbers fit. Room is taken once, before the first byte is put.
fn record_with(alloc: Global, commit: &LogCommit, len: usize) -> Result<Vec<u8>, OutOfMemory>
    requires len { len ≡ length (payload_bytes commit.now) }
    requires small { len ≤ MOST_PAYLOAD }
    requires writable { IsWritable commit.now }
    ensures { IfOk result (λ bytes. bytes.items ≡ record_bytes commit.now) }
{
    let mut out = Vec::with_capacity(alloc, FRAME_BYTES + len)?;
    out.extend_from_slice(&[0; FRAME_BYTES])?;
    put_payload(&mut out, commit)?;
    frame(&mut out);
    Ok(out)
}

/// The bytes of a commit's record: the length of its payload, the payload's checksum, and the payload.
pub fn record_of(alloc: Global, commit: &LogCommit) -> Result<Vec<u8>, OutOfMemory>
    requires small { length (payload_bytes commit.now) ≤ MOST_PAYLOAD }
    requires lawful { (tables : List TableEntry) × IsCommit tables commit.now }
    ensures { IfOk result (λ bytes. bytes.items ≡ record_bytes commit.now) }
{
    let len = payload_len(commit) as usize;
    record_with(alloc, commit, len)
}
