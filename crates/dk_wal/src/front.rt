//! The record that stands at the front of bytes.
ghost use Rattle.std.specs.Prelude.{◌≡◌, ◌+◌, ◌≤◌, length, drop, IfSome};
ghost use Rattle.std.proofs.Common.{option_map};
ghost use Rattle.std.specs.Int.{w32, from_le_bytes};
ghost use Rattle.dk_wal.specs.Records.{stored_len, stored_sum, payload_at};
ghost use Rattle.dk_wal.specs.LogReading.{record_len};

use crate::limits::{FRAME_BYTES, MOST_PAYLOAD};
use crate::records::sum_of;
use dk_bytes::word_of;

/// The length of a payload, which stands in front of its record.
fn stored_len(bytes: &[u8]) -> u32
    requires { 4 ≤ length bytes.now }
    ensures { result ≡ stored_len bytes.now }
{
    u32::from_le_bytes([bytes[0], bytes[1], bytes[2], bytes[3]])
}

/// The checksum of a payload, which stands behind its length.
fn stored_sum(bytes: &[u8]) -> u64
    requires { FRAME_BYTES ≤ length bytes.now }
    ensures { result ≡ stored_sum bytes.now }
{
    let (_, rest) = bytes.split_at(4);
    word_of(rest)
}

/// The payload of the record that stands whole at the front, if one does.
pub(crate) fn payload_at(bytes: &[u8]) -> Option<&[u8]>
    ensures payload { option_map (λ p. p.now) result ≡ payload_at bytes.now }
    ensures len { IfSome result (λ p. FRAME_BYTES + length p.now ≡ record_len bytes.now) }
    ensures within { IfSome result (λ p. FRAME_BYTES + length p.now ≤ length bytes.now) }
{
    if bytes.len() < FRAME_BYTES {
        return None;
    }
    let (_, rest) = bytes.split_at(FRAME_BYTES);
    let len = stored_len(bytes);
    if u64::from(len) > MOST_PAYLOAD || rest.len() < len as usize {
        return None;
    }
    let (payload, _) = rest.split_at(len as usize);
    if stored_sum(bytes) != sum_of(payload) {
        return None;
    }
    Some(payload)
}
