//! The headers read.
ghost use Rattle.std.specs.Prelude.{◌≡◌, ◌+◌, ◌≤◌, ◌<◌, ◌==◌, not, ℕ, Ok, length, drop, IfSome};
ghost use Rattle.std.specs.List.{position};
ghost use Rattle.std.specs.Int.{w32, w64, from_le_bytes};
ghost use Rattle.dk_bytes.specs.Checksum.{checksum_of};
ghost use Rattle.dk_header.specs.Layout.{number_at, version_at, first_nonzero, main_read, body_read, twin_read};

use crate::header::{
    BLOCKS_PLACE, BODY_BYTES, BODY_FIELDS_END, DbHeader, HEADER_BYTES, ITERATION_PLACE, MAGIC,
    MAIN_FIELDS_END, MOST_ITERATIONS, MainFault, OPEN_GATE, ROOT_PLACE, SUM_BYTES, VERSION_PLACE,
};
use dk_bytes::checksum;
use dk_types::{Damage, Part};

/// The number of eight bytes at a place.
fn word_at(bytes: &[u8], at: usize) -> u64
    requires { at + 8 ≤ length bytes.now }
    ensures { result ≡ number_at at bytes.now }
{
    let (_, rest) = bytes.split_at(at);
    dk_bytes::word_of(rest)
}

/// The number of four bytes at a place.
fn half_at(bytes: &[u8], at: usize) -> u32
    requires { at + 4 ≤ length bytes.now }
    ensures { result ≡ from_le_bytes w32 (drop at bytes.now) }
{
    let (_, rest) = bytes.split_at(at);
    u32::from_le_bytes([rest[0], rest[1], rest[2], rest[3]])
}

fn nonzero_of(bytes: &[u8]) -> Option<usize>
    ensures first { result ≡ position (λ b. not (b == 0)) bytes.now }
    ensures bound { IfSome result (λ place. place < length bytes.now) }
{
    bytes.iter().position(|byte| *byte != 0)
}

/// The place of the first byte from a place on that isn't zero.
fn nonzero_from(bytes: &[u8], from: usize) -> Option<u64>
    requires { from ≤ length bytes.now }
    ensures { result ≡ first_nonzero from bytes.now }
{
    let (_, rest) = bytes.split_at(from);
    match nonzero_of(rest) {
        Some(place) => Some((from + place) as u64),
        None => None,
    }
}

fn sum_behind(bytes: &[u8]) -> u64
    requires { SUM_BYTES ≤ length bytes.now }
    ensures { result ≡ checksum_of (drop SUM_BYTES bytes.now) }
{
    let (_, rest) = bytes.split_at(SUM_BYTES);
    checksum(rest)
}

/// The version that a main header names, whatever its other bytes are.
pub fn version_of(bytes: &[u8; HEADER_BYTES]) -> u64
    ensures version { result ≡ version_at bytes.now }
    ensures read { (version : ℕ) → main_read bytes.now ≡ Ok version → result ≡ version }
{
    word_at(bytes, VERSION_PLACE)
}

/// The version of a main header.
pub fn read_main(bytes: &[u8; HEADER_BYTES]) -> Result<u64, MainFault>
    ensures { result ≡ main_read bytes.now }
{
    if word_at(bytes, 0) != sum_behind(bytes) || half_at(bytes, SUM_BYTES) != MAGIC {
        return Err(MainFault::NotADatabase);
    }
    match nonzero_from(bytes, MAIN_FIELDS_END) {
        Some(at) => Err(MainFault::Malformed { at }),
        None => Ok(version_of(bytes)),
    }
}

/// A database header without its gate. A place in it counts from behind its checksum.
fn read_body(twin: u8, body: &[u8]) -> Result<DbHeader, Damage>
    requires { BODY_FIELDS_END ≤ length body.now }
    ensures { result ≡ body_read twin body.now }
{
    let stored = word_at(body, 0);
    let computed = sum_behind(body);
    if stored != computed {
        return Err(Damage::HeaderSum {
            twin,
            stored,
            computed,
        });
    }
    let iteration = word_at(body, ITERATION_PLACE);
    if iteration == 0 || iteration > MOST_ITERATIONS {
        return Err(Damage::Malformed {
            part: Part::Header,
            at: 0,
        });
    }
    let (_, string) = body.split_at(SUM_BYTES);
    match nonzero_from(string, BODY_FIELDS_END - SUM_BYTES) {
        Some(at) => Err(Damage::Malformed {
            part: Part::Header,
            at,
        }),
        None => Ok(DbHeader {
            iteration,
            root: word_at(body, ROOT_PLACE),
            blocks: word_at(body, BLOCKS_PLACE),
        }),
    }
}

/// A twin's header, where its gate is open.
pub(crate) fn read_twin(twin: u8, bytes: &[u8; HEADER_BYTES]) -> Result<Option<DbHeader>, Damage>
    ensures { result ≡ twin_read twin bytes.now }
{
    if bytes[BODY_BYTES] != OPEN_GATE {
        return Ok(None);
    }
    let (body, _) = bytes.split_at(BODY_BYTES);
    Ok(Some(read_body(twin, body)?))
}
