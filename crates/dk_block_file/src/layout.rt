//! Where the headers and the blocks of the main file lie.
ghost use Rattle.std.specs.Prelude.{◌≡◌, ◌≤◌};
ghost use Rattle.dk_block_file.specs.Blocks.{blocks_in};
ghost use Rattle.dk_block_file.specs.Flips.{header_place, gate_place};

use dk_header::{BODY_BYTES, HEADER_BYTES};

/// How many bytes the three headers have, in front of the blocks.
pub const HEADERS_BYTES: u64 = 12_288;

/// How many bytes a block has, as in DuckDB.
pub const BLOCK_BYTES: u64 = 262_144;

/// How many of them are its payload, behind the checksum.
pub const PAYLOAD_BYTES: u64 = 262_136;

/// How many whole blocks lie in a main file of this length.
pub fn blocks_in(len: u64) -> u64
    ensures { result ≡ blocks_in len }
{
    len.saturating_sub(HEADERS_BYTES) / BLOCK_BYTES
}

/// Where the header of a twin begins.
pub(crate) fn header_place(twin: u8) -> u64
    requires { twin ≤ 1 }
    ensures { result ≡ header_place twin }
{
    HEADER_BYTES as u64 + HEADER_BYTES as u64 * u64::from(twin)
}

/// Where the gate of a twin stands.
pub(crate) fn gate_place(twin: u8) -> u64
    requires { twin ≤ 1 }
    ensures { result ≡ gate_place twin }
{
    header_place(twin) + BODY_BYTES as u64
}
