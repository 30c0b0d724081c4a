//! The header of the log: its magic, the iteration whose blocks its records follow, and a checksum.
ghost use Rattle.std.specs.Prelude.{◌≡◌, ◌++◌, length};
ghost use Rattle.std.specs.Int.{w64, to_le_bytes};
ghost use Rattle.dk_bytes.specs.Checksum.{checksum_of};
ghost use Rattle.dk_header.specs.LogLayout.{log_header_bytes};

use dk_bytes::checksum;

/// The magic of the log, `DKLOG001`, as a number with the least byte first.
pub const LOG_MAGIC: u64 = 0x3130_3047_4F4C_4B44;

/// How many bytes the log's header has.
pub const LOG_HEADER_BYTES: usize = 24;

fn put_fields(bytes: &mut [u8], iteration: u64)
    requires { length bytes.old ≡ 16 }
    ensures { bytes.new ≡ to_le_bytes w64 LOG_MAGIC ++ to_le_bytes w64 iteration }
{
    let (magic, number) = bytes.split_at_mut(8);
    magic.copy_from_slice(&LOG_MAGIC.to_le_bytes());
    number.copy_from_slice(&iteration.to_le_bytes());
}

fn sum_of(fields: &[u8]) -> u64
    ensures { result ≡ checksum_of fields.now }
{
    checksum(fields)
}

fn put_header(bytes: &mut [u8], iteration: u64)
    requires { length bytes.old ≡ LOG_HEADER_BYTES }
    ensures { bytes.new ≡ log_header_bytes iteration }
{
    let (front, sum) = bytes.split_at_mut(16);
    put_fields(front, iteration);
    sum.copy_from_slice(&sum_of(front).to_le_bytes());
}

/// The header of a log whose records follow the blocks of an iteration.
pub fn log_header(iteration: u64) -> [u8; LOG_HEADER_BYTES]
    ensures { result ≡ log_header_bytes iteration }
{
    let mut bytes = [0; LOG_HEADER_BYTES];
    put_header(&mut bytes, iteration);
    bytes
}
