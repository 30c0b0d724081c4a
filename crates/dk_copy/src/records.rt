//! The records of the data.
ghost use Rattle.std.specs.Prelude.{◌≡◌, ◌+◌, ◌<◌, [], Some, length, get_or, IfOk};
ghost use Rattle.std.proofs.Common.{Bor, List, ℕ};
ghost use Rattle.csv.specs.Reading.{records, default_config, strip_bom};
ghost use Rattle.csv.specs.Records.{fields_of};
ghost use Rattle.dk_copy.specs.Reading.{HasLeft, Takes};

use csv::{ByteRecord, Reader, ReaderBuilder};
use dk_values::OutOfMemory;
use std::alloc::Global;
use std::io::Read;

/// The bytes behind a byte order mark, or all of them.
#[tactic(auto, unfolding(csv::specs::Reading::strip_bom))]
pub fn behind_mark(bytes: &[u8]) -> &[u8]
    ensures { result.now ≡ strip_bom bytes.now }
{
    match bytes {
        [0xEF, 0xBB, 0xBF, rest @ ..] => rest,
        _ => bytes,
    }
}

/// A reader of all records of the data.
pub fn reader_of(alloc: Global, bytes: &[u8]) -> Reader<&[u8]>
    ensures { HasLeft (λ (s : Bor (List ℕ)). Some s.now) result
        (length (strip_bom bytes.now) + 1) (records default_config (strip_bom bytes.now)) }
{
    ReaderBuilder::new()
        .has_headers(false)
        .flexible(true)
        .from_reader(alloc, bytes)
}

/// Reads the next record, if one is left. Bytes in memory are always there to be read, and records may have any length,
/// so only memory can be wanting.
pub fn take_record<R: Read>(
    reader: &mut Reader<R>,
    fields: &mut ByteRecord,
) -> Result<bool, OutOfMemory>
    ensures { IfOk result (λ found. Takes R.remaining reader.old reader.new found (fields_of fields.new)) }
{
    match reader.read_byte_record(fields) {
        Ok(found) => Ok(found),
        Err(_) => Err(OutOfMemory),
    }
}

/// Lends a field of a record.
pub fn field_at(fields: &ByteRecord, place: usize) -> &[u8]
    requires { place < length (fields_of fields.now) }
    ensures { get_or (fields_of fields.now) place [] ≡ result.now }
{
    match fields.get(place) {
        Some(field) => field,
        None => &[],
    }
}
