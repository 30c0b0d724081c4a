//! A log, read from its header to the first record that does not stand whole.
ghost use Rattle.std.specs.Prelude.{◌≡◌, ◌+◌, ◌<◌, ◌≤◌, ◌^◌, false, Ok, length, drop, IfOk, OnOk};
ghost use Rattle.dk_wal.specs.Payload.{payload_read, tables_after};
ghost use Rattle.dk_wal.specs.LogReading.{nothing, with_record, with_commit, read_on, records_in, header_read, log_read, Scans};
ghost use Rattle.dk_wal.specs.Logs.{IsLog};
ghost use Rattle.dk_wal.specs.declared.log_scan.Scan.{Scan};
ghost use Rattle.dk_wal.specs.Steps.{Follows};

use crate::front::payload_at;
use crate::limits::FRAME_BYTES;
use crate::log_header::is_stale;
use crate::log_scan::{LogError, LogReader, Scan};
use crate::read::read_payload;
use dk_bytes::FieldError;
use dk_header::LOG_HEADER_BYTES;
use dk_pages::{LogCommit, TableEntry, Tree};
use dk_types::OutOfMemory;
use dk_values::{List, TryCopy};
use std::alloc::Global;

/// A log without records.
fn empty_scan(alloc: Global, stale: bool) -> Scan
    ensures { result ≡ nothing stale }
{
    Scan {
        commits: List::new(alloc),
        places: List::new(alloc),
        end: LOG_HEADER_BYTES as u64,
        stale,
        bad: None,
    }
}

/// Adds the table that a commit created.
fn note_tables(alloc: Global, tables: &mut Tree, commit: &LogCommit) -> Result<(), OutOfMemory>
    ensures { OnOk result (tables.new ≡ tables_after tables.old commit.now) }
{
    if let LogCommit::Create { name, schema } = commit {
        let entry = TableEntry {
            name: name.copy()?,
            schema: schema.copy()?,
            groups: List::new(alloc),
        };
        tables.push(entry)?;
    }
    Ok(())
}

/// Adds a commit whose record of so many bytes stands at the end.
fn note_record(scan: &mut Scan, commit: LogCommit, bytes: u64) -> Result<(), OutOfMemory>
    requires { scan.old.end + bytes < 2 ^ 64 }
    ensures { OnOk result (scan.new ≡ with_record commit bytes scan.old) }
{
    scan.places.push(scan.end)?;
    scan.commits.push(commit)?;
    scan.end += bytes;
    Ok(())
}

/// Adds a commit, and the table that it created.
fn note_commit(
    alloc: Global,
    reader: &mut LogReader,
    commit: LogCommit,
    bytes: u64,
) -> Result<(), OutOfMemory>
    requires { reader.old.scan.end + bytes < 2 ^ 64 }
    ensures { OnOk result (reader.new ≡ with_commit commit bytes reader.old) }
{
    note_tables(alloc, &mut reader.tables, &commit)?;
    note_record(&mut reader.scan, commit, bytes)
}

/// Reads the payload of the record at the end. False where it is not in the grammar: then its place is marked.
fn read_record(alloc: Global, reader: &mut LogReader, payload: &[u8]) -> Result<bool, OutOfMemory>
    requires { reader.old.scan.end + FRAME_BYTES + length payload.now < 2 ^ 64 }
    ensures { IfOk result (λ good. Follows (payload_read reader.old.tables payload.now)
        (FRAME_BYTES + length payload.now) good reader.old reader.new) }
{
    match read_payload(alloc, &reader.tables, payload) {
        Ok(commit) => {
            note_commit(alloc, reader, commit, (FRAME_BYTES + payload.len()) as u64)?;
            Ok(true)
        }
        Err(FieldError::Malformed { .. }) => {
            reader.scan.bad = Some(reader.scan.end);
            Ok(false)
        }
        Err(FieldError::OutOfMemory) => Err(OutOfMemory),
    }
}

/// Reads all records from these bytes on, which stand behind the header.
fn read_records(alloc: Global, reader: &mut LogReader, bytes: &[u8]) -> Result<(), OutOfMemory>
    requires { reader.old.scan.end + length bytes.now < 2 ^ 64 }
    ensures { OnOk result (reader.new ≡ read_on (length bytes.now) reader.old bytes.now) }
{
    let mut rest = bytes;
    'records: while let Some(payload) = payload_at(rest) {
        if !read_record(alloc, reader, payload)? {
            return Ok(());
        }
        let (_, behind) = rest.split_at(FRAME_BYTES + payload.len());
        rest = behind;
    }
    Ok(())
}

/// The records behind a header that is in order.
fn scan_records(alloc: Global, log: &[u8], tables: &Tree) -> Result<Scan, OutOfMemory>
    requires { LOG_HEADER_BYTES ≤ length log.now }
    ensures { IfOk result (λ scan. scan ≡ records_in tables.now (drop LOG_HEADER_BYTES log.now)) }
{
    let mut reader = LogReader {
        tables: tables.copy()?,
        scan: empty_scan(alloc, false),
    };
    let (_, records) = log.split_at(LOG_HEADER_BYTES);
    read_records(alloc, &mut reader, records)?;
    let LogReader { scan, .. } = reader;
    Ok(scan)
}

/// A log by its header: nothing of one that is no more than that or is stale, else the records behind it.
fn scan_log(alloc: Global, log: &[u8], iteration: u64, tables: &Tree) -> Result<Scan, LogError>
    ensures { Scans result (log_read tables.now iteration log.now) }
{
    if log.len() <= LOG_HEADER_BYTES {
        return Ok(empty_scan(alloc, false));
    }
    match is_stale(log, iteration) {
        Err(damage) => Err(LogError::Damaged(damage)),
        Ok(true) => Ok(empty_scan(alloc, true)),
        Ok(false) => Ok(scan_records(alloc, log, tables)?),
    }
}

/// Reads a log at the current iteration, with the tables of the tree. Whether a record fits the rows and groups that
/// are there is not looked at. A record takes no more memory than its bytes ask for, whatever numbers they claim.
pub fn scan(alloc: Global, log: &[u8], iteration: u64, tables: &Tree) -> Result<Scan, LogError>
    ensures found { IfOk result (λ scan. LOG_HEADER_BYTES < length log.now
        → header_read iteration log.now ≡ Ok false → IsLog tables.now iteration log.now scan) }
    ensures only { (scan : Scan) → IsLog tables.now iteration log.now scan → Scans result (Ok scan) }
    ensures exact { Scans result (log_read tables.now iteration log.now) }
{
    scan_log(alloc, log, iteration, tables)
}
