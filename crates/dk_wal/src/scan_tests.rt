//! Logs that are cut, changed, of another iteration, and followed by rubbish; and lengths about the greatest one.
ghost use Rattle.std.specs.Prelude.{◌<◌, ◌^◌, length};

use crate::tests::{CHANGE, CREATION, INSERTION, one_table};
use crate::{LogError, MOST_PAYLOAD, Scan, payload_len, read_payload, record_of, scan};
use dk_bytes::checksum;
use dk_header::log_header;
use dk_pages::{LogCommit, LogTable, Tree};
use dk_rows::Rows;
use dk_types::{Damage, Row};
use dk_values::{Ids, List, OutOfMemory, Value};
use std::alloc::Global;
use std::process::Abort;
use std::test::*;

/// The payload of `CREATE TABLE u (a BIGINT)`.
const SECOND_CREATION: [u8; 8] = [0, 1, 117, 1, 0, 2, 1, 97];

/// Where the header and the six records of the log below end.
const ENDS: [usize; 7] = [24, 44, 97, 150, 219, 239, 292];

/// Appends a record: its payload's length, checksum and bytes.
fn put_record(log: &mut Vec<u8>, payload: &[u8]) -> Result<(), OutOfMemory>
    requires { length payload.now < 2 ^ 32 }
{
    log.extend_from_slice(&(payload.len() as u32).to_le_bytes())?;
    log.extend_from_slice(&checksum(payload).to_le_bytes())?;
    log.extend_from_slice(payload)
}

/// A log of iteration 1 without records.
pub(crate) fn new_log(alloc: Global) -> Result<Vec<u8>, OutOfMemory> {
    log_header(1).to_vec(alloc)
}

/// A log of iteration 1 with the first two records.
pub(crate) fn log_of_two(alloc: Global) -> Result<Vec<u8>, OutOfMemory> {
    let mut log = new_log(alloc)?;
    put_record(&mut log, &CREATION)?;
    put_record(&mut log, &INSERTION)?;
    Ok(log)
}

/// A log of iteration 1 with six records.
fn log_of_six(alloc: Global) -> Result<Vec<u8>, OutOfMemory> {
    let mut log = log_of_two(alloc)?;
    put_record(&mut log, &INSERTION)?;
    put_record(&mut log, &CHANGE)?;
    put_record(&mut log, &SECOND_CREATION)?;
    put_record(&mut log, &INSERTION)?;
    Ok(log)
}

/// Reads a log at iteration 1 with no tables.
pub(crate) fn read(alloc: Global, log: &[u8]) -> Result<Scan, LogError> {
    let tables: Tree = List::new(alloc);
    scan(alloc, log, 1, &tables)
}

/// How many ends stand at or before a place.
fn ends_by(place: usize) -> usize {
    ENDS.iter().filter(|end| **end <= place).count()
}

/// The scan has the first records of the six, so many, and ends behind them with nothing bad.
pub(crate) fn has_first(scan: &Scan, count: usize) -> bool {
    let places = scan.places.as_slice();
    let ends = ENDS.iter().zip(places.iter());
    count < ENDS.len()
        && scan.commits.len() == count
        && places.len() == count
        && ends.into_iter().all(|(end, place)| *end as u64 == *place)
        && scan.end == ENDS[count] as u64
        && scan.bad.is_none()
        && !scan.stale
}

#[test]
fn a_cut_log_keeps_its_whole_records(rt: HostRuntime) -> Result<(), Fail> {
    let log = log_of_six(rt.alloc())?;
    assert_eq!(rt; log.len(), 292);
    for len in 0..=log.len() {
        let read = read(rt.alloc(), &log[..len])?;
        assert!(rt; has_first(&read, ends_by(len).saturating_sub(1)));
    }
    Ok(())
}

/// The log with some bits of a byte changed.
fn read_changed(alloc: Global, log: &[u8], place: usize, bits: u8) -> Result<Scan, LogError> {
    let mut changed = log.to_vec(alloc)?;
    if place < changed.len() {
        changed[place] ^= bits;
    }
    read(alloc, changed.as_slice())
}

/// A changed header is named, and a changed record ends the log before it.
fn is_found(read: &Result<Scan, LogError>, place: usize) -> bool {
    match read {
        Ok(read) => place >= 24 && has_first(read, ends_by(place).saturating_sub(1)),
        Err(LogError::Damaged(Damage::LogHeader { .. })) => place < 24,
        Err(_) => false,
    }
}

#[test]
fn a_changed_byte_is_found(rt: HostRuntime) -> Result<(), Fail> {
    let log = log_of_six(rt.alloc())?;
    for place in 0..log.len() {
        for bits in [1, 128, 255] {
            let read = read_changed(rt.alloc(), log.as_slice(), place, bits);
            assert!(rt; is_found(&read, place));
        }
    }
    Ok(())
}

#[test]
fn no_more_than_a_header_is_no_record(rt: HostRuntime) -> Result<(), Fail> {
    let rubbish = [255; 24];
    for len in 0..=rubbish.len() {
        let read = read(rt.alloc(), &rubbish[..len])?;
        assert!(rt; has_first(&read, 0));
    }
    Ok(())
}

#[test]
fn a_log_of_another_iteration_has_no_record(rt: HostRuntime) -> Result<(), Fail> {
    let log = log_of_six(rt.alloc())?;
    let tables: Tree = List::new(rt.alloc());
    let stale = scan(rt.alloc(), log.as_slice(), 2, &tables)?;
    assert!(rt; stale.stale && stale.commits.is_empty() && stale.end == 24);
    let ahead = scan(rt.alloc(), log.as_slice(), 0, &tables);
    let damage = Damage::LogAhead {
        log: 1,
        iteration: 0,
    };
    assert!(rt; ahead == Err(LogError::Damaged(damage)));
    Ok(())
}

/// What is read of a log of two records with these bytes behind them.
fn read_followed(alloc: Global, bytes: &[u8]) -> Result<Scan, LogError> {
    let mut log = log_of_two(alloc)?;
    log.extend_from_slice(bytes)?;
    read(alloc, log.as_slice())
}

#[test]
fn rubbish_behind_a_record_is_passed_over(rt: HostRuntime) -> Result<(), Fail> {
    // too few bytes for a record, a length past the end, a length past the greatest one, a wrong checksum
    let zeros = [0; 40];
    let past = [29, 0, 0, 0, 1, 2, 3, 4, 5, 6, 7, 8, 0, 0, 0, 0, 0, 0, 0, 0];
    let great = [1, 0, 0, 16, 1, 2, 3, 4, 5, 6, 7, 8, 0, 0, 0, 0, 0, 0, 0, 0];
    let tails: [&[u8]; 5] = [&zeros[..11], &zeros[..12], &zeros, &past, &great];
    for tail in tails {
        assert!(rt; has_first(&read_followed(rt.alloc(), tail)?, 2));
    }
    Ok(())
}

/// The place of the record that is bad, where a log of two records has this one behind them.
fn bad_place(alloc: Global, payload: &[u8]) -> Result<Option<u64>, LogError>
    requires { length payload.now < 2 ^ 32 }
{
    let mut log = log_of_two(alloc)?;
    put_record(&mut log, payload)?;
    let read = read(alloc, log.as_slice())?;
    Ok(read.bad)
}

#[test]
fn a_record_outside_the_grammar_is_named(rt: HostRuntime) -> Result<(), Fail> {
    // no payload; a table that is there; 2^32 - 1 updates, deletes, groups and rows in a few bytes
    let claims: [u8; 23] = [
        1, 1, 0, 0, 0, 0, 0, 255, 255, 255, 255, 255, 255, 255, 255, 255, 255, 255, 255, 255, 255,
        255, 255,
    ];
    assert_eq!(rt; bad_place(rt.alloc(), &[])?, Some(97));
    assert_eq!(rt; bad_place(rt.alloc(), &CREATION)?, Some(97));
    assert_eq!(rt; bad_place(rt.alloc(), &claims)?, Some(97));
    assert_eq!(rt; bad_place(rt.alloc(), &INSERTION)?, None);
    Ok(())
}

/// The record of a payload's commit is its frame.
fn is_framed(alloc: Global, tables: &Tree, payload: &[u8]) -> Result<bool, Fail>
    requires { length payload.now < 2 ^ 32 }
{
    let commit = read_payload(alloc, tables, payload)?;
    if payload_len(&commit) > MOST_PAYLOAD {
        return Ok(false);
    }
    let mut framed = Vec::new(alloc);
    put_record(&mut framed, payload)?;
    let record = record_of(alloc, &commit)?;
    Ok(record.as_slice() == framed.as_slice())
}

#[test]
fn records_are_framed_payloads(rt: HostRuntime) -> Result<(), Fail> {
    let alloc = rt.alloc();
    assert!(rt; is_framed(alloc, &List::new(alloc), &CREATION)?);
    assert!(rt; is_framed(alloc, &one_table(alloc)?, &INSERTION)?);
    assert!(rt; is_framed(alloc, &one_table(alloc)?, &CHANGE)?);
    Ok(())
}

/// So many ascending ids.
fn ids(alloc: Global, count: u64) -> Result<Ids, OutOfMemory> {
    let mut ids = List::new(alloc);
    for id in 0..count {
        ids.push(id)?;
    }
    Ok(ids)
}

/// A row of one value.
fn row_of(alloc: Global, value: Value) -> Result<Row, OutOfMemory> {
    let mut row = List::new(alloc);
    row.push(value)?;
    Ok(row)
}

/// A change of one table with so many deletes, 23 bytes and 8 for each, and these rows.
fn change_of(alloc: Global, deletes: u64, rows: Rows) -> Result<LogCommit, OutOfMemory> {
    let mut tables = List::new(alloc);
    tables.push(LogTable {
        table: 0,
        updates: List::new(alloc),
        deletes: ids(alloc, deletes)?,
        groups: List::new(alloc),
        tail: rows,
    })?;
    Ok(LogCommit::Change { tables })
}

/// How long the payload is with a row of this value, or without one.
fn len_with(alloc: Global, value: Option<Value>) -> Result<u64, OutOfMemory> {
    let mut rows = Rows::new(alloc);
    if let Some(value) = value {
        rows.push(row_of(alloc, value)?)?;
    }
    let commit = change_of(alloc, 33_554_429, rows)?;
    Ok(payload_len(&commit))
}

#[test]
fn lengths_about_the_greatest_are_told(rt: HostRuntime) -> Result<(), Fail> {
    let alloc = rt.alloc();
    assert_eq!(rt; len_with(alloc, None)?, 268_435_455);
    assert_eq!(rt; len_with(alloc, Some(Value::Null))?, 268_435_456);
    assert_eq!(rt; len_with(alloc, Some(Value::Bool(true)))?, 268_435_457);
    assert_eq!(rt; MOST_PAYLOAD, 268_435_456);
    Ok(())
}
