//! Worked bytes: payloads that come back, and payloads that are refused.
use super::*;
use dk_bytes::FieldError;
use dk_pages::{TableEntry, Tree};
use dk_types::Schema;
use dk_values::{Bytes, ColType, Column, List, OutOfMemory};
use std::alloc::Global;
use std::process::Abort;
use std::test::*;

pub(crate) fn bytes(alloc: Global, text: &[u8]) -> Result<Bytes, OutOfMemory> {
    Ok(List::from_vec(Vec::from_slice(alloc, text)?))
}

/// The columns `(a BIGINT)`.
pub(crate) fn schema(alloc: Global) -> Result<Schema, Fail> {
    let column = Column {
        name: bytes(alloc, b"a")?,
        kind: ColType::Big,
    };
    Ok(Schema::new(vec![in alloc; column]?)?)
}

/// A tree of the one table `t (a BIGINT)`.
pub(crate) fn one_table(alloc: Global) -> Result<Tree, Fail> {
    let entry = TableEntry {
        name: bytes(alloc, b"t")?,
        schema: schema(alloc)?,
        groups: List::new(alloc),
    };
    Ok(List::from_vec(vec![in alloc; entry]?))
}

/// The payload is read as a commit, which has that length.
fn comes_back<R: AllocGlobal + Abort>(rt: &R, tables: &Tree, payload: &[u8]) -> Result<(), Fail> {
    let commit = read_payload(rt.alloc(), tables, payload)?;
    assert_eq!(rt; payload_len(&commit), payload.len() as u64);
    Ok(())
}

/// The payload of `CREATE TABLE t (a BIGINT)`.
pub(crate) const CREATION: [u8; 8] = [0, 1, 116, 1, 0, 2, 1, 97];

/// The payload of `INSERT INTO t VALUES (1),(2)` on table 0.
pub(crate) const INSERTION: [u8; 41] = [
    1, 1, 0, 0, 0, 0, 0, 0, 0, 0, 0, 0, 0, 0, 0, 0, 0, 0, 0, 2, 0, 0, 0, 1, 1, 0, 0, 0, 0, 0, 0, 0,
    1, 2, 0, 0, 0, 0, 0, 0, 0,
];

/// An update of row 3, a delete of row 5, a group at block 9 and a row that is null, on table 0.
pub(crate) const CHANGE: [u8; 57] = [
    1, 1, 0, 0, 0, 0, 0, 1, 0, 0, 0, 3, 0, 0, 0, 0, 0, 0, 0, 1, 7, 0, 0, 0, 0, 0, 0, 0, 1, 0, 0, 0,
    5, 0, 0, 0, 0, 0, 0, 0, 1, 0, 0, 0, 9, 0, 0, 0, 0, 0, 0, 0, 1, 0, 0, 0, 0,
];

#[test]
fn payloads_come_back(rt: HostRuntime) -> Result<(), Fail> {
    let alloc = rt.alloc();
    comes_back(&rt, &List::new(alloc), &CREATION)?;
    comes_back(&rt, &one_table(alloc)?, &INSERTION)?;
    comes_back(&rt, &one_table(alloc)?, &CHANGE)
}

#[test]
fn a_payload_that_is_cut_is_refused(rt: HostRuntime) -> Result<(), Fail> {
    let tables = one_table(rt.alloc())?;
    for len in 0..CHANGE.len() {
        let read = read_payload(rt.alloc(), &tables, &CHANGE[..len]);
        assert!(rt; matches!(read, Err(FieldError::Malformed { .. })));
    }
    Ok(())
}

/// The change with another byte at a place is refused.
fn is_refused(alloc: Global, tables: &Tree, place: usize, byte: u8) -> bool {
    let mut bytes = CHANGE;
    if place < bytes.len() {
        bytes[place] = byte;
    }
    read_payload(alloc, tables, &bytes).is_err()
}

#[test]
fn payloads_that_break_a_rule_are_refused(rt: HostRuntime) -> Result<(), Fail> {
    let alloc = rt.alloc();
    let tables = one_table(alloc)?;
    // the tag, the number of tables, the table, the flag of a cell, a row that got new values and went
    let faults: [(usize, u8); 6] = [(0, 2), (1, 0), (1, 2), (3, 1), (19, 2), (32, 3)];
    for (place, byte) in faults {
        assert!(rt; is_refused(alloc, &tables, place, byte));
    }
    assert!(rt; !is_refused(alloc, &tables, 32, 4));
    // a table that is there, and one that is not
    assert!(rt; read_payload(alloc, &tables, &CREATION).is_err());
    assert!(rt; read_payload(alloc, &List::new(alloc), &INSERTION).is_err());
    Ok(())
}
