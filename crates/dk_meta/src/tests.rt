//! Trees and pages that come back, the places of their faults, and a plain reader beside.
mod chains;
mod plain;
mod values;

use crate::{MetaError, read_page, read_tree, write_page, write_tree};
use dk_bytes::{put_u8, put_u16, put_u32, put_u64};
use std::alloc::Global;
use std::process::Abort;
use std::test::*;

/// A page of two columns and three rows, of which the first and the last are deleted. The first column has two
/// segments.
const PAGE: [u8; 76] = [
    3, 0, 0, 0, 2, 0, 2, 0, 0, 0, 0, 0, 0, 0, 2, 0, 0, 0, 2, 0, 5, 0, 0, 0, 0, 0, 0, 0, 0, 0, 0, 0,
    9, 0, 0, 0, 2, 0, 6, 0, 0, 0, 0, 0, 0, 0, 9, 0, 0, 0, 8, 0, 0, 0, 1, 0, 1, 0, 5, 0, 0, 0, 0, 0,
    0, 0, 17, 0, 0, 0, 231, 255, 3, 0, 3, 0,
];

/// A tree of three tables: one group, none, and two.
const TREE: [u8; 88] = [
    3, 0, 1, 97, 1, 0, 2, 1, 120, 1, 0, 0, 0, 0, 0, 0, 0, 7, 0, 0, 0, 0, 0, 0, 0, 0, 224, 1, 0, 1,
    98, 2, 0, 1, 1, 120, 3, 2, 121, 121, 0, 0, 0, 0, 0, 0, 0, 0, 2, 97, 98, 1, 0, 0, 1, 122, 2, 0,
    0, 0, 0, 0, 0, 0, 8, 0, 0, 0, 0, 0, 0, 0, 1, 0, 0, 0, 9, 0, 0, 0, 0, 0, 0, 0, 0, 8, 0, 0,
];

/// The bytes that a tree is written as, or the place of the first fault.
fn tree_again(alloc: Global, bytes: &[u8]) -> Result<Result<Vec<u8>, u64>, Fail> {
    match read_tree(alloc, bytes) {
        Ok(tree) => Ok(Ok(write_tree(alloc, &tree)?)),
        Err(MetaError::Malformed { at }) => Ok(Err(at)),
        Err(MetaError::OutOfMemory) => Err(Fail::new("out of memory")),
    }
}

/// The bytes that a page is written as, or the place of the first fault.
fn page_again(alloc: Global, bytes: &[u8], columns: u16) -> Result<Result<Vec<u8>, u64>, Fail> {
    match read_page(alloc, bytes, columns) {
        Ok(page) => Ok(Ok(write_page(alloc, &page)?)),
        Err(MetaError::Malformed { at }) => Ok(Err(at)),
        Err(MetaError::OutOfMemory) => Err(Fail::new("out of memory")),
    }
}

/// Whether the outcome is what the plain reader finds, and the bytes were written again where it finds no fault.
fn agrees(again: Result<Vec<u8>, u64>, bytes: &[u8], plain: Result<(), u64>) -> bool {
    match (again, plain) {
        (Ok(written), Ok(())) => written.as_slice() == bytes,
        (Err(at), Err(place)) => at == place,
        _ => false,
    }
}

fn is_tree<R: AllocGlobal + Abort>(rt: &R, bytes: &[u8]) -> Result<(), Fail> {
    assert!(rt; agrees(tree_again(rt.alloc(), bytes)?, bytes, plain::tree(bytes)));
    Ok(())
}

fn is_page<R: AllocGlobal + Abort>(rt: &R, bytes: &[u8], columns: u16) -> Result<(), Fail> {
    assert!(rt;
        agrees(
            page_again(rt.alloc(), bytes, columns)?,
            bytes,
            plain::page(bytes, columns)
        )
    );
    Ok(())
}

#[test]
fn a_tree_changed_and_cut(rt: HostRuntime) -> Result<(), Fail> {
    assert!(rt; tree_again(rt.alloc(), &TREE)?.is_ok());
    for end in 0..TREE.len() {
        is_tree(&rt, &TREE[..end])?;
    }
    for place in 0..TREE.len() {
        for turned in 0..256u32 {
            let mut changed = Vec::from_slice(rt.alloc(), &TREE)?;
            changed[place] ^= turned as u8;
            is_tree(&rt, &changed)?;
        }
    }
    Ok(())
}

#[test]
fn a_page_changed_and_cut(rt: HostRuntime) -> Result<(), Fail> {
    assert!(rt; page_again(rt.alloc(), &PAGE, 2)?.is_ok());
    for end in 0..PAGE.len() {
        is_page(&rt, &PAGE[..end], 2)?;
    }
    for place in 0..PAGE.len() {
        for turned in 0..256u32 {
            let mut changed = Vec::from_slice(rt.alloc(), &PAGE)?;
            changed[place] ^= turned as u8;
            is_page(&rt, &changed, 2)?;
        }
    }
    Ok(())
}

/// The page of a group of so many rows, one segment a vector.
fn page_of(alloc: Global, rows: u32, columns: u16) -> Result<Vec<u8>, Fail> {
    let mut out = Vec::new(alloc);
    put_u32(&mut out, rows)?;
    put_u16(&mut out, columns)?;
    put_u32(&mut out, 0)?;
    for _ in 0..columns {
        let mut left = rows;
        for _ in 0..rows.div_ceil(2048) {
            let here = left.min(2048);
            put_u16(&mut out, 1)?;
            put_u64(&mut out, 4)?;
            put_u64(&mut out, 0)?;
            put_u16(&mut out, here as u16)?;
            left = left.saturating_sub(here);
        }
    }
    Ok(out)
}

#[test]
fn pages_of_each_size(rt: HostRuntime) -> Result<(), Fail> {
    for rows in [1, 2047, 2048, 2049, 4096, 122_879, 122_880] {
        let bytes = page_of(rt.alloc(), rows, 3)?;
        is_page(&rt, &bytes, 3)?;
        assert!(rt; page_again(rt.alloc(), &bytes, 3)?.is_ok());
        assert!(rt; page_again(rt.alloc(), &bytes, 4)? == Err(4));
    }
    for rows in [0, 122_881] {
        let bytes = page_of(rt.alloc(), rows, 1)?;
        assert!(rt; page_again(rt.alloc(), &bytes, 1)? == Err(0));
    }
    Ok(())
}

/// A tree of so many tables of so many columns, whose names have `len` bytes.
fn tree_of(alloc: Global, tables: u8, columns: u8, len: u8) -> Result<Vec<u8>, Fail> {
    let mut out = Vec::new(alloc);
    put_u16(&mut out, u16::from(tables))?;
    for table in 0..tables {
        put_name(&mut out, table, len)?;
        put_u16(&mut out, u16::from(columns))?;
        for column in 0..columns {
            put_u8(&mut out, 2)?;
            put_name(&mut out, column, len)?;
        }
        put_u64(&mut out, 0)?;
    }
    Ok(out)
}

/// A name that ends with this byte.
fn put_name(out: &mut Vec<u8>, last: u8, len: u8) -> Result<(), Fail> {
    put_u8(out, len)?;
    for _ in 1..len {
        put_u8(out, 97)?;
    }
    put_u8(out, last)?;
    Ok(())
}

#[test]
fn trees_of_each_size(rt: HostRuntime) -> Result<(), Fail> {
    for (tables, columns, len) in [(0, 1, 1), (1, 1, 1), (1, 64, 63), (64, 64, 1), (64, 1, 63)] {
        let bytes = tree_of(rt.alloc(), tables, columns, len)?;
        is_tree(&rt, &bytes)?;
        assert!(rt; tree_again(rt.alloc(), &bytes)?.is_ok());
    }
    let faults: [(u8, u8, u8, u64); 4] = [
        (65, 1, 1, 0),
        (1, 65, 1, 4),
        (1, 0, 1, 4),
        (1, 1, 64, 2),
    ];
    for (tables, columns, len, place) in faults {
        let bytes = tree_of(rt.alloc(), tables, columns, len)?;
        assert!(rt; tree_again(rt.alloc(), &bytes)? == Err(place));
    }
    Ok(())
}

/// A number of things that the bytes can't hold takes no memory for them.
#[test]
fn great_counts(rt: HostRuntime) -> Result<(), Fail> {
    let mut bytes = tree_of(rt.alloc(), 1, 1, 1)?;
    let end = bytes.len() as u64;
    bytes.truncate(bytes.len().saturating_sub(8));
    put_u64(&mut bytes, u64::MAX)?;
    assert!(rt; tree_again(rt.alloc(), &bytes)? == Err(end));
    let page = [1, 0, 0, 0, 1, 0, 255, 255, 255, 255];
    assert!(rt; page_again(rt.alloc(), &page, 1)? == Err(10));
    Ok(())
}
