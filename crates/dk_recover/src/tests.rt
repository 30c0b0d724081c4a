//! Small main files: an empty one, one with a group of three rows, and what is refused of each part.
//!
//! The calls are made through functions over any disk without a contract of their own.
use crate::{OpenError, read_headers, read_tables, read_tree};
use dk_block_file::{BlockBuf, HEADERS_BYTES, StoreFault, blocks_in, create};
use dk_block_man::BlockMan;
use dk_device::{Disk, FileId, MemoryDisk};
use dk_header::{Current, DbHeader, NO_ROOT, VERSION, main_header};
use dk_strings::write_string;
use dk_types::{Damage, Part};
use std::alloc::{AllocError, Global};
use std::test::Fail;

/// The segment of 5, 5, 5. It stands behind the twelve bytes that a chain's first block begins with.
const SEGMENT: [u8; 14] = [1, 0, 3, 0, 0, 0, 5, 0, 0, 0, 0, 0, 0, 0];

/// The page of a group of three rows of one column, whose segment stands in this block.
fn page_in(block: u8, rows: u8, columns: u8) -> [u8; 30] {
    [
        rows, 0, 0, 0, columns, 0, 0, 0, 0, 0, 1, 0, block, 0, 0, 0, 0, 0, 0, 0, 12, 0, 0, 0, 14,
        0, 0, 0, rows, 0,
    ]
}

/// The tree of a table `a` with a column `x` and a group of three rows, whose page stands at block 1.
const TREE: [u8; 29] = [
    1, 0, 1, 97, 1, 0, 2, 1, 120, 1, 0, 0, 0, 0, 0, 0, 0, 1, 0, 0, 0, 0, 0, 0, 0, 3, 0, 0, 0,
];

fn disk_of(alloc: Global, main: &[u8]) -> Result<MemoryDisk, AllocError> {
    Ok(MemoryDisk::new(main.to_vec(alloc)?, Vec::new(alloc), Vec::new(alloc)))
}

/// The current header of a main file of these bytes.
fn headers_of(alloc: Global, main: &[u8]) -> Result<Result<Current, OpenError>, AllocError> {
    let mut disk = disk_of(alloc, main)?;
    Ok(read_headers(&mut disk))
}

fn make_empty<D: Disk>(alloc: Global, disk: &mut D) -> Result<Current, OpenError> {
    match create(alloc, disk) {
        Ok(()) => read_headers(disk),
        Err(_) => Err(OpenError::OutOfMemory),
    }
}

#[test]
fn a_new_database_has_the_first_header(rt: HostRuntime) -> Result<(), Fail> {
    let mut disk = disk_of(rt.alloc(), &[])?;
    let current = Current {
        twin: 0,
        header: DbHeader {
            iteration: 1,
            root: NO_ROOT,
            blocks: 0,
        },
        other_open: false,
    };
    assert_eq!(rt; make_empty(rt.alloc(), &mut disk), Ok(current));
    Ok(())
}

#[test]
fn headers_that_are_none_are_refused(rt: HostRuntime) -> Result<(), Fail> {
    let alloc = rt.alloc();
    let known = main_header(VERSION);
    let (short, _) = known.split_at(4095);
    assert_eq!(rt; headers_of(alloc, short)?, Err(OpenError::NotADatabase));
    assert_eq!(rt;
        headers_of(alloc, &[0; 4096])?,
        Err(OpenError::NotADatabase)
    );
    let other = headers_of(alloc, &main_header(7))?;
    assert_eq!(rt; other, Err(OpenError::VersionUnknown { found: 7 }));
    let damage = Damage::Short {
        need: 12_288,
        have: 4096,
    };
    assert_eq!(rt; headers_of(alloc, &known)?, Err(OpenError::Damaged(damage)));
    Ok(())
}

#[test]
fn a_file_without_an_open_gate_is_refused(rt: HostRuntime) -> Result<(), Fail> {
    let mut main = main_header(VERSION).to_vec(rt.alloc())?;
    main.extend_from_slice(&[0; 8192])?;
    let found = headers_of(rt.alloc(), main.as_slice())?;
    assert_eq!(rt; found, Err(OpenError::Damaged(Damage::NoGate)));
    Ok(())
}

#[tactic(auto, using(crate::proofs::TestLemmas::none_used))]
/// Makes a database whose first blocks hold a segment, a page and a tree.
fn make<D: Disk>(alloc: Global, disk: &mut D, page: &[u8], tree: &[u8]) -> Result<(), StoreFault> {
    create(alloc, disk)?;
    let mut man = BlockMan::new(alloc, 0)?;
    let mut buf = BlockBuf::new(alloc)?;
    if disk.len(FileId::Main) < HEADERS_BYTES || page.is_empty() || tree.is_empty() {
        return Err(StoreFault::DiskFault);
    }
    write_string(alloc, disk, &mut man, &mut buf, &SEGMENT)?;
    write_string(alloc, disk, &mut man, &mut buf, page)?;
    write_string(alloc, disk, &mut man, &mut buf, tree)?;
    Ok(())
}

/// How many tables the tree at a root has, and how many groups the first one.
fn sizes<D: Disk>(alloc: Global, disk: &mut D, root: u64) -> Result<(usize, usize), StoreFault> {
    let mut man = BlockMan::new(alloc, blocks_in(disk.len(FileId::Main)))?;
    let mut buf = BlockBuf::new(alloc)?;
    let tree = read_tree(alloc, disk, &mut man, &mut buf, root)?;
    let tables = read_tables(alloc, disk, &mut man, &mut buf, tree.tables.as_slice())?;
    match tables.as_slice() {
        [] => Ok((0, 0)),
        [table, ..] => Ok((tables.len(), table.pages.len())),
    }
}

/// What is found where these bytes stand for a page and for the tree.
fn found(alloc: Global, page: &[u8], tree: &[u8]) -> Result<(usize, usize), StoreFault> {
    let mut disk = disk_of(alloc, &[])?;
    make(alloc, &mut disk, page, tree)?;
    sizes(alloc, &mut disk, 2)
}

#[test]
fn a_group_is_found_with_its_page(rt: HostRuntime) -> Result<(), Fail> {
    assert_eq!(rt; found(rt.alloc(), &page_in(0, 3, 1), &TREE), Ok((1, 1)));
    assert_eq!(rt; found(rt.alloc(), &page_in(0, 3, 1), &[0, 0]), Ok((0, 0)));
    Ok(())
}

#[test]
fn a_page_of_another_group_is_refused(rt: HostRuntime) -> Result<(), Fail> {
    for (page, at) in [(page_in(0, 4, 1), 0), (page_in(0, 3, 2), 4)] {
        let damage = Damage::Malformed {
            part: Part::Page,
            at,
        };
        assert_eq!(rt;
            found(rt.alloc(), &page, &TREE),
            Err(StoreFault::Damaged(damage))
        );
    }
    Ok(())
}

#[test]
fn a_block_has_one_use(rt: HostRuntime) -> Result<(), Fail> {
    for block in [1, 2] {
        let twice = Damage::Twice {
            block: u64::from(block),
        };
        let page = page_in(block, 3, 1);
        assert_eq!(rt;
            found(rt.alloc(), &page, &TREE),
            Err(StoreFault::Damaged(twice))
        );
    }
    let outside = Damage::Outside {
        block: 9,
        blocks: 3,
    };
    let page = page_in(9, 3, 1);
    assert_eq!(rt;
        found(rt.alloc(), &page, &TREE),
        Err(StoreFault::Damaged(outside))
    );
    Ok(())
}

#[test]
fn a_tree_that_is_none_is_refused(rt: HostRuntime) -> Result<(), Fail> {
    let damage = Damage::Malformed {
        part: Part::Tree,
        at: 2,
    };
    let tree = found(rt.alloc(), &page_in(0, 3, 1), &[0, 0, 0]);
    assert_eq!(rt; tree, Err(StoreFault::Damaged(damage)));
    Ok(())
}
