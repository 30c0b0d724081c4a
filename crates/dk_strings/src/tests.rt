//! Strings written, read again, damaged, and written on a disk that fails.
//!
//! The calls are made through functions over any disk without a contract of their own, since what they say of a disk
//! in memory is long.
ghost use Rattle.std.specs.Prelude.{◌≡◌, IfOk};

use crate::{StringRef, read_string, write_string};
use dk_block_file::{BlockBuf, HEADERS_BYTES, StoreFault, blocks_in, create, write_block};
use dk_block_man::BlockMan;
use dk_device::{Disk, FileId, MemoryDisk};
use dk_meta::PART_BYTES;
use dk_types::{Damage, Part};
use dk_values::Ids;
use std::alloc::{AllocError, Global};
use std::test::Fail;

fn disk_of(alloc: Global, failing: &[u64]) -> Result<MemoryDisk, AllocError> {
    Ok(MemoryDisk::new(Vec::new(alloc), Vec::new(alloc), failing.to_vec(alloc)?))
}

/// A string of so many bytes that differ.
fn text(alloc: Global, len: usize) -> Result<Vec<u8>, AllocError> {
    let mut bytes = Vec::new(alloc);
    for i in 0..len {
        bytes.push((i % 251) as u8)?;
    }
    Ok(bytes)
}

#[tactic(auto, using(crate::proofs::TakingLemmas::none_used))]
/// Makes a database and writes a string into its first blocks.
fn make<D: Disk>(alloc: Global, disk: &mut D, bytes: &[u8]) -> Result<Ids, StoreFault> {
    create(alloc, disk)?;
    let mut man = BlockMan::new(alloc, 0)?;
    let mut buf = BlockBuf::new(alloc)?;
    if disk.len(FileId::Main) < HEADERS_BYTES || bytes.is_empty() {
        return Err(StoreFault::DiskFault);
    }
    write_string(alloc, disk, &mut man, &mut buf, bytes)
}

/// The blocks of a file, of which one may be used by others.
fn man_of(alloc: Global, blocks: u64, used: Option<u64>) -> Result<BlockMan, AllocError>
    ensures { IfOk result (λ man. man.blocks ≡ blocks) }
{
    let mut man = BlockMan::new(alloc, blocks)?;
    match used {
        Some(block) if block < blocks => {
            man.mark(block);
            Ok(man)
        }
        _ => Ok(man),
    }
}

/// Reads the string at a root, where one block may be used by others.
fn read<D: Disk>(
    alloc: Global,
    disk: &mut D,
    root: u64,
    used: Option<u64>,
) -> Result<Vec<u8>, StoreFault> {
    let mut man = man_of(alloc, blocks_in(disk.len(FileId::Main)), used)?;
    let mut buf = BlockBuf::new(alloc)?;
    let string = StringRef {
        root,
        part: Part::Tree,
    };
    Ok(read_string(alloc, disk, &mut man, &mut buf, string)?.bytes)
}

/// Whether a string of so many bytes is read as it was written, from so many blocks.
fn is_read_again(alloc: Global, len: usize, blocks: usize) -> Result<bool, StoreFault> {
    let mut disk = disk_of(alloc, &[])?;
    let bytes = text(alloc, len)?;
    let chain = make(alloc, &mut disk, bytes.as_slice())?;
    let found = read(alloc, &mut disk, 0, None)?;
    Ok(chain.len() == blocks && found.as_slice() == bytes.as_slice())
}

#[test]
fn a_string_is_read_as_it_was_written(rt: HostRuntime) -> Result<(), Fail> {
    assert_eq!(rt; is_read_again(rt.alloc(), 1, 1), Ok(true));
    assert_eq!(rt; is_read_again(rt.alloc(), PART_BYTES, 1), Ok(true));
    assert_eq!(rt; is_read_again(rt.alloc(), PART_BYTES + 1, 2), Ok(true));
    Ok(())
}

#[test]
fn a_block_outside_or_of_others_is_named(rt: HostRuntime) -> Result<(), Fail> {
    let alloc = rt.alloc();
    let mut disk = disk_of(alloc, &[])?;
    make(alloc, &mut disk, text(alloc, PART_BYTES + 1)?.as_slice())?;
    let outside = read(alloc, &mut disk, 2, None);
    let damage = Damage::Outside {
        block: 2,
        blocks: 2,
    };
    assert_eq!(rt; outside, Err(StoreFault::Damaged(damage)));
    let twice = read(alloc, &mut disk, 0, Some(1));
    assert_eq!(rt; twice, Err(StoreFault::Damaged(Damage::Twice { block: 1 })));
    Ok(())
}

/// Writes the first block as a part that names block 0, and whose number of bytes has these as its lowest.
fn put<D: Disk>(alloc: Global, disk: &mut D, used: (u8, u8, u8)) -> Result<(), StoreFault> {
    let mut buf = BlockBuf::new(alloc)?;
    buf.payload_mut()[8] = used.0;
    buf.payload_mut()[9] = used.1;
    buf.payload_mut()[10] = used.2;
    if disk.len(FileId::Main) < HEADERS_BYTES {
        return Err(StoreFault::DiskFault);
    }
    write_block(disk, 0, &mut buf)
}

#[test]
fn a_chain_that_leads_back_or_is_malformed_is_named(rt: HostRuntime) -> Result<(), Fail> {
    let alloc = rt.alloc();
    let mut disk = disk_of(alloc, &[])?;
    make(alloc, &mut disk, &[7])?;
    put(alloc, &mut disk, (0xEC, 0xFF, 3))?;
    let back = read(alloc, &mut disk, 0, None);
    assert_eq!(rt; back, Err(StoreFault::Damaged(Damage::Twice { block: 0 })));
    put(alloc, &mut disk, (0, 0, 0))?;
    let empty = read(alloc, &mut disk, 0, None);
    let damage = Damage::Malformed {
        part: Part::Tree,
        at: 0,
    };
    assert_eq!(rt; empty, Err(StoreFault::Damaged(damage)));
    Ok(())
}

#[tactic(auto, using(crate::proofs::TakingLemmas::none_used))]
/// Writes a string of two blocks on a disk that fails at a moment, and tells the least unused block behind it.
fn write_failing<D: Disk>(alloc: Global, disk: &mut D) -> Result<(bool, u64), StoreFault> {
    create(alloc, disk)?;
    let mut man = BlockMan::new(alloc, 0)?;
    let mut buf = BlockBuf::new(alloc)?;
    if disk.len(FileId::Main) < HEADERS_BYTES {
        return Err(StoreFault::DiskFault);
    }
    let bytes = vec![in alloc; 5; PART_BYTES + 1]?;
    let written = write_string(alloc, disk, &mut man, &mut buf, bytes.as_slice());
    Ok((written.is_ok(), man.take()?))
}

#[test]
fn a_failed_write_gives_its_blocks_back(rt: HostRuntime) -> Result<(), Fail> {
    let alloc = rt.alloc();
    for (moment, result) in [(6, (false, 0)), (7, (false, 0)), (8, (true, 2))] {
        let mut disk = disk_of(alloc, &[moment])?;
        assert_eq!(rt; write_failing(alloc, &mut disk)?, result);
    }
    Ok(())
}
