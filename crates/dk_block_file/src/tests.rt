//! A database made, written and flipped on a disk in memory that fails, and on real files.
//!
//! The calls are made through functions over any disk without a contract of their own, since what they say of a disk
//! in memory is long.
ghost use Rattle.dk_device.specs.declared.device.FileId.TheVariants.{Main};
ghost use Rattle.dk_device.specs.Changes.{images_of};
ghost use Rattle.dk_block_file.specs.Current.{HasHeaders};
ghost use Rattle.dk_block_file.specs.Flips.{IsClosed};

use crate::{
    BLOCK_BYTES, BlockBuf, BlockFault, HEADERS_BYTES, create, flip_body, flip_close, flip_open,
    read_block, write_block,
};
use dk_device::{Choice, Disk, Failed, FileId, HostDisk, MemoryDisk};
use dk_header::{DbHeader, HEADER_BYTES, LOG_HEADER_BYTES, NO_ROOT, SUM_BYTES, choose, log_header};
use dk_types::Damage;
use std::alloc::{AllocError, Global};
use std::fs;
use std::process::Abort;
use std::test::Fail;

fn disk_of(alloc: Global, wal: &[u8], failing: &[u64]) -> Result<MemoryDisk, AllocError> {
    Ok(MemoryDisk::new(Vec::new(alloc), wal.to_vec(alloc)?, failing.to_vec(alloc)?))
}

fn lengths<D: Disk>(disk: &D) -> (u64, u64, u64) {
    (disk.moment(), disk.len(FileId::Main), disk.len(FileId::Wal))
}

fn make<D: Disk>(alloc: Global, disk: &mut D) -> Result<(), BlockFault> {
    create(alloc, disk)
}

/// The first two bytes of a block's payload, as they read.
fn first_two<D: Disk>(disk: &mut D, at: u64, buf: &mut BlockBuf) -> Result<(u8, u8), BlockFault> {
    read_block(disk, at, buf)?;
    match buf.payload() {
        [first, second, ..] => Ok((*first, *second)),
        _ => Err(BlockFault::OutOfMemory),
    }
}

/// Makes a database and writes its first block, whose payload begins with 5.
fn make_block<D: Disk>(alloc: Global, disk: &mut D, buf: &mut BlockBuf) -> Result<(), BlockFault> {
    make(alloc, disk)?;
    if disk.len(FileId::Main) < HEADERS_BYTES {
        return Err(BlockFault::DiskFault);
    }
    buf.payload_mut()[0] = 5;
    write_block(disk, 0, buf)
}

#[test]
fn a_block_reads_as_written(rt: HostRuntime) -> Result<(), Fail> {
    let mut disk = disk_of(rt.alloc(), &[], &[])?;
    let mut block = BlockBuf::new(rt.alloc())?;
    make_block(rt.alloc(), &mut disk, &mut block)?;
    block.clear();
    let read = first_two(&mut disk, 0, &mut block);
    assert_eq!(rt; read, Ok((5, 0)));
    let outside = first_two(&mut disk, 1, &mut block);
    let damage = Damage::Outside {
        block: 1,
        blocks: 1,
    };
    assert_eq!(rt; outside, Err(BlockFault::Damaged(damage)));
    Ok(())
}

/// Changes the first byte of the first block's payload past its checksum.
fn spoil<D: Disk>(disk: &mut D) -> Result<(), Failed> {
    let place = HEADERS_BYTES + SUM_BYTES as u64;
    if disk.len(FileId::Main) < place {
        return Err(Failed);
    }
    disk.write_at(FileId::Main, place, &[1])
}

/// Whether a read of the first block names two checksums that differ.
fn is_spoiled(read: Result<(u8, u8), BlockFault>) -> bool {
    match read {
        Err(
            BlockFault::Damaged(
                Damage::Sum {
                    block,
                    stored,
                    computed,
                },
            ),
        ) => block == 0 && stored != computed,
        _ => false,
    }
}

#[test]
fn a_changed_block_is_found(rt: HostRuntime) -> Result<(), Fail> {
    let mut disk = disk_of(rt.alloc(), &[], &[])?;
    let mut block = BlockBuf::new(rt.alloc())?;
    make_block(rt.alloc(), &mut disk, &mut block)?;
    spoil(&mut disk)?;
    let read = first_two(&mut disk, 0, &mut block);
    assert!(rt; is_spoiled(read));
    Ok(())
}

/// How far `create` comes on a disk that fails at a moment, and whether it answers a fault.
fn create_failing(alloc: Global, moment: u64) -> Result<(u64, bool), AllocError> {
    let mut disk = disk_of(alloc, &[], &[moment])?;
    let fails = make(alloc, &mut disk) == Err(BlockFault::DiskFault);
    Ok((disk.moment(), fails))
}

#[test]
fn each_failed_call_ends_the_creation(rt: HostRuntime) -> Result<(), Fail> {
    for moment in 0..6 {
        assert_eq!(rt; create_failing(rt.alloc(), moment)?, (moment + 1, true));
    }
    assert_eq!(rt; create_failing(rt.alloc(), 6)?, (6, false));
    Ok(())
}

/// The image of a moment, which is past.
fn image_of(
    disk: &MemoryDisk,
    moment: u64,
    choice: Choice,
) -> Result<(Vec<u8>, Vec<u8>), AllocError> {
    if moment > disk.moment() {
        return Err(AllocError);
    }
    disk.image_at(moment, choice)
}

/// The iteration of the current header in an image, or 0 where none is current.
fn iteration(main: &[u8]) -> u64 {
    let mut first = [0; HEADER_BYTES];
    let mut second = [0; HEADER_BYTES];
    if main.len() < 3 * HEADER_BYTES {
        return 0;
    }
    first.copy_from_slice(&main[HEADER_BYTES..2 * HEADER_BYTES]);
    second.copy_from_slice(&main[2 * HEADER_BYTES..3 * HEADER_BYTES]);
    match choose(&first, &second) {
        Ok(current) => current.header.iteration,
        Err(_) => 0,
    }
}

/// Checks the iterations of the images of the first moments.
fn check_iterations(
    rt: &impl Abort,
    disk: &MemoryDisk,
    choice: Choice,
    expected: &[u64],
) -> Result<(), AllocError> {
    for moment in 0..expected.len() {
        let image = image_of(disk, moment as u64, choice)?;
        assert_eq!(rt; iteration(image.0.as_slice()), expected[moment]);
    }
    Ok(())
}

/// Makes twin 1 the current one, with this iteration.
fn flip_to<D: Disk>(disk: &mut D, iteration: u64) -> Result<(), BlockFault>
    requires headers { HasHeaders D.Disk disk.old }
    requires closed { IsClosed 1 (images_of D.Disk disk.old Main) }
{
    let header = DbHeader {
        iteration,
        root: NO_ROOT,
        blocks: 0,
    };
    flip_close(disk, 1, false)?;
    flip_body(disk, 1, &header)?;
    flip_open(disk, 1)
}

/// Makes twin 1 the current one, where a first close or body may have failed.
fn flip_again<D: Disk>(disk: &mut D) -> Result<(), BlockFault>
    requires headers { HasHeaders D.Disk disk.old }
    requires closed { IsClosed 1 (images_of D.Disk disk.old Main) }
{
    let header = DbHeader {
        iteration: 3,
        root: NO_ROOT,
        blocks: 0,
    };
    let _ = flip_close(disk, 1, false);
    let _ = flip_body(disk, 1, &header);
    flip_to(disk, 2)
}

fn make_flipped<D: Disk>(alloc: Global, disk: &mut D) -> Result<(), BlockFault> {
    create(alloc, disk)?;
    flip_to(disk, 2)
}

fn make_flipped_again<D: Disk>(alloc: Global, disk: &mut D) -> Result<(), BlockFault> {
    create(alloc, disk)?;
    flip_again(disk)
}

#[test]
fn a_crash_leaves_no_header_or_one_of_two(rt: HostRuntime) -> Result<(), Fail> {
    let mut disk = disk_of(rt.alloc(), &[], &[])?;
    make_flipped(rt.alloc(), &mut disk)?;
    let closed = Choice::Torn { byte: 7 };
    let open = Choice::Torn { byte: 1 };
    check_iterations(
        &rt,
        &disk,
        Choice::Kept,
        &[0, 0, 0, 0, 0, 1, 1, 1, 1, 1, 1, 2, 2],
    )?;
    check_iterations(
        &rt,
        &disk,
        Choice::Lost,
        &[0, 0, 0, 0, 0, 0, 1, 1, 1, 1, 1, 1, 2],
    )?;
    check_iterations(&rt, &disk, closed, &[0, 0, 0, 0, 0, 0, 1, 1, 1, 1, 1, 1, 2])?;
    check_iterations(&rt, &disk, open, &[0, 0, 0, 0, 0, 0, 1, 1, 1, 1, 1, 2, 2])?;
    Ok(())
}

/// How far two flips come on a disk that fails at a moment of the first, and what a crash then leaves.
fn flip_failing(alloc: Global, moment: u64) -> Result<(u64, u64), Fail> {
    let mut disk = disk_of(alloc, &[], &[moment])?;
    make_flipped_again(alloc, &mut disk)?;
    let end = disk.moment();
    let image = image_of(&disk, end, Choice::Lost)?;
    Ok((end, iteration(image.0.as_slice())))
}

#[test]
fn a_flip_goes_on_after_a_fault(rt: HostRuntime) -> Result<(), Fail> {
    for (moment, end) in [(6, 15), (7, 16), (8, 15), (9, 16)] {
        assert_eq!(rt; flip_failing(rt.alloc(), moment)?, (end, 2));
    }
    Ok(())
}

/// Whether an image of the log is a front of what it was, or no longer than a header.
fn is_front_or_header(image: &[u8], old: &[u8]) -> bool {
    image.len() <= LOG_HEADER_BYTES || old.starts_with(image)
}

/// Checks that an old log is so at each moment of a creation, and has a header of its own behind it.
fn check_log(
    rt: &impl Abort,
    disk: &MemoryDisk,
    choice: Choice,
    old: &[u8],
) -> Result<(), AllocError> {
    for moment in 0..6 {
        let image = image_of(disk, moment, choice)?;
        assert!(rt; is_front_or_header(image.1.as_slice(), old));
    }
    let end = image_of(disk, 6, choice)?;
    assert_eq!(rt; end.1.as_slice(), log_header(1).as_slice());
    Ok(())
}

#[test]
fn an_old_log_is_as_it_was_or_empty(rt: HostRuntime) -> Result<(), Fail> {
    let old = [9; 60];
    let mut disk = disk_of(rt.alloc(), &old, &[])?;
    make(rt.alloc(), &mut disk)?;
    check_log(&rt, &disk, Choice::Kept, &old)?;
    check_log(&rt, &disk, Choice::Lost, &old)?;
    check_log(&rt, &disk, Choice::Torn { byte: 7 }, &old)?;
    Ok(())
}

fn host(rt: &HostRuntime) -> Result<HostDisk, AllocError> {
    HostDisk::at_path(rt, String::from_str(rt.alloc(), "dk_block_file_test.db")?)
}

#[test]
fn a_block_of_a_real_file_is_found_again(rt: HostRuntime) -> Result<(), Fail> {
    let _ = fs::remove_file(&rt, "dk_block_file_test.db");
    let _ = fs::remove_file(&rt, "dk_block_file_test.db.wal");
    let mut block = BlockBuf::new(rt.alloc())?;
    make_block(rt.alloc(), &mut host(&rt)?, &mut block)?;
    block.clear();
    let mut again = host(&rt)?;
    assert_eq!(rt; lengths(&again), (0, HEADERS_BYTES + BLOCK_BYTES, 24));
    let read = first_two(&mut again, 0, &mut block);
    assert_eq!(rt; read, Ok((5, 0)));
    Ok(())
}
