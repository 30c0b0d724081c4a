//! A log on a disk in memory: appended to, torn, cut and made anew.
use crate::scan_tests::{has_first, log_of_two, read};
use crate::tests::INSERTION;
use crate::{append, cut_tail, reset};
use dk_device::{Choice, Disk, DiskFault, FileId, MemoryDisk};
use dk_header::log_header;
use std::alloc::{AllocError, Global};
use std::process::Abort;
use std::test::*;

/// A disk with a log of two records, of 97 bytes, which fails at the listed moments.
fn disk_of(alloc: Global, failing: &[u64]) -> Result<MemoryDisk, AllocError> {
    Ok(MemoryDisk::new(Vec::new(alloc), log_of_two(alloc)?, failing.to_vec(alloc)?))
}

/// Appends at the end.
fn append_bytes<D: Disk>(disk: &mut D, bytes: &[u8]) -> Result<u64, DiskFault> {
    let end = disk.len(FileId::Wal);
    append(disk, end, bytes)
}

/// Cuts the log to a length that it has.
fn cut_to<D: Disk>(disk: &mut D, len: u64) -> Result<(), DiskFault> {
    if disk.len(FileId::Wal) < len {
        return Err(DiskFault);
    }
    cut_tail(disk, len)
}

fn new_log<D: Disk>(disk: &mut D) -> Result<(), DiskFault> {
    reset(disk, 2)
}

/// The length of the log, and how many calls were made.
fn state<D: Disk>(disk: &D) -> (u64, u64) {
    (disk.len(FileId::Wal), disk.moment())
}

/// The log in the image of a moment that is past.
fn log_at(disk: &MemoryDisk, moment: u64, choice: Choice) -> Result<Vec<u8>, AllocError> {
    if moment > disk.moment() {
        return Err(AllocError);
    }
    let (_, log) = disk.image_at(moment, choice)?;
    Ok(log)
}

#[test]
fn a_torn_record_is_no_record_and_is_cut(rt: HostRuntime) -> Result<(), Fail> {
    let mut disk = disk_of(rt.alloc(), &[])?;
    assert_eq!(rt; append_bytes(&mut disk, &INSERTION)?, 138);
    assert_eq!(rt; state(&disk), (138, 2));
    let torn = log_at(&disk, 1, Choice::Torn { byte: 0 })?;
    assert_eq!(rt; torn.len(), 138);
    assert!(rt; has_first(&read(rt.alloc(), torn.as_slice())?, 2));
    cut_to(&mut disk, 97)?;
    assert_eq!(rt; state(&disk), (97, 4));
    Ok(())
}

/// How far an append comes on a disk that fails at a moment, and whether it answers a fault.
fn append_failing(alloc: Global, moment: u64) -> Result<(u64, bool), AllocError> {
    let mut disk = disk_of(alloc, &[moment])?;
    let fails = append_bytes(&mut disk, &INSERTION).is_err();
    Ok((disk.moment(), fails))
}

/// The same of a new log.
fn reset_failing(alloc: Global, moment: u64) -> Result<(u64, bool), AllocError> {
    let mut disk = disk_of(alloc, &[moment])?;
    let fails = new_log(&mut disk).is_err();
    Ok((disk.moment(), fails))
}

#[test]
fn a_failed_call_ends_each_change(rt: HostRuntime) -> Result<(), Fail> {
    for moment in 0..2 {
        assert_eq!(rt; append_failing(rt.alloc(), moment)?, (moment + 1, true));
    }
    assert_eq!(rt; append_failing(rt.alloc(), 2)?, (2, false));
    for moment in 0..4 {
        assert_eq!(rt; reset_failing(rt.alloc(), moment)?, (moment + 1, true));
    }
    assert_eq!(rt; reset_failing(rt.alloc(), 4)?, (4, false));
    Ok(())
}

#[test]
fn a_new_log_has_its_header_alone(rt: HostRuntime) -> Result<(), Fail> {
    let mut disk = disk_of(rt.alloc(), &[])?;
    new_log(&mut disk)?;
    assert_eq!(rt; state(&disk), (24, 4));
    let log = log_at(&disk, 4, Choice::Lost)?;
    assert!(rt; log.as_slice() == &log_header(2)[..]);
    assert!(rt; log_at(&disk, 2, Choice::Lost)?.is_empty());
    Ok(())
}
