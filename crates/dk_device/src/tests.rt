//! What the calls leave, of disks in memory and of real files.
use crate::{Choice, Disk, Failed, FileId, HostDisk, MemoryDisk, cut_synced};
use std::alloc::{AllocError, Global};
use std::fs;
use std::process::Abort;
use std::test::Fail;

fn disk_of(alloc: Global, main: &[u8], failing: &[u64]) -> Result<MemoryDisk, AllocError> {
    Ok(MemoryDisk::new(main.to_vec(alloc)?, Vec::new(alloc), failing.to_vec(alloc)?))
}

fn write<D: Disk>(disk: &mut D, file: FileId, at: u64, bytes: &[u8]) -> Result<(), Failed> {
    if disk.len(file) < at {
        return Err(Failed);
    }
    disk.write_at(file, at, bytes)
}

fn cut<D: Disk>(disk: &mut D, len: u64) -> Result<(), Failed> {
    if disk.len(FileId::Main) < len {
        return Err(Failed);
    }
    disk.cut(FileId::Main, len)
}

/// Cuts Main to two bytes and syncs it.
fn cut_front<D: Disk>(disk: &mut D) -> Result<(), Failed> {
    if disk.len(FileId::Main) < 2 {
        return Err(Failed);
    }
    cut_synced(disk, FileId::Main, 2)
}

fn sync<D: Disk>(disk: &mut D) -> Result<(), Failed> {
    disk.sync(FileId::Main)
}

/// The first eight bytes, with zeros where there are fewer.
fn front<D: Disk>(disk: &mut D) -> Result<[u8; 8], Failed> {
    let mut out = [0; 8];
    let len = disk.len(FileId::Main).min(8) as usize;
    disk.read_at(FileId::Main, 0, &mut out[..len])?;
    Ok(out)
}

fn lengths<D: Disk>(disk: &D) -> (u64, u64, u64) {
    (disk.len(FileId::Main), disk.len(FileId::Wal), disk.moment())
}

#[test]
fn a_write_is_read_and_listed_calls_fail(rt: HostRuntime) -> Result<(), Fail> {
    let mut disk = disk_of(rt.alloc(), b"abcdef", &[1])?;
    write(&mut disk, FileId::Main, 4, b"XYZ")?;
    assert!(rt; cut(&mut disk, 0).is_err());
    assert_eq!(rt; front(&mut disk)?, *b"abcdXYZ\0");
    cut(&mut disk, 2)?;
    sync(&mut disk)?;
    assert_eq!(rt; lengths(&disk), (2, 0, 5));
    assert_eq!(rt; disk.refusals(), 0);
    Ok(())
}

fn check_image(
    rt: &impl Abort,
    disk: &MemoryDisk,
    moment: u64,
    choice: Choice,
    main: &[u8],
) -> Result<(), AllocError> {
    assert!(rt; moment <= disk.moment());
    let image = disk.image_at(moment, choice)?;
    assert_eq!(rt; image.0.as_slice(), main);
    Ok(())
}

fn changed(alloc: Global) -> Result<MemoryDisk, Fail> {
    let mut disk = disk_of(alloc, b"abcdef", &[])?;
    write(&mut disk, FileId::Main, 1, b"XY")?;
    cut(&mut disk, 4)?;
    sync(&mut disk)?;
    write(&mut disk, FileId::Main, 4, b"Z")?;
    Ok(disk)
}

#[test]
fn a_crash_leaves_images_by_choice(rt: HostRuntime) -> Result<(), Fail> {
    let disk = changed(rt.alloc())?;
    let torn = Choice::Torn { byte: b'-' };
    check_image(&rt, &disk, 0, Choice::Kept, b"abcdef")?;
    check_image(&rt, &disk, 1, Choice::Kept, b"aXYdef")?;
    check_image(&rt, &disk, 1, torn, b"a--def")?;
    check_image(&rt, &disk, 2, Choice::Lost, b"abcdef")?;
    check_image(&rt, &disk, 2, torn, b"a--d")?;
    check_image(&rt, &disk, 3, Choice::Lost, b"aXYd")?;
    check_image(&rt, &disk, 4, Choice::Kept, b"aXYdZ")?;
    check_image(&rt, &disk, 4, torn, b"aXYd-")?;
    Ok(())
}

/// The images before a cut, behind it, and behind a write that lengthens the file again.
fn check_cut(
    rt: &impl Abort,
    disk: &MemoryDisk,
    choice: Choice,
    mains: (&[u8], &[u8], &[u8]),
) -> Result<(), AllocError> {
    check_image(rt, disk, 0, choice, mains.0)?;
    check_image(rt, disk, 1, choice, mains.1)?;
    check_image(rt, disk, 2, choice, mains.2)
}

#[test]
fn a_cut_leaves_a_front(rt: HostRuntime) -> Result<(), Fail> {
    let mut disk = disk_of(rt.alloc(), b"abcdef", &[])?;
    cut(&mut disk, 2)?;
    write(&mut disk, FileId::Main, 2, b"XYZ")?;
    check_cut(&rt, &disk, Choice::Kept, (b"abcdef", b"ab", b"abXYZ"))?;
    check_cut(&rt, &disk, Choice::Lost, (b"abcdef", b"abcdef", b"abcdef"))?;
    let torn = Choice::Torn { byte: b'-' };
    check_cut(&rt, &disk, torn, (b"abcdef", b"ab", b"ab---"))?;
    Ok(())
}

#[test]
fn a_synced_cut_leaves_its_front(rt: HostRuntime) -> Result<(), Fail> {
    let mut disk = disk_of(rt.alloc(), b"abcdef", &[])?;
    cut_front(&mut disk)?;
    check_cut(&rt, &disk, Choice::Kept, (b"abcdef", b"ab", b"ab"))?;
    check_cut(&rt, &disk, Choice::Lost, (b"abcdef", b"abcdef", b"ab"))?;
    Ok(())
}

fn host(rt: &HostRuntime, path: &str) -> Result<HostDisk, AllocError> {
    HostDisk::at_path(rt, String::from_str(rt.alloc(), path)?)
}

fn leave_a_file(rt: &HostRuntime) -> Result<(), Fail> {
    let mut disk = host(rt, "dk_device_test.db")?;
    write(&mut disk, FileId::Main, 0, b"hello, disk")?;
    cut(&mut disk, 5)?;
    sync(&mut disk)?;
    write(&mut disk, FileId::Wal, 0, b"log")?;
    Ok(())
}

#[test]
fn a_real_file_is_found_again(rt: HostRuntime) -> Result<(), Fail> {
    let _ = fs::remove_file(&rt, "dk_device_test.db");
    let _ = fs::remove_file(&rt, "dk_device_test.db.wal");
    leave_a_file(&rt)?;
    let mut again = host(&rt, "dk_device_test.db")?;
    assert_eq!(rt; lengths(&again), (5, 3, 0));
    assert_eq!(rt; front(&mut again)?, *b"hello\0\0\0");
    Ok(())
}

#[test]
fn a_path_that_is_no_file_fails(rt: HostRuntime) -> Result<(), Fail> {
    let mut disk = host(&rt, "no_such_folder/x.db")?;
    assert!(rt; sync(&mut disk).is_err());
    assert_eq!(rt; lengths(&disk), (0, 0, 1));
    Ok(())
}
