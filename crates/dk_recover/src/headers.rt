//! The headers of the main file.
ghost use Rattle.std.specs.Prelude.{◌≡◌, ◌+◌, ◌≤◌, Err, IfOk, IfSome, take, drop};
ghost use Rattle.dk_fault.specs.Causes.{HasCause, HasCauseIf};
ghost use Rattle.dk_device.specs.declared.device.FileId.TheVariants.{Main};
ghost use Rattle.dk_device.specs.Changes.{Looks};
ghost use Rattle.dk_header.specs.declared.header.TheConstants.{HEADER_BYTES};
ghost use Rattle.dk_header.specs.Layout.{main_read, version_at};
ghost use Rattle.dk_block_file.specs.declared.layout.TheConstants.{HEADERS_BYTES};
ghost use Rattle.dk_recover.specs.Headers.{or_damaged, known_version, twins_read, headers_read, Opens};

use crate::refusal::OpenError;
use dk_block_file::HEADERS_BYTES;
use dk_device::{Disk, Failed, FileId};
use dk_header::{Current, HEADER_BYTES, MainFault, VERSION, choose, read_main, version_of};
use dk_types::{Damage, Part};

/// The bytes of the header at a place.
fn read_header<D: Disk>(disk: &mut D, at: u64) -> Result<[u8; HEADER_BYTES], Failed>
    requires { at + HEADER_BYTES ≤ D.extent disk.old Main }
    ensures bytes { IfOk result (λ bytes. IfSome (D.content disk.old Main)
        (λ main. bytes ≡ take HEADER_BYTES (drop at main))) }
    ensures looks { Looks D.Disk disk.old disk.new }
    ensures cause { HasCause (D.faults disk.old) (D.faults disk.new) result }
{
    let mut bytes = [0; HEADER_BYTES];
    disk.read_at(FileId::Main, at, &mut bytes)?;
    Ok(bytes)
}

/// The version of a main header, which is the known one.
fn check_version(bytes: &[u8; HEADER_BYTES]) -> Result<u64, OpenError>
    ensures { result ≡ known_version (version_at bytes.now) (main_read bytes.now) }
{
    let version = version_of(bytes);
    match read_main(bytes) {
        Err(MainFault::NotADatabase) => Err(OpenError::NotADatabase),
        _ if version != VERSION => Err(OpenError::VersionUnknown { found: version }),
        Err(MainFault::Malformed { at }) => Err(OpenError::Damaged(Damage::Malformed {
            part: Part::MainHeader,
            at,
        })),
        Ok(_) => Ok(version),
    }
}

/// The current one of the two database headers.
fn read_twins<D: Disk>(disk: &mut D) -> Result<Current, OpenError>
    ensures exact { IfSome (D.content disk.old Main)
        (λ main. Opens (λ current. current) (or_damaged (twins_read main)) result) }
    ensures looks { Looks D.Disk disk.old disk.new }
    ensures cause { HasCauseIf (D.faults disk.old) (D.faults disk.new)
        (result ≡ Err OpenError.DiskFault) }
{
    let have = disk.len(FileId::Main);
    if have < HEADERS_BYTES {
        return Err(OpenError::Damaged(Damage::Short {
            need: HEADERS_BYTES,
            have,
        }));
    }
    let first = read_header(disk, HEADER_BYTES as u64)?;
    let second = read_header(disk, 2 * HEADER_BYTES as u64)?;
    match choose(&first, &second) {
        Ok(current) => Ok(current),
        Err(damage) => Err(OpenError::Damaged(damage)),
    }
}

/// Reads the headers of a main file that has bytes, and answers the current one.
pub fn read_headers<D: Disk>(disk: &mut D) -> Result<Current, OpenError>
    ensures exact { IfSome (D.content disk.old Main)
        (λ main. Opens (λ current. current) (headers_read main) result) }
    ensures looks { Looks D.Disk disk.old disk.new }
    ensures cause { HasCauseIf (D.faults disk.old) (D.faults disk.new)
        (result ≡ Err OpenError.DiskFault) }
{
    if disk.len(FileId::Main) < HEADER_BYTES as u64 {
        return Err(OpenError::NotADatabase);
    }
    let header = read_header(disk, 0)?;
    check_version(&header)?;
    read_twins(disk)
}
