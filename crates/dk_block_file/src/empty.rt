//! The empty database.
ghost use Rattle.std.specs.Prelude.{◌≡◌, ◌⊎◌, ◌≤◌, ◌++◌, ◌∷◌, [], max, replicate, Err, IfOk, IfErr, IfSome, OnOk, OnErr};
ghost use Rattle.std.proofs.Common.{option_map};
ghost use Rattle.dk_fault.specs.Causes.{HasCause, HasCauseIf};
ghost use Rattle.dk_device.specs.Disk.{FrontOrShort};
ghost use Rattle.dk_device.specs.declared.device.FileId.TheVariants.{Main, Wal};
ghost use Rattle.dk_header.specs.declared.log.TheConstants.{LOG_HEADER_BYTES};
ghost use Rattle.dk_block_file.specs.Blocks.{empty_main};
ghost use Rattle.dk_block_file.specs.Effects.{Creates, HasNewLog, WritesFiles, MakesWithMemory};
ghost use Rattle.dk_block_file.specs.Calls.{log_creation, creation};
ghost use Rattle.dk_device.specs.Calls.{Makes};
ghost use Rattle.dk_device.specs.Changes.{Earlier, ChangesAlone};

use crate::BlockFault;
use dk_device::{Disk, Failed, FileId, replace_synced, write_synced};
use dk_header::{
    DbHeader, HEADER_BYTES, NO_ROOT, OPEN_GATE, VERSION, body_of, log_header, main_header,
};
use std::alloc::{AllocError as OutOfMemory, Global};

/// A main header, a database header with an open gate, and one of zeros.
fn joined(alloc: Global, main: &[u8], body: &[u8]) -> Result<Vec<u8>, OutOfMemory>
    ensures { IfOk result (λ bytes. bytes.items ≡
        main.now ++ body.now ++ OPEN_GATE ∷ [] ++ replicate HEADER_BYTES 0) }
{
    let mut bytes = main.to_vec(alloc)?;
    bytes.extend_from_slice(body)?;
    bytes.push(OPEN_GATE)?;
    bytes.extend_from_slice(&[0; HEADER_BYTES])?;
    Ok(bytes)
}

/// The main header, twin 0 with its open gate, and twin 1 of zeros.
fn empty_bytes(alloc: Global) -> Result<Vec<u8>, OutOfMemory>
    ensures { IfOk result (λ bytes. bytes.items ≡ empty_main) }
{
    let header = DbHeader {
        iteration: 1,
        root: NO_ROOT,
        blocks: 0,
    };
    joined(alloc, &main_header(VERSION), &body_of(&header))
}

/// A log without records.
fn new_log<D: Disk>(disk: &mut D) -> Result<(), Failed>
    ensures log { OnOk result (HasNewLog D.Disk disk.new) }
    ensures alone { ChangesAlone D.Disk
        (FrontOrShort LOG_HEADER_BYTES) Wal disk.old disk.new }
    ensures calls { Makes D.Disk log_creation disk.old disk.new result }
    ensures cause { HasCause (D.faults disk.old) (D.faults disk.new) result }
{
    replace_synced(disk, FileId::Wal, &log_header(1))
}

/// The log first, and then the headers.
fn create_files<D: Disk>(disk: &mut D, main: &[u8]) -> Result<(), Failed>
    requires { main.now ≡ empty_main }
    ensures files { OnOk result (WritesFiles D.Disk disk.old disk.new) }
    ensures no_shorter { D.extent disk.old Main ≤ D.extent disk.new Main }
    ensures earlier { Earlier D.Disk disk.old disk.new }
    ensures calls { Makes D.Disk creation disk.old disk.new result }
    ensures cause { HasCause (D.faults disk.old) (D.faults disk.new) result }
{
    new_log(disk)?;
    write_synced(disk, FileId::Main, 0, main)?;
    Ok(())
}

/// Makes the empty database, in six calls of the disk: a log without records first, and then the headers.
pub fn create<D: Disk>(alloc: Global, disk: &mut D) -> Result<(), BlockFault>
    ensures creates { Creates D.Disk disk.old disk.new result }
    ensures calls { MakesWithMemory D.Disk creation disk.old disk.new result }
    ensures faults { IfErr result
        (λ e. (e ≡ BlockFault.DiskFault) ⊎ (e ≡ BlockFault.OutOfMemory)) }
    ensures cause { HasCauseIf (D.faults disk.old) (D.faults disk.new)
        (result ≡ Err BlockFault.DiskFault) }
{
    let bytes = empty_bytes(alloc)?;
    create_files(disk, bytes.as_slice())?;
    Ok(())
}
