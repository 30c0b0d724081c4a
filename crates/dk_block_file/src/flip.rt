//! The writes that flip a twin's header.
ghost use Rattle.std.specs.Prelude.{◌≡◌, ◌≤◌, ◌+◌, [], length, if◌then◌else◌};
ghost use Rattle.dk_device.specs.declared.device.FileId.TheVariants.{Main};
ghost use Rattle.dk_device.specs.Changes.{images_of};
ghost use Rattle.dk_block_file.specs.Current.{HasHeaders};
ghost use Rattle.dk_block_file.specs.Effects.{FailsByDisk, WritesHeaders, ClosesGate, WritesBody, OpensGate};
ghost use Rattle.dk_block_file.specs.Flips.{gate_place, IsClosed, HasOneBody, MayClose};

use crate::BlockFault;
use crate::layout::{HEADERS_BYTES, gate_place, header_place};
use dk_device::{Disk, FileId, write_synced};
use dk_header::{CLOSED_GATE, DbHeader, OPEN_GATE, body_of};

/// Writes a range of the headers and syncs.
fn write_headers<D: Disk>(disk: &mut D, at: u64, bytes: &[u8]) -> Result<(), BlockFault>
    requires headers { HasHeaders D.Disk disk.old }
    requires within { at + length bytes.now ≤ HEADERS_BYTES }
    ensures writes { WritesHeaders D.Disk at bytes.now disk.old disk.new result }
    ensures cause { FailsByDisk (D.faults disk.old) (D.faults disk.new) result }
{
    write_synced(disk, FileId::Main, at, bytes)?;
    Ok(())
}

/// Writes a twin's gate, or nothing, and syncs.
fn write_gate<D: Disk>(disk: &mut D, twin: u8, bytes: &[u8]) -> Result<(), BlockFault>
    requires twin { twin ≤ 1 }
    requires headers { HasHeaders D.Disk disk.old }
    requires one { length bytes.now ≤ 1 }
    ensures writes { WritesHeaders D.Disk (gate_place twin) bytes.now disk.old disk.new result }
    ensures cause { FailsByDisk (D.faults disk.old) (D.faults disk.new) result }
{
    write_headers(disk, gate_place(twin), bytes)
}

/// These bytes, or none of them.
fn bytes_if(all: bool, bytes: &[u8]) -> &[u8]
    ensures is { result.now ≡ (if all then bytes.now else []) }
    ensures len { length result.now ≤ length bytes.now }
{
    if all { bytes } else { &bytes[..0] }
}

/// Closes the gate of a twin that is not the current one, or writes nothing where it is closed, and syncs.
pub fn flip_close<D: Disk>(disk: &mut D, twin: u8, was_open: bool) -> Result<(), BlockFault>
    requires twin { twin ≤ 1 }
    requires headers { HasHeaders D.Disk disk.old }
    requires lower { MayClose was_open twin (images_of D.Disk disk.old Main) }
    ensures closes { ClosesGate D.Disk twin was_open disk.old disk.new result }
    ensures cause { FailsByDisk (D.faults disk.old) (D.faults disk.new) result }
{
    write_gate(disk, twin, bytes_if(was_open, &[CLOSED_GATE]))
}

/// Writes the body of a twin whose gate is closed, and syncs.
pub fn flip_body<D: Disk>(disk: &mut D, twin: u8, header: &DbHeader) -> Result<(), BlockFault>
    requires twin { twin ≤ 1 }
    requires headers { HasHeaders D.Disk disk.old }
    requires closed { IsClosed twin (images_of D.Disk disk.old Main) }
    ensures writes { WritesBody D.Disk twin header.now disk.old disk.new result }
    ensures cause { FailsByDisk (D.faults disk.old) (D.faults disk.new) result }
{
    let body = body_of(header);
    write_headers(disk, header_place(twin), &body)
}

/// Opens the gate of a twin whose body is on the disk, and syncs.
pub fn flip_open<D: Disk>(disk: &mut D, twin: u8) -> Result<(), BlockFault>
    requires twin { twin ≤ 1 }
    requires headers { HasHeaders D.Disk disk.old }
    requires closed { IsClosed twin (images_of D.Disk disk.old Main) }
    requires body { HasOneBody twin (images_of D.Disk disk.old Main) }
    ensures opens { OpensGate D.Disk twin disk.old disk.new result }
    ensures cause { FailsByDisk (D.faults disk.old) (D.faults disk.new) result }
{
    write_gate(disk, twin, &[OPEN_GATE])
}
