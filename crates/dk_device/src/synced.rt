//! A change of one of the two files, and its sync; and both of a file that is written anew.
ghost use Rattle.std.specs.Prelude.{◌≡◌, ◌≤◌, ◌+◌, length, take, max, OnOk, OnErr};
ghost use Rattle.std.proofs.Common.{option_map};
ghost use Rattle.dk_device.specs.Calls.{Makes, synced_write, synced_cut, synced_replacement};
ghost use Rattle.dk_fault.specs.Causes.{HasCause};
ghost use Rattle.dk_device.specs.Changes.{IsSynced, IsWithin, ChangesAlone, HoldsOnly};
ghost use Rattle.dk_device.specs.Disk.{overlay, TornWrite, TornCut, FrontOrShort};

use crate::{Disk, Failed, FileId};

/// Writes a range of a file and syncs it.
pub fn write_synced<D: Disk>(
    disk: &mut D,
    file: FileId,
    at: u64,
    bytes: &[u8],
) -> Result<(), Failed>
    requires { at ≤ D.extent disk.old file }
    ensures written { OnOk result (D.content disk.new file ≡ option_map (overlay at bytes.now)
        (D.content disk.old file)) }
    ensures grown { OnOk result (D.extent disk.new file ≡ max (D.extent disk.old file)
        (at + length bytes.now)) }
    ensures extent { IsWithin (D.extent disk.old file)
        (max (D.extent disk.old file) (at + length bytes.now)) (D.extent disk.new file) }
    ensures synced { OnOk result (IsSynced D.Disk disk.new file) }
    ensures alone { ChangesAlone D.Disk
        (TornWrite at (length bytes.now) (D.extent disk.old file)) file disk.old disk.new }
    ensures calls { Makes D.Disk (synced_write file at bytes.now) disk.old disk.new result }
    ensures cause { HasCause (D.faults disk.old) (D.faults disk.new) result }
{
    disk.write_at(file, at, bytes)?;
    disk.sync(file)?;
    Ok(())
}

/// Cuts a file and syncs it.
pub fn cut_synced<D: Disk>(disk: &mut D, file: FileId, len: u64) -> Result<(), Failed>
    requires { len ≤ D.extent disk.old file }
    ensures cut { OnOk result
        (D.content disk.new file ≡ option_map (take len) (D.content disk.old file)) }
    ensures shrunk { OnOk result (D.extent disk.new file ≡ len) }
    ensures extent { IsWithin len (D.extent disk.old file) (D.extent disk.new file) }
    ensures synced { OnOk result (IsSynced D.Disk disk.new file) }
    ensures alone { ChangesAlone D.Disk (TornCut len) file disk.old disk.new }
    ensures calls { Makes D.Disk (synced_cut file len) disk.old disk.new result }
    ensures cause { HasCause (D.faults disk.old) (D.faults disk.new) result }
{
    disk.cut(file, len)?;
    disk.sync(file)?;
    Ok(())
}

/// Cuts a file to nothing and writes it anew, each with its sync.
pub fn replace_synced<D: Disk>(disk: &mut D, file: FileId, bytes: &[u8]) -> Result<(), Failed>
    ensures replaced { OnOk result (HoldsOnly D.Disk file bytes.now disk.new) }
    ensures no_longer { D.extent disk.new file ≤ max (D.extent disk.old file) (length bytes.now) }
    ensures alone { ChangesAlone D.Disk
        (FrontOrShort (length bytes.now)) file disk.old disk.new }
    ensures calls { Makes D.Disk (synced_replacement file bytes.now) disk.old disk.new result }
    ensures cause { HasCause (D.faults disk.old) (D.faults disk.new) result }
{
    cut_synced(disk, file, 0)?;
    write_synced(disk, file, 0, bytes)?;
    Ok(())
}
