//! The calls that change the log: a record appended, a new log, and a torn tail cut.
ghost use Rattle.std.specs.Prelude.{◌≡◌, ◌+◌, ◌≤◌, length, IfOk, OnOk};
ghost use Rattle.dk_fault.specs.Causes.{HasCause};
ghost use Rattle.dk_device.specs.declared.device.FileId.TheVariants.{Wal};
ghost use Rattle.dk_device.specs.Calls.{Makes, synced_write, synced_cut};
ghost use Rattle.dk_device.specs.Changes.{IsWithin, ChangesAlone};
ghost use Rattle.dk_device.specs.Disk.{TornWrite};
ghost use Rattle.dk_wal.specs.Crashes.{IsAppended, AppendCrash, log_reset, IsReset, ResetCrash, IsCut, CutCrash};

use dk_device::{Disk, DiskFault, FileId, cut_synced, replace_synced, write_synced};
use dk_header::log_header;

/// Writes a record at the end of the log and syncs, in two calls of the disk. Answers the new end. After a fault the log
/// may have the record or not, and is to be read again before one more is appended.
pub fn append<D: Disk>(disk: &mut D, end: u64, bytes: &[u8]) -> Result<u64, DiskFault>
    requires { end ≡ D.extent disk.old Wal }
    ensures end { IfOk result (λ new_end. new_end ≡ end + length bytes.now) }
    ensures appended { OnOk result (IsAppended D.Disk end bytes.now disk.old disk.new) }
    ensures extent { IsWithin end (end + length bytes.now) (D.extent disk.new Wal) }
    ensures alone { ChangesAlone D.Disk
        (TornWrite end (length bytes.now) end) Wal disk.old disk.new }
    ensures crash { AppendCrash D.Disk end bytes.now disk.old disk.new }
    ensures calls { Makes D.Disk (synced_write Wal end bytes.now) disk.old disk.new result }
    ensures cause { HasCause (D.faults disk.old) (D.faults disk.new) result }
{
    write_synced(disk, FileId::Wal, end, bytes)?;
    Ok(disk.len(FileId::Wal))
}

/// Makes a log without records, in four calls of the disk: a cut to nothing and the header, each with its sync.
pub fn reset<D: Disk>(disk: &mut D, iteration: u64) -> Result<(), DiskFault>
    ensures reset { OnOk result (IsReset D.Disk iteration disk.new) }
    ensures crash { ResetCrash D.Disk disk.old disk.new }
    ensures calls { Makes D.Disk (log_reset iteration) disk.old disk.new result }
    ensures cause { HasCause (D.faults disk.old) (D.faults disk.new) result }
{
    replace_synced(disk, FileId::Wal, &log_header(iteration))?;
    Ok(())
}

/// Cuts what stands in the log behind its last record, and syncs.
pub fn cut_tail<D: Disk>(disk: &mut D, end: u64) -> Result<(), DiskFault>
    requires { end ≤ D.extent disk.old Wal }
    ensures cut { OnOk result (IsCut D.Disk end disk.old disk.new) }
    ensures crash { CutCrash D.Disk end disk.old disk.new }
    ensures calls { Makes D.Disk (synced_cut Wal end) disk.old disk.new result }
    ensures cause { HasCause (D.faults disk.old) (D.faults disk.new) result }
{
    cut_synced(disk, FileId::Wal, end)?;
    Ok(())
}
