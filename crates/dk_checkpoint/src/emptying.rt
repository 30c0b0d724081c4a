//! The log that a checkpoint empties.
ghost use Rattle.std.specs.Prelude.{OnOk};
ghost use Rattle.dk_fault.specs.Causes.{HasCause};
ghost use Rattle.dk_device.specs.Calls.{Makes};
ghost use Rattle.dk_wal.specs.Crashes.{log_reset, IsReset, ResetCrash};

use dk_device::{Disk, DiskFault};

/// Makes the log one of this iteration without records, in four calls of the disk. A crash meanwhile leaves an empty or a
/// stale log where each log at the start is one.
pub fn empty_log<D: Disk>(disk: &mut D, iteration: u64) -> Result<(), DiskFault>
    ensures reset { OnOk result (IsReset D.Disk iteration disk.new) }
    ensures crash { ResetCrash D.Disk disk.old disk.new }
    ensures calls { Makes D.Disk (log_reset iteration) disk.old disk.new result }
    ensures cause { HasCause (D.faults disk.old) (D.faults disk.new) result }
{
    dk_wal::reset(disk, iteration)
}
