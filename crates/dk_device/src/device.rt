//! A disk of two files, as the store sees it.
ghost use Rattle.std.specs.Prelude.{◌≡◌, ◌+◌, ◌≤◌, ◌^◌, ◌<◌, ℕ, List, length, take, drop, Bool, Option, Some, IfSome, OnOk};

use dk_fault::Failed;
use thiserror::Error;

/// The two files of a database.
#[derive(Clone, Copy, Debug, PartialEq, Eq, Drop)]
pub enum FileId {
    /// The blocks of the tables.
    Main,
    /// The log of the commits since the last checkpoint.
    Wal,
}

/// The greatest moment, at which no call is done.
pub const LAST_MOMENT: u64 = 1 << 62;

/// The greatest length that a write may leave.
pub const MOST_BYTES: u64 = 1 << 62;

/// A call above the disk that a failed call of it ended.
#[derive(Clone, Copy, Debug, PartialEq, Eq, Drop, Error)]
#[error("disk fault")]
pub struct DiskFault;

impl From<Failed> for DiskFault {
    fn from(_: Failed) -> DiskFault {
        DiskFault
    }
}

/// Two files, and what a crash may leave of them.
///
/// A call that failed may have done its work, a part of it or nothing.
pub trait Disk {
    ghost use Rattle.dk_device.specs.declared.device.FileId.{FileId};
    ghost use Rattle.dk_device.specs.declared.calls.DiskCall.{DiskCall};
    ghost use Rattle.dk_device.specs.declared.calls.Request.{Request};
    ghost use Rattle.dk_device.specs.declared.calls.Request.TheVariants.{Read, Write, Cut, Sync};
    ghost use Rattle.dk_fault.specs.Causes.{HasCause};
    ghost use Rattle.dk_device.specs.Effects.{KeepsAll, Writes, Cuts, Settles, MakesCall};

    /// How many bytes a file has.
    ghost extent: { Self → FileId → ℕ };

    /// The bytes of a file, where the disk tells them.
    ghost content: { Self → FileId → Option (List ℕ) };

    /// The number of calls begun so far, up to its end.
    ghost time: { Self → ℕ };

    /// What a crash at a moment up to now, just before the call of that number, could have left of a file.
    ghost may_leave: { Self → ℕ → FileId → List ℕ → Type 0 };

    /// The calls so far, each with its moment and what it asked, where the disk tells them.
    ghost calls: { Self → Option (List DiskCall) };

    /// How often the disk has failed.
    ghost faults: { Self → ℕ };

    /// Why a call was done or not, where the disk tells that.
    ghost reason: { Self → Request → Bool → Self → Type 0 };

    /// How many bytes a file has.
    fn len(&self, file: FileId) -> u64
        ensures { result ≡ extent self.now file };

    /// Reads the bytes from a place on.
    fn read_at(&mut self, file: FileId, at: u64, out: &mut [u8]) -> Result<(), Failed>
        requires { at + length out.old ≤ extent self.old file }
        ensures bytes { OnOk result (IfSome (content self.old file)
            (λ bytes. out.new ≡ take (length out.old) (drop at bytes))) }
        ensures same { KeepsAll content extent time may_leave self.old self.new }
        ensures call { MakesCall content extent time may_leave calls reason
            file (Read at (length out.old)) self.old self.new result }
        ensures cause { HasCause (faults self.old) (faults self.new) result };

    /// Writes over what is there, and past the end. Fails where the range would end past [`MOST_BYTES`].
    fn write_at(&mut self, file: FileId, at: u64, bytes: &[u8]) -> Result<(), Failed>
        requires { at ≤ extent self.old file }
        ensures writes { Writes content extent time may_leave
            file at bytes.now self.old self.new result }
        ensures call { MakesCall content extent time may_leave calls reason
            file (Write at bytes.now) self.old self.new result }
        ensures cause { HasCause (faults self.old) (faults self.new) result };

    /// Cuts a file to a length.
    fn cut(&mut self, file: FileId, len: u64) -> Result<(), Failed>
        requires { len ≤ extent self.old file }
        ensures cuts { Cuts content extent time may_leave file len self.old self.new result }
        ensures call { MakesCall content extent time may_leave calls reason
            file (Cut len) self.old self.new result }
        ensures cause { HasCause (faults self.old) (faults self.new) result };

    /// After it, a crash leaves of that file what a read gives.
    fn sync(&mut self, file: FileId) -> Result<(), Failed>
        ensures settles { Settles content extent time may_leave file self.old self.new result }
        ensures call { MakesCall content extent time may_leave calls reason
            file Sync self.old self.new result }
        ensures cause { HasCause (faults self.old) (faults self.new) result };

    /// The number of calls of the four kinds above begun so far, but never more than [`LAST_MOMENT`].
    fn moment(&self) -> u64
        ensures with_fault { result ≡ time self.now }
        ensures bound { result ≤ LAST_MOMENT };

    /// The content as it reads has the told length.
    ghost content_length: { (d : Self) (f : FileId) → IfSome (content d f) (λ bytes. length bytes ≡ extent d f) };

    /// The content as it reads is one of the images.
    ghost content_left: { (d : Self) (f : FileId) (bytes : List ℕ) → content d f ≡ Some bytes →
        may_leave d (time d) f bytes };
}
