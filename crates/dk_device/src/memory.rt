//! A disk in memory, which fails at listed moments and tells what a crash may leave.
ghost use Rattle.std.specs.Prelude.{◌≡◌, ◌⊎◌, ◌≤◌, ◌<◌, ◌+◌, ◌^◌, ◌∷◌, ◌++◌, [], length, take, drop, true, false, is_ok, is_none, OnOk, OnErr, IfOk, IfNone, Some, vec_len, vec_capacity, refl};
ghost use Rattle.std.specs.List.{list_any};

use crate::calls::{DiskCall, Request, Written};
use crate::change::{Begun, attempt_at};
use crate::faults::{Fault, Faults};
use crate::file::MemoryFile;
use crate::image::Crash;
use crate::{Choice, Disk, FileId, LAST_MOMENT};
use dk_fault::Failed;
use std::alloc::{AllocError as OutOfMemory, Global};
use std::marker::Model;

/// A disk in memory. A call at one of the listed moments fails with nothing done. It keeps each call,
/// but those that find no memory for that.
#[derive(Drop)]
pub struct MemoryDisk {
    main: MemoryFile,
    wal: MemoryFile,
    failing: Vec<u64>,
    calls: Vec<DiskCall>,
    moment: u64,
    faults: Faults,
}

impl Model for MemoryDisk {
    ghost use Rattle.dk_device.specs.Memory.{MemoryState, Stands};

    ghost Value = { MemoryState };

    ghost view = { λ d. record {
      history = record {
        main = d.main.start;
        wal = d.wal.start;
        calls = d.calls.items;
        moment = d.moment;
      };
      failing = d.failing.items;
      faults = d.faults;
    } };

    ghost invariant = { λ d. Stands d.main d.wal d.calls.items d.moment };
}

/// Adds a call to those before it, for which there is room.
fn note(calls: &mut Vec<DiskCall>, call: DiskCall)
    requires { vec_len calls.old < vec_capacity calls.old }
    ensures { calls.new.items ≡ calls.old.items ++ call ∷ [] }
{
    calls.push_reserved(call);
}

impl MemoryDisk {
    ghost use Rattle.dk_device.specs.declared.calls.Request.TheVariants.{Read, Write, Cut, Sync};
    ghost use Rattle.dk_device.specs.declared.faults.Fault.TheVariants.{ListedMoment, NoMemory, LastMoment, PastEnd};
    ghost use Rattle.dk_fault.specs.Causes.{Rose, HasCause};
    ghost use Rattle.dk_device.specs.Changes.{IsSynced};
    ghost use Rattle.dk_device.specs.declared.device.FileId.{FileId};
    ghost use Rattle.dk_device.specs.Replay.{after_call, after_unlisted_call, content_of, MayLeaveAt};
    ghost use Rattle.dk_device.specs.Image.{image_of};
    ghost use Rattle.dk_device.specs.declared.device.FileId.TheVariants.{Main, Wal};
    ghost use Rattle.dk_device.specs.Memory.{IsInTime, Performs, Reason, with_fault, total};

    /// A disk that holds these bytes, and fails at the listed moments.
    pub fn new(main: Vec<u8>, wal: Vec<u8>, failing: Vec<u64>) -> MemoryDisk
        ensures history { result.history ≡ record {
          main = main.items;
          wal = wal.items;
          calls = [];
          moment = 0;
        } }
        ensures failing { result.failing ≡ failing.items }
        ensures faults { total result.faults ≡ 0 }
        ensures synced { (f : FileId) → IsSynced ⟦<MemoryDisk as Disk>⟧ result f }
    {
        let alloc = *main.allocator();
        MemoryDisk {
            main: MemoryFile::new(main),
            wal: MemoryFile::new(wal),
            failing,
            calls: Vec::new(alloc),
            moment: 0,
            faults: Faults::none(),
        }
    }

    /// How many calls found no memory.
    pub fn refusals(&self) -> u64
        ensures { result ≡ self.now.faults.refusals }
    {
        self.faults.refusals
    }

    /// One image of a crash just before the call of that number.
    pub fn image_at(&self, moment: u64, choice: Choice) -> Result<(Vec<u8>, Vec<u8>), OutOfMemory>
        requires { moment ≤ self.now.history.moment }
        ensures chosen { IfOk result (λ image.
            (image.0.items ≡ image_of self.now.history moment choice Main)
            × (image.1.items ≡ image_of self.now.history moment choice Wal)) }
        ensures main { IfOk result (λ image. MayLeaveAt self.now.history moment Main image.0.items) }
        ensures wal { IfOk result (λ image. MayLeaveAt self.now.history moment Wal image.1.items) }
    {
        let calls = self.calls.as_slice();
        let of_main = Crash {
            file: FileId::Main,
            moment,
            choice,
        };
        let of_wal = Crash {
            file: FileId::Wal,
            moment,
            choice,
        };
        let main = self.main.image(calls, of_main)?;
        let wal = self.wal.image(calls, of_wal)?;
        Ok((main, wal))
    }

    /// Begins a call that leaves nothing in the list and fails.
    fn fail(&mut self, fault: Fault) -> Failed
        ensures history { self.new.history ≡ after_unlisted_call self.old.history }
        ensures failing { self.new.failing ≡ self.old.failing }
        ensures faults { self.new.faults ≡ with_fault fault self.old.faults }
        ensures rose { Rose (total self.old.faults) (total self.new.faults) }
        ensures in_time { IsInTime self.old.history.moment self.old.history.calls }
        ensures bound { self.old.history.moment ≤ LAST_MOMENT }
        ensures later { self.new.history.moment ≤ LAST_MOMENT }
    {
        self.moment = (self.moment + 1).min(LAST_MOMENT);
        self.faults.count(fault);
        Failed
    }

    /// Begins a call, and does it unless it is to fail.
    fn perform(&mut self, file: FileId, request: Request) -> Result<(), Failed>
        ensures went { Performs file request result self.old.history self.new.history }
        ensures failing { self.new.failing ≡ self.old.failing }
        ensures reason { Reason self.old request (is_ok result) self.new }
        ensures cause { HasCause (total self.old.faults) (total self.new.faults) result }
    {
        let now = self.moment;
        if now >= LAST_MOMENT {
            return Err(self.fail(Fault::LastMoment));
        }
        if self.calls.reserve(1).is_err() {
            return Err(self.fail(Fault::NoMemory));
        }
        let fault = attempt_at(
            &mut self.main,
            &mut self.wal,
            self.failing.as_slice(),
            Begun { file, moment: now },
            &request,
        );
        note(
            &mut self.calls,
            DiskCall {
                moment: now,
                file,
                request,
                done: fault.is_none(),
            },
        );
        self.moment = now + 1;
        match fault {
            None => Ok(()),
            Some(fault) => {
                self.faults.count(fault);
                Err(Failed)
            }
        }
    }

    /// Begins a read.
    fn begin_read(&mut self, file: FileId, at: u64, len: u64) -> Result<(), Failed>
        ensures same { content_of self.new.history file ≡ content_of self.old.history file }
        ensures went { Performs file (Read at len) result self.old.history self.new.history }
        ensures failing { self.new.failing ≡ self.old.failing }
        ensures reason { Reason self.old (Read at len) (is_ok result) self.new }
        ensures cause { HasCause (total self.old.faults) (total self.new.faults) result }
    {
        self.perform(file, Request::Read { at, len })
    }

    /// Begins a write, with a copy of the bytes for the list.
    fn write(&mut self, file: FileId, at: u64, bytes: &[u8]) -> Result<(), Failed>
        ensures went { Performs file (Write at bytes.now) result self.old.history self.new.history }
        ensures failing { self.new.failing ≡ self.old.failing }
        ensures reason { Reason self.old (Write at bytes.now) (is_ok result) self.new }
        ensures cause { HasCause (total self.old.faults) (total self.new.faults) result }
    {
        let alloc = *self.failing.allocator();
        match Written::copy_of(alloc, bytes) {
            Ok(bytes) => self.perform(file, Request::Write { at, bytes }),
            Err(_) => Err(self.fail(Fault::NoMemory)),
        }
    }

    fn bytes_of(&self, file: FileId) -> &[u8]
        ensures { result.now ≡ content_of self.now.history file }
    {
        match file {
            FileId::Main => self.main.bytes().as_slice(),
            FileId::Wal => self.wal.bytes().as_slice(),
        }
    }
}

impl Disk for MemoryDisk {
    ghost use Rattle.dk_device.specs.Memory.{Reason, total};
    ghost use Rattle.dk_device.specs.Replay.{content_of, MayLeaveAt};
    ghost use Rattle.dk_device.specs.ContentIsImage.{content_told_left};

    ghost extent = { λ d f. length (content_of d.history f) };

    ghost content = { λ d f. Some (content_of d.history f) };

    ghost time = { λ d. d.history.moment };

    ghost may_leave = { λ d k f c. MayLeaveAt d.history k f c };

    ghost calls = { λ d. Some d.history.calls };

    ghost faults = { λ d. total d.faults };

    ghost reason = { Reason };

    ghost content_length = { λ d f. refl };

    ghost content_left = { λ d f bytes is. content_told_left d.history f bytes is };

    fn len(&self, file: FileId) -> u64 {
        self.bytes_of(file).len() as u64
    }

    fn read_at(&mut self, file: FileId, at: u64, out: &mut [u8]) -> Result<(), Failed> {
        self.begin_read(file, at, out.len() as u64)?;
        let from = &self.bytes_of(file)[at as usize..];
        out.copy_from_slice(&from[..out.len()]);
        Ok(())
    }

    fn write_at(&mut self, file: FileId, at: u64, bytes: &[u8]) -> Result<(), Failed> {
        self.write(file, at, bytes)
    }

    fn cut(&mut self, file: FileId, len: u64) -> Result<(), Failed> {
        self.perform(file, Request::Cut { len })
    }

    fn sync(&mut self, file: FileId) -> Result<(), Failed> {
        self.perform(file, Request::Sync)
    }

    fn moment(&self) -> u64 {
        self.moment
    }
}

#[cfg(test)]
mod tests {
    use super::*;
    use crate::MOST_BYTES;
    use std::test::Fail;

    fn empty(alloc: Global, moment: u64) -> MemoryDisk {
        MemoryDisk {
            main: MemoryFile::new(Vec::new(alloc)),
            wal: MemoryFile::new(Vec::new(alloc)),
            failing: Vec::new(alloc),
            calls: Vec::new(alloc),
            moment: moment.min(LAST_MOMENT),
            faults: Faults::none(),
        }
    }

    fn write_far(disk: &mut MemoryDisk) -> Result<(), Failed> {
        disk.write(FileId::Main, MOST_BYTES, b"a")
    }

    #[test]
    fn a_disk_at_its_last_moment_fails(rt: HostRuntime) -> Result<(), Fail> {
        let mut disk = empty(rt.alloc(), LAST_MOMENT);
        assert!(rt; disk.read_at(FileId::Main, 0, &mut []).is_err());
        assert!(rt; disk.write_at(FileId::Main, 0, b"").is_err());
        assert!(rt; disk.cut(FileId::Main, 0).is_err());
        assert!(rt; disk.sync(FileId::Wal).is_err());
        assert_eq!(rt; (disk.moment, disk.faults.last_moments), (LAST_MOMENT, 4));
        Ok(())
    }

    #[test]
    fn a_write_past_the_end_fails(rt: HostRuntime) -> Result<(), Fail> {
        let mut disk = empty(rt.alloc(), 0);
        assert!(rt; write_far(&mut disk).is_err());
        assert_eq!(rt; (disk.moment, disk.faults.past_ends), (1, 1));
        Ok(())
    }
}
