//! A disk over two real files.
ghost use Rattle.std.specs.Prelude.{◌≡◌, ◌≤◌, ◌+◌, ◌<◌, ◌-◌, ◌^◌, length, min, max, None, IfOk, OnErr, IsErr, IsOk, true, false, refl};

use crate::host_file::HostFile;
use crate::{Disk, FileId, LAST_MOMENT, MOST_BYTES};
use dk_fault::{Failed, next_count};
use std::alloc::AllocError as OutOfMemory;
use std::marker::Model;

#[derive(Drop)]
struct HostFiles {
    main: HostFile,
    wal: HostFile,
}

/// A disk over two real files. It tells their lengths, and nothing of what they hold.
#[derive(Drop)]
pub struct HostDisk {
    files: Option<HostFiles>,
    moment: u64,
    faults: u64,
}

impl Model for HostDisk {
    ghost use Rattle.std.specs.Prelude.{◌≤◌, ◌^◌};
    ghost use Rattle.dk_device.specs.Host.{HostState};
    ghost use Rattle.dk_device.specs.HostFiles.{main_len, wal_len};
    ghost use Rattle.dk_device.specs.declared.device.TheConstants.{LAST_MOMENT};

    ghost Value = { HostState };

    ghost view = { λ d. record {
      main = main_len d.files;
      wal = wal_len d.files;
      moment = d.moment;
      faults = d.faults;
    } };

    ghost invariant = { λ d. d.moment ≤ LAST_MOMENT };
}

fn open_both(rt: &HostRuntime, main: &str, wal: &str) -> Option<HostFiles> {
    let main = HostFile::at_path(rt, main)?;
    let wal = HostFile::at_path(rt, wal)?;
    Some(HostFiles { main, wal })
}

impl HostFiles {
    ghost use Rattle.dk_device.specs.declared.device.FileId.{FileId};
    ghost use Rattle.dk_device.specs.Disk.{of_file, other};

    fn file(&self, file: FileId) -> &HostFile
        ensures { result.now.len ≡ of_file file self.now.main.len self.now.wal.len }
    {
        match file {
            FileId::Main => &self.main,
            FileId::Wal => &self.wal,
        }
    }

    fn write(&mut self, file: FileId, at: u64, bytes: &[u8]) -> bool
        requires { at + length bytes.now ≤ MOST_BYTES }
        ensures no_shorter { of_file file self.old.main.len self.old.wal.len
            ≤ of_file file self.new.main.len self.new.wal.len }
        ensures no_longer { of_file file self.new.main.len self.new.wal.len ≤ max
            (of_file file self.old.main.len self.old.wal.len) (at + length bytes.now) }
        ensures grown { result ≡ true →
            of_file file self.new.main.len self.new.wal.len ≡ max
            (of_file file self.old.main.len self.old.wal.len) (at + length bytes.now) }
        ensures other { of_file (other file) self.new.main.len self.new.wal.len ≡ of_file
            (other file) self.old.main.len self.old.wal.len }
    {
        match file {
            FileId::Main => self.main.write(at, bytes),
            FileId::Wal => self.wal.write(at, bytes),
        }
    }

    fn cut(&mut self, file: FileId, len: u64) -> bool
        requires { len ≤ of_file file self.old.main.len self.old.wal.len }
        ensures no_shorter { len ≤ of_file file self.new.main.len self.new.wal.len }
        ensures no_longer { of_file file self.new.main.len self.new.wal.len
            ≤ of_file file self.old.main.len self.old.wal.len }
        ensures cut { result ≡ true → of_file file self.new.main.len self.new.wal.len ≡ len }
        ensures other { of_file (other file) self.new.main.len self.new.wal.len ≡ of_file
            (other file) self.old.main.len self.old.wal.len }
    {
        match file {
            FileId::Main => self.main.cut(len),
            FileId::Wal => self.wal.cut(len),
        }
    }
}

impl HostDisk {
    ghost use Rattle.dk_device.specs.declared.device.FileId.{FileId};
    ghost use Rattle.dk_fault.specs.Causes.{HasCause, Rose};
    ghost use Rattle.dk_device.specs.Disk.{of_file, other, next_moment};

    /// The file at a path and its log, whose name has `.wal` added. A file that is missing is made.
    pub fn at_path(rt: &HostRuntime, path: String) -> Result<HostDisk, OutOfMemory>
        ensures moment { IfOk result (λ disk. disk.moment ≡ 0) }
        ensures faults { IfOk result (λ disk. disk.faults ≡ 0) }
    {
        let wal = format!(in rt.alloc(); "{path}.wal")?;
        Ok(HostDisk {
            files: open_both(rt, path.as_str(), wal.as_str()),
            moment: 0,
            faults: 0,
        })
    }

    /// Begins a call: false at the last moment.
    fn begin(&mut self) -> bool
        ensures ended { LAST_MOMENT ≤ self.old.moment → result ≡ false }
        ensures bound { self.old.moment ≤ LAST_MOMENT }
        ensures moment { self.new.moment ≡ next_moment self.old.moment }
        ensures main { self.new.main ≡ self.old.main }
        ensures wal { self.new.wal ≡ self.old.wal }
        ensures faults { self.new.faults ≡ self.old.faults }
    {
        if self.moment >= LAST_MOMENT {
            return false;
        }
        self.moment += 1;
        true
    }

    /// Ends a call, and counts a fault where it wasn't done.
    fn end(&mut self, done: bool) -> Result<(), Failed>
        ensures moment { self.new.moment ≡ self.old.moment }
        ensures main { self.new.main ≡ self.old.main }
        ensures wal { self.new.wal ≡ self.old.wal }
        ensures ok { done ≡ true → IsOk result }
        ensures err { done ≡ false → IsErr result }
        ensures cause { HasCause self.old.faults self.new.faults result }
    {
        if done {
            return Ok(());
        }
        self.faults = next_count(self.faults);
        Err(Failed)
    }

    fn write(&mut self, file: FileId, at: u64, bytes: &[u8]) -> bool
        requires { at + length bytes.now ≤ MOST_BYTES }
        ensures no_shorter { of_file file self.old.main self.old.wal
            ≤ of_file file self.new.main self.new.wal }
        ensures no_longer { of_file file self.new.main self.new.wal ≤ max
            (of_file file self.old.main self.old.wal) (at + length bytes.now) }
        ensures grown { result ≡ true →
            of_file file self.new.main self.new.wal ≡ max (of_file file self.old.main self.old.wal)
            (at + length bytes.now) }
        ensures other { of_file (other file) self.new.main self.new.wal ≡ of_file
            (other file) self.old.main self.old.wal }
        ensures moment { self.new.moment ≡ self.old.moment }
        ensures faults { self.new.faults ≡ self.old.faults }
    {
        match &mut self.files {
            Some(files) => files.write(file, at, bytes),
            None => false,
        }
    }

    fn cut_file(&mut self, file: FileId, len: u64) -> bool
        requires { len ≤ of_file file self.old.main self.old.wal }
        ensures no_shorter { len ≤ of_file file self.new.main self.new.wal }
        ensures no_longer { of_file file self.new.main self.new.wal
            ≤ of_file file self.old.main self.old.wal }
        ensures cut { result ≡ true → of_file file self.new.main self.new.wal ≡ len }
        ensures other { of_file (other file) self.new.main self.new.wal ≡ of_file
            (other file) self.old.main self.old.wal }
        ensures moment { self.new.moment ≡ self.old.moment }
        ensures faults { self.new.faults ≡ self.old.faults }
    {
        match &mut self.files {
            Some(files) => files.cut(file, len),
            None => false,
        }
    }
}

impl Disk for HostDisk {
    ghost use Rattle.dk_device.specs.Disk.{of_file};
    ghost use Rattle.dk_device.specs.Host.{none_told};

    ghost extent = { λ d f. of_file f d.main d.wal };

    ghost content = { λ d f. None };

    ghost time = { λ d. d.moment };

    ghost may_leave = { λ d k f c. ⊥ };

    ghost calls = { λ d. None };

    ghost faults = { λ d. d.faults };

    ghost reason = { λ old request done new. Unit {0} };

    ghost content_length = { λ d f. tt };

    ghost content_left = { λ d f bytes is. none_told bytes is };

    fn len(&self, file: FileId) -> u64 {
        match &self.files {
            Some(files) => files.file(file).len,
            None => 0,
        }
    }

    fn read_at(&mut self, file: FileId, at: u64, out: &mut [u8]) -> Result<(), Failed> {
        let begun = self.begin();
        let done = match &self.files {
            Some(files) => begun && files.file(file).read(at, out),
            None => false,
        };
        self.end(done)
    }

    fn write_at(&mut self, file: FileId, at: u64, bytes: &[u8]) -> Result<(), Failed> {
        let begun = self.begin();
        let within = at <= MOST_BYTES && bytes.len() as u64 <= MOST_BYTES - at;
        let done = begun && within && self.write(file, at, bytes);
        self.end(done)
    }

    fn cut(&mut self, file: FileId, len: u64) -> Result<(), Failed> {
        let begun = self.begin();
        let done = begun && self.cut_file(file, len);
        self.end(done)
    }

    fn sync(&mut self, file: FileId) -> Result<(), Failed> {
        let begun = self.begin();
        let done = match &self.files {
            Some(files) => begun && files.file(file).sync(),
            None => false,
        };
        self.end(done)
    }

    fn moment(&self) -> u64 {
        self.moment
    }
}
