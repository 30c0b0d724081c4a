//! A real file, with the length that it has.
ghost use Rattle.std.specs.Prelude.{◌≡◌, ◌≤◌, ◌+◌, ◌<◌, length, max, IsTrue, true, false};
ghost use Rattle.dk_device.specs.declared.device.TheConstants.{MOST_BYTES};

use std::fs;
use std::os::unix::fs::FileExt;

#[derive(Drop)]
pub(crate) struct HostFile {
    file: fs::File,
    pub(crate) len: u64,
}

impl HostFile {
    /// A file that is there or is made, with its length.
    pub(crate) fn at_path(rt: &HostRuntime, path: &str) -> Option<HostFile> {
        let file = fs::OpenOptions::new()
            .read(true)
            .write(true)
            .create(true)
            .open(rt, path)
            .ok()?;
        let len = file.metadata().ok()?.len();
        Some(HostFile { file, len })
    }

    pub(crate) fn read(&self, at: u64, out: &mut [u8]) -> bool {
        self.file.read_exact_at(out, at).is_ok()
    }

    /// Writes all the bytes. A write that fails in the middle leaves the length that the file then has.
    pub(crate) fn write(&mut self, at: u64, bytes: &[u8]) -> bool
        requires { at + length bytes.now ≤ MOST_BYTES }
        ensures no_shorter { self.old.len ≤ self.new.len }
        ensures no_longer { self.new.len ≤ max self.old.len (at + length bytes.now) }
        ensures grown { result ≡ true → self.new.len ≡ max self.old.len (at + length bytes.now) }
    {
        let most = self.len.max(at + bytes.len() as u64);
        if self.file.write_all_at(bytes, at).is_ok() {
            self.len = most;
            return true;
        }
        if let Ok(found) = self.file.metadata() {
            self.len = found.len().max(self.len).min(most);
        }
        false
    }

    /// Cuts the file. A cut that fails leaves the length that the file then has.
    pub(crate) fn cut(&mut self, len: u64) -> bool
        requires { len ≤ self.old.len }
        ensures no_shorter { len ≤ self.new.len }
        ensures no_longer { self.new.len ≤ self.old.len }
        ensures cut { result ≡ true → self.new.len ≡ len }
    {
        if self.file.set_len(len).is_ok() {
            self.len = len;
            return true;
        }
        if let Ok(found) = self.file.metadata() {
            self.len = found.len().max(len).min(self.len);
        }
        false
    }

    pub(crate) fn sync(&self) -> bool {
        self.file.sync_all().is_ok()
    }
}
