//! A file in memory, which keeps what it held at first.
ghost use Rattle.std.specs.Prelude.{◌≡◌, ◌≤◌, length, take, nat_lt, IfOk, OnOk, OnErr};
ghost use Rattle.std.specs.List.{filter};

use crate::bytes::overwrite;
use crate::calls::DiskCall;
use crate::image::{Crash, replay};
use std::alloc::AllocError as OutOfMemory;
use std::marker::Model;

#[derive(Drop)]
pub(crate) struct MemoryFile {
    start: Vec<u8>,
    /// The bytes now, once they were changed.
    changed: Option<Vec<u8>>,
}

impl Model for MemoryFile {
    ghost use Rattle.dk_device.specs.File.{FileState, bytes_now};

    ghost Value = { FileState };

    ghost view = { λ f. record { start = f.start.items; bytes = bytes_now f.start f.changed } };
}

impl MemoryFile {
    ghost use Rattle.dk_device.specs.Disk.{overlay};
    ghost use Rattle.dk_device.specs.Image.{image_after};

    pub(crate) fn new(start: Vec<u8>) -> MemoryFile
        ensures start { result.start ≡ start.items }
        ensures bytes { result.bytes ≡ start.items }
    {
        MemoryFile {
            start,
            changed: None,
        }
    }

    pub(crate) fn bytes(&self) -> &Vec<u8>
        ensures { result.now.items ≡ self.now.bytes }
    {
        match &self.changed {
            Some(bytes) => bytes,
            None => &self.start,
        }
    }

    /// What a crash leaves behind the calls before a moment.
    pub(crate) fn image(&self, calls: &[DiskCall], crash: Crash) -> Result<Vec<u8>, OutOfMemory>
        ensures { IfOk result (λ image. image.items ≡
            image_after crash.choice crash.file self.now.start self.now.start
            (filter (λ call. nat_lt call.moment crash.moment) calls.now)) }
    {
        let alloc = *self.start.allocator();
        replay(alloc, self.start.as_slice(), calls, crash)
    }

    /// The bytes, to be put back by `put`.
    fn take(&mut self) -> Result<Vec<u8>, OutOfMemory>
        ensures start { self.new.start ≡ self.old.start }
        ensures ok { IfOk result (λ bytes. bytes.items ≡ self.old.bytes) }
        ensures err { OnErr result (self.new.bytes ≡ self.old.bytes) }
    {
        match self.changed.take() {
            Some(bytes) => Ok(bytes),
            None => self.start.to_vec(*self.start.allocator()),
        }
    }

    fn put(&mut self, bytes: Vec<u8>)
        ensures start { self.new.start ≡ self.old.start }
        ensures bytes { self.new.bytes ≡ bytes.items }
    {
        self.changed = Some(bytes);
    }

    /// Writes over the bytes at a place, and past the end.
    pub(crate) fn write(&mut self, at: usize, bytes: &[u8]) -> Result<(), OutOfMemory>
        ensures start { self.new.start ≡ self.old.start }
        ensures ok { OnOk result (self.new.bytes ≡ overlay at bytes.now self.old.bytes) }
        ensures err { OnErr result (self.new.bytes ≡ self.old.bytes) }
    {
        let mut content = self.take()?;
        let outcome = overwrite(&mut content, at, bytes);
        self.put(content);
        outcome
    }

    pub(crate) fn cut(&mut self, len: usize) -> Result<(), OutOfMemory>
        ensures start { self.new.start ≡ self.old.start }
        ensures ok { OnOk result (self.new.bytes ≡ take len self.old.bytes) }
        ensures err { OnErr result (self.new.bytes ≡ self.old.bytes) }
    {
        let mut content = self.take()?;
        content.truncate(len);
        self.put(content);
        Ok(())
    }
}
