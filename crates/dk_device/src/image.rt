//! What a crash may leave of a file in memory, by a choice of the unsynced writes.
ghost use Rattle.std.specs.Prelude.{◌≡◌, nat_lt, IfOk, OnOk, true, length, take, replicate};
ghost use Rattle.dk_device.specs.declared.calls.Request.TheVariants.{Write};
ghost use Rattle.std.specs.List.{filter};
ghost use Rattle.dk_device.specs.Replay.{effect, effect_if, effect_on, if_same};
ghost use Rattle.dk_device.specs.Image.{written_by, cut_by, image_by, image_if, image_after};

use crate::FileId;
use crate::bytes::overwrite;
use crate::calls::{DiskCall, Request};
use std::alloc::{AllocError as OutOfMemory, Global};

/// What is left of the writes and cuts since the last sync.
#[derive(Clone, Copy, Debug, Drop)]
pub enum Choice {
    /// All of them.
    Kept,
    /// None of them.
    Lost,
    /// All of them, with each written byte replaced by this one.
    Torn { byte: u8 },
}

/// A crash: of which file, just before the call of which number, and what it leaves.
#[derive(Clone, Copy)]
pub(crate) struct Crash {
    pub file: FileId,
    pub moment: u64,
    pub choice: Choice,
}

/// A file as it reads, and as a crash leaves it.
#[derive(Drop)]
struct Replayed {
    bytes: Vec<u8>,
    image: Vec<u8>,
}

impl Replayed {
    fn write(
        &mut self,
        alloc: Global,
        choice: Choice,
        at: usize,
        bytes: &[u8],
    ) -> Result<(), OutOfMemory>
        ensures bytes { OnOk result (self.new.bytes.items ≡ effect
            (Write at bytes.now) self.old.bytes.items) }
        ensures image { OnOk result (self.new.image.items ≡
            written_by choice at bytes.now self.old.image.items) }
    {
        overwrite(&mut self.bytes, at, bytes)?;
        match choice {
            Choice::Kept => overwrite(&mut self.image, at, bytes),
            Choice::Lost => Ok(()),
            Choice::Torn { byte } => {
                let torn = vec![in alloc; byte; bytes.len()]?;
                overwrite(&mut self.image, at, torn.as_slice())
            }
        }
    }

    fn cut(&mut self, choice: Choice, len: usize)
        ensures bytes { self.new.bytes.items ≡ take len self.old.bytes.items }
        ensures image { self.new.image.items ≡ cut_by choice len self.old.image.items }
    {
        self.bytes.truncate(len);
        match choice {
            Choice::Kept | Choice::Torn { .. } => self.image.truncate(len),
            Choice::Lost => {}
        }
    }

    /// Does what a call asks for.
    fn apply(&mut self, alloc: Global, choice: Choice, request: &Request) -> Result<(), OutOfMemory>
        ensures bytes { OnOk result
            (self.new.bytes.items ≡ effect request.now self.old.bytes.items) }
        ensures image { OnOk result (self.new.image.items ≡
            image_by choice request.now self.old.bytes.items self.old.image.items) }
    {
        match request {
            Request::Read { .. } => {}
            Request::Write { at, bytes } => {
                self.write(alloc, choice, *at as usize, bytes.as_slice())?;
            }
            Request::Cut { len } => self.cut(choice, *len as usize),
            Request::Sync => self.image = self.bytes.to_vec(alloc)?,
        }
        Ok(())
    }

    /// Does a call that was done, where it is for this file.
    fn follow(
        &mut self,
        alloc: Global,
        choice: Choice,
        file: FileId,
        call: &DiskCall,
    ) -> Result<(), OutOfMemory>
        ensures bytes { OnOk result (self.new.bytes.items ≡
            effect_on call.now.done file call.now.file call.now.request self.old.bytes.items) }
        ensures image { OnOk result (self.new.image.items ≡ if_same file call.now.file
            (image_if call.now.done choice call.now.request self.old.bytes.items
            self.old.image.items)
            self.old.image.items) }
    {
        if call.done && call.file == file {
            self.apply(alloc, choice, &call.request)?;
        }
        Ok(())
    }
}

/// What a crash leaves of a file behind the calls before a moment.
pub(crate) fn replay(
    alloc: Global,
    start: &[u8],
    calls: &[DiskCall],
    crash: Crash,
) -> Result<Vec<u8>, OutOfMemory>
    ensures { IfOk result
        (λ image. image.items ≡ image_after crash.choice crash.file start.now start.now
        (filter (λ call. nat_lt call.moment crash.moment) calls.now)) }
{
    let mut replayed = Replayed {
        bytes: start.to_vec(alloc)?,
        image: start.to_vec(alloc)?,
    };
    'calls: for call in calls {
        if call.moment < crash.moment {
            replayed.follow(alloc, crash.choice, crash.file, call)?;
        }
    }
    Ok(replayed.image)
}
