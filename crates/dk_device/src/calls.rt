//! The calls of a disk, with what they asked for.
ghost use Rattle.std.specs.Prelude.{◌≡◌, List, ℕ, IfOk, length};

use crate::FileId;
use std::alloc::{AllocError as OutOfMemory, Global};
use std::marker::Model;

/// The bytes that a write was given.
#[derive(Drop)]
pub struct Written {
    bytes: Vec<u8>,
}

impl Model for Written {
    ghost Value = { List ℕ };

    ghost view = { λ w. w.bytes.items };
}

impl Written {
    pub fn copy_of(alloc: Global, bytes: &[u8]) -> Result<Written, OutOfMemory>
        ensures { IfOk result (λ written. written ≡ bytes.now) }
    {
        Ok(Written {
            bytes: bytes.to_vec(alloc)?,
        })
    }

    pub fn as_slice(&self) -> &[u8]
        ensures { result.now ≡ self.now }
    {
        self.bytes.as_slice()
    }
}

/// What a call of a disk asks for.
#[derive(Drop)]
pub enum Request {
    Read { at: u64, len: u64 },
    Write { at: u64, bytes: Written },
    Cut { len: u64 },
    Sync,
}

/// A call that was begun.
#[derive(Drop)]
pub struct DiskCall {
    /// The number of calls begun before it.
    pub moment: u64,
    pub file: FileId,
    pub request: Request,
    /// Whether it answered Ok.
    pub done: bool,
}
