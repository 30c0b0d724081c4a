//! The manager of the blocks of a file: which are used.
ghost use Rattle.std.specs.Prelude.{◌≡◌, ◌≤◌, ◌<◌, ◌+◌, ℕ, [], length, max, true, false, not, ◌==◌, IfOk, OnErr, get_or, if◌then◌else◌};

use crate::search::{first_unused, set_flag};
use std::alloc::{AllocError as OutOfMemory, Global};
use std::marker::Model;

/// The blocks of a file, a flag for each.
#[derive(Drop)]
pub struct BlockMan {
    flags: Vec<bool>,
    /// No block below this one is unused.
    first: usize,
}

impl Model for BlockMan {
    ghost use Rattle.std.specs.Prelude.{length};
    ghost use Rattle.dk_block_man.specs.Used.{Blocks, used_of, AllUsed};

    ghost Value = { Blocks };

    ghost view = { λ m. record { used = used_of m.flags.items; blocks = length m.flags.items } };

    ghost invariant = { λ m. AllUsed m.first m.flags.items };
}

impl BlockMan {
    ghost use Rattle.dk_block_man.specs.Used.{least_unused, is_among, AreBelow, with_block, IsLeastUnused, Gains, Loses};

    /// The blocks of a file, none of them used.
    pub fn new(alloc: Global, blocks: u64) -> Result<BlockMan, OutOfMemory>
        ensures used { IfOk result (λ man. man.used ≡ []) }
        ensures blocks { IfOk result (λ man. man.blocks ≡ blocks) }
    {
        Ok(BlockMan {
            flags: vec![in alloc; false; blocks as usize]?,
            first: 0,
        })
    }

    /// The least unused number, which is the file's number of blocks where all are used, and marks it.
    pub fn take(&mut self) -> Result<u64, OutOfMemory>
        ensures least { IfOk result (λ block. IsLeastUnused block self.old.used) }
        ensures taken { IfOk result (λ block. Gains block self.old.used self.new.used) }
        ensures within { AreBelow self.new.blocks self.new.used }
        ensures blocks { IfOk result (λ block. self.new.blocks ≡ max self.old.blocks (block + 1)) }
        ensures err { OnErr result (self.new ≡ self.old) }
        ensures grows { OnErr result (least_unused self.old.used ≡ self.old.blocks) }
    {
        let block = first_unused(self.flags.as_slice(), self.first);
        set_flag(&mut self.flags, block)?;
        self.first = block + 1;
        Ok(block as u64)
    }

    /// Whether the block was unused, which it is no more.
    pub fn mark(&mut self, block: u64) -> bool
        requires { block < self.old.blocks }
        ensures was { result ≡ not (is_among self.old.used block) }
        ensures marked { self.new.used
            ≡ (if result then with_block block self.old.used else self.old.used) }
        ensures others { (k : ℕ) → is_among self.new.used k ≡
            (if k == block then true else is_among self.old.used k) }
        ensures within { AreBelow self.new.blocks self.new.used }
        ensures blocks { self.new.blocks ≡ self.old.blocks }
    {
        let place = block as usize;
        if self.flags[place] {
            return false;
        }
        self.flags[place] = true;
        true
    }

    /// Gives a used block back.
    pub fn give(&mut self, block: u64)
        requires { is_among self.old.used block ≡ true }
        ensures given { Loses block self.old.used self.new.used }
        ensures within { AreBelow self.new.blocks self.new.used }
        ensures blocks { self.new.blocks ≡ self.old.blocks }
    {
        let place = block as usize;
        self.flags[place] = false;
        self.first = self.first.min(place);
    }

    /// Whether a block is used.
    pub fn is_used(&self, block: u64) -> bool
        ensures { result ≡ is_among self.now.used block }
    {
        let place = block as usize;
        place < self.flags.len() && self.flags[place]
    }
}
