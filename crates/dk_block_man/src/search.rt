//! The search for an unused block.
ghost use Rattle.std.specs.Prelude.{◌≡◌, ◌≤◌, ◌<◌, ◌+◌, length, max, true, false, get_or, OnOk, OnErr};
ghost use Rattle.dk_block_man.specs.Used.{AllUsed, used_of, with_block};

use std::alloc::AllocError as OutOfMemory;

/// The first block from a place on that is unused.
pub(crate) fn first_unused(flags: &[bool], from: usize) -> usize
    requires { AllUsed from flags.now }
    ensures used { AllUsed result flags.now }
    ensures unused { result < length flags.now → get_or flags.now result false ≡ false }
{
    let mut block = from;
    'places: while block < flags.len() && flags[block] {
        block += 1;
    }
    block
}

/// Marks an unused block, which may be the first past the end.
pub(crate) fn set_flag(flags: &mut Vec<bool>, block: usize) -> Result<(), OutOfMemory>
    requires within { AllUsed block flags.old.items }
    requires unused { block < length flags.old.items → get_or flags.old.items block false ≡ false }
    ensures used { OnOk result
        (used_of flags.new.items ≡ with_block block (used_of flags.old.items)) }
    ensures len { OnOk result (length flags.new.items ≡ max (length flags.old.items) (block + 1)) }
    ensures all { OnOk result (AllUsed (block + 1) flags.new.items) }
    ensures err { OnErr result (flags.new.items ≡ flags.old.items) }
    ensures full { OnErr result (block ≡ length flags.old.items) }
{
    if block < flags.len() {
        flags[block] = true;
        return Ok(());
    }
    flags.push(true)?;
    Ok(())
}
