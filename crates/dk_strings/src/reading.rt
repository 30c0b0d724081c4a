//! A byte string read from its chain.
ghost use Rattle.std.specs.Prelude.{◌≡◌, ◌≢◌, ◌≤◌, Err, Ok, length, drop, OnOk, IfOk, IfSome, [], ◌∷◌, ◌++◌};
ghost use Rattle.dk_fault.specs.Causes.{HasCauseIf};
ghost use Rattle.dk_device.specs.declared.device.FileId.TheVariants.{Main};
ghost use Rattle.dk_device.specs.Changes.{Looks};
ghost use Rattle.dk_header.specs.declared.header.TheConstants.{SUM_BYTES};
ghost use Rattle.dk_block_man.specs.Used.{is_among, with_block};
ghost use Rattle.dk_block_file.specs.declared.fault.BlockFault.TheVariants.{DiskFault};
ghost use Rattle.dk_block_file.specs.Blocks.{blocks_in, ReadsAs};
ghost use Rattle.dk_meta.specs.Chain.{part_at};
ghost use Rattle.dk_strings.specs.Chains.{Chain, IsChain, unused_read, part_behind, part_read, string_at, with_blocks};
ghost use Rattle.dk_strings.specs.Effects.{chain_of, Tells, Joins, StaysUsed};

use crate::string::{Found, StringRef};
use dk_block_file::{BlockBuf, StoreFault, blocks_in, read_block};
use dk_block_man::BlockMan;
use dk_device::{Disk, FileId};
use dk_meta::read_part;
use dk_types::{Damage, Part};
use dk_values::List;
use std::alloc::Global;

/// Reads a block that nothing uses, and marks it.
fn read_unused<D: Disk>(
    disk: &mut D,
    man: &mut BlockMan,
    buf: &mut BlockBuf,
    block: u64,
) -> Result<(), StoreFault>
    requires { blocks_in (D.extent disk.old Main) ≤ man.old.blocks }
    ensures found { IfSome (D.content disk.old Main)
        (λ main. ReadsAs (unused_read main man.old.used block) (drop SUM_BYTES buf.new) result) }
    ensures marked { OnOk result (man.new.used ≡ with_block block man.old.used) }
    ensures stays { StaysUsed man.old.used man.new.used }
    ensures blocks { man.new.blocks ≡ man.old.blocks }
    ensures looks { Looks D.Disk disk.old disk.new }
    ensures cause { HasCauseIf (D.faults disk.old) (D.faults disk.new)
        (result ≡ Err DiskFault) }
{
    read_block(disk, block, buf)?;
    if !man.mark(block) {
        return Err(StoreFault::Damaged(Damage::Twice { block }));
    }
    Ok(())
}

/// Adds the bytes of the part that a block holds to those before it, and tells the next block.
fn join_part(buf: &BlockBuf, part: Part, bytes: &mut Vec<u8>) -> Result<Option<u64>, StoreFault>
    ensures joins { Joins
        (part_behind part (length bytes.old.items) (part_at (drop SUM_BYTES buf.now)))
        bytes.old.items bytes.new.items result }
    ensures no_fault { result ≢ Err DiskFault }
{
    match read_part(buf.payload()) {
        Ok(found) => {
            bytes.extend_from_slice(found.bytes)?;
            Ok(found.next)
        }
        Err(fault) => Err(StoreFault::Damaged(Damage::Malformed {
            part,
            at: bytes.len() as u64 + fault.joined,
        })),
    }
}

/// Reads the part whose block stands at the root, and adds it to what was found before it; tells the next block.
fn read_next<D: Disk>(
    disk: &mut D,
    man: &mut BlockMan,
    buf: &mut BlockBuf,
    string: StringRef,
    found: &mut Found,
) -> Result<Option<u64>, StoreFault>
    requires { blocks_in (D.extent disk.old Main) ≤ man.old.blocks }
    ensures part { IfSome (D.content disk.old Main)
        (λ main. Joins (part_read string.part main man.old.used (length found.old.bytes.items) string.root)
        found.old.bytes.items found.new.bytes.items result) }
    ensures ok { OnOk result (found.new.blocks ≡ found.old.blocks ++ string.root ∷ []) }
    ensures marked { OnOk result (man.new.used ≡ with_block string.root man.old.used) }
    ensures stays { StaysUsed man.old.used man.new.used }
    ensures blocks { man.new.blocks ≡ man.old.blocks }
    ensures looks { Looks D.Disk disk.old disk.new }
    ensures cause { HasCauseIf (D.faults disk.old) (D.faults disk.new)
        (result ≡ Err DiskFault) }
{
    read_unused(disk, man, buf, string.root)?;
    found.blocks.push(string.root)?;
    join_part(buf, string.part, &mut found.bytes)
}

/// Reads the parts of a chain, one behind the other.
fn read_chain<D: Disk>(
    alloc: Global,
    disk: &mut D,
    man: &mut BlockMan,
    buf: &mut BlockBuf,
    string: StringRef,
) -> Result<Found, StoreFault>
    requires { blocks_in (D.extent disk.old Main) ≤ man.old.blocks }
    ensures exact { IfSome (D.content disk.old Main)
        (λ main. Tells chain_of (string_at string man.old.used main) result) }
    ensures marked { IfOk result (λ found. man.new.used ≡ with_blocks found.blocks man.old.used) }
    ensures stays { StaysUsed man.old.used man.new.used }
    ensures blocks { man.new.blocks ≡ man.old.blocks }
    ensures looks { Looks D.Disk disk.old disk.new }
    ensures cause { HasCauseIf (D.faults disk.old) (D.faults disk.new)
        (result ≡ Err DiskFault) }
{
    let mut found = Found {
        bytes: Vec::new(alloc),
        blocks: List::new(alloc),
    };
    let mut place = string;
    let mut left = blocks_in(disk.len(FileId::Main)) + 1;
    'parts: while left > 0 {
        match read_next(disk, man, buf, place, &mut found)? {
            None => return Ok(found),
            Some(next) => place.root = next,
        }
        left -= 1;
    }
    Err(StoreFault::Damaged(Damage::Twice { block: place.root }))
}

/// Reads a byte string from its chain, and marks the blocks of the chain. After a refusal some of them may be marked.
pub fn read_string<D: Disk>(
    alloc: Global,
    disk: &mut D,
    man: &mut BlockMan,
    buf: &mut BlockBuf,
    string: StringRef,
) -> Result<Found, StoreFault>
    requires { blocks_in (D.extent disk.old Main) ≤ man.old.blocks }
    ensures found { IfSome (D.content disk.old Main) (λ main. IfOk result
        (λ found. IsChain main man.old.used string.root (chain_of found))) }
    ensures only { IfSome (D.content disk.old Main) (λ main. (chain : Chain) →
        IsChain main man.old.used string.root chain → Tells chain_of (Ok chain) result) }
    ensures exact { IfSome (D.content disk.old Main)
        (λ main. Tells chain_of (string_at string man.old.used main) result) }
    ensures marked { IfOk result (λ found. man.new.used ≡ with_blocks found.blocks man.old.used) }
    ensures stays { StaysUsed man.old.used man.new.used }
    ensures blocks { man.new.blocks ≡ man.old.blocks }
    ensures looks { Looks D.Disk disk.old disk.new }
    ensures cause { HasCauseIf (D.faults disk.old) (D.faults disk.new)
        (result ≡ Err DiskFault) }
{
    read_chain(alloc, disk, man, buf, string)
}
