//! A byte string written into unused blocks.
ghost use Rattle.std.specs.Prelude.{◌≡◌, ◌≤◌, ◌<◌, ◌+◌, List, ℕ, [], ◌∷◌, ◌++◌, length, Ok, Err, Some, None, OnOk, OnErr, IfOk, IfSome};
ghost use Rattle.dk_device.specs.declared.device.FileId.TheVariants.{Main};
ghost use Rattle.dk_block_man.specs.Used.{AreBelow, IsLeastUnused, Gains};
ghost use Rattle.dk_block_file.specs.declared.fault.BlockFault.TheVariants.{DiskFault};
ghost use Rattle.dk_block_file.specs.Blocks.{blocks_in, place_of};
ghost use Rattle.dk_block_file.specs.Current.{HasHeaders};
ghost use Rattle.dk_block_file.specs.Effects.{FailsByDisk, KeepsHeaders};
ghost use Rattle.dk_block_file.specs.declared.layout.TheConstants.{HEADERS_BYTES};
ghost use Rattle.dk_fault.specs.Causes.{HasCauseIf};
ghost use Rattle.dk_meta.specs.Chain.{IsPart};
ghost use Rattle.dk_meta.specs.declared.limits.TheConstants.{NO_BLOCK};
ghost use Rattle.dk_strings.specs.Effects.{Takes, IsOneOf, KeepsBlocks, WritesBlockAlone, HasPart, WritesInto, HasBytes, NamesNoDamage};
ghost use Rattle.dk_strings.specs.Chains.{first_or, string_at};
ghost use Rattle.dk_strings.specs.declared.string.StringRef.{StringRef};

use dk_block_file::{BlockBuf, StoreFault, blocks_in, write_block};
use dk_block_man::BlockMan;
use dk_device::{Disk, FileId};
use dk_meta::{PART_BYTES, write_part};
use dk_values::{Ids, List, OutOfMemory};
use std::alloc::Global;

/// Takes an unused block, and notes it.
fn take_block(man: &mut BlockMan, blocks: &mut Ids) -> Result<u64, OutOfMemory>
    ensures least { IfOk result (λ block. IsLeastUnused block man.old.used) }
    ensures taken { IfOk result (λ block. Gains block man.old.used man.new.used) }
    ensures noted { IfOk result (λ block. blocks.new ≡ blocks.old ++ block ∷ []) }
    ensures err { OnErr result ((man.new.used ≡ man.old.used) × (blocks.new ≡ blocks.old)) }
{
    let block = man.take()?;
    if blocks.push(block).is_err() {
        man.give(block);
        return Err(OutOfMemory);
    }
    Ok(block)
}

/// Gives blocks back that were taken one after the other.
fn give_blocks(man: &mut BlockMan, blocks: Ids)
    requires { (before : List ℕ) × Takes blocks before man.old.used }
    ensures { (before : List ℕ) → Takes blocks before man.old.used → man.new.used ≡ before }
{
    let mut left = blocks.into_vec();
    'given: while let Some(block) = left.pop() {
        man.give(block);
    }
}

/// Takes the block that the next part is written into, which lies in the file or right behind it.
fn take_next<D: Disk>(disk: &D, man: &mut BlockMan, blocks: &mut Ids) -> Result<u64, OutOfMemory>
    requires { AreBelow (blocks_in (D.extent disk.now Main) + 1) man.old.used }
    ensures few { IfOk result (λ block. block < NO_BLOCK) }
    ensures least { IfOk result (λ block. IsLeastUnused block man.old.used) }
    ensures taken { IfOk result (λ block. Gains block man.old.used man.new.used) }
    ensures noted { IfOk result (λ block. blocks.new ≡ blocks.old ++ block ∷ []) }
    ensures err { OnErr result ((man.new.used ≡ man.old.used) × (blocks.new ≡ blocks.old)) }
{
    let most = blocks_in(disk.len(FileId::Main)) + 1;
    let block = take_block(man, blocks)?;
    Ok(block.min(most))
}

/// Writes a part of a chain into its block.
fn write_block_part<D: Disk>(
    disk: &mut D,
    buf: &mut BlockBuf,
    block: u64,
    next: Option<u64>,
    bytes: &[u8],
) -> Result<(), StoreFault>
    requires place { place_of block ≤ D.extent disk.old Main }
    requires part { IsPart (record { next = next; bytes = bytes.now }) }
    ensures done { OnOk result (HasPart D.Disk block
        (record { next = next; bytes = bytes.now }) disk.old disk.new) }
    ensures alone { WritesBlockAlone D.Disk block disk.old disk.new }
    ensures cause { FailsByDisk (D.faults disk.old) (D.faults disk.new) result }
{
    write_part(buf.payload_mut(), next, bytes);
    write_block(disk, block, buf)
}

/// Writes the parts of a string, each into an unused block. A part names the next block, which is taken before.
fn write_parts<D: Disk>(
    disk: &mut D,
    man: &mut BlockMan,
    buf: &mut BlockBuf,
    blocks: &mut Ids,
    bytes: &[u8],
) -> Result<(), StoreFault>
    requires none { blocks.old ≡ [] }
    requires some { 0 < length bytes.now }
    requires headers { HEADERS_BYTES ≤ D.extent disk.old Main }
    requires within { AreBelow (blocks_in (D.extent disk.old Main)) man.old.used }
    ensures done { OnOk result
        (HasBytes D.Disk blocks.new man.new.used bytes.now disk.old disk.new) }
    ensures writes { WritesInto D.Disk blocks.new man.old.used man.new.used disk.old disk.new }
    ensures cause { HasCauseIf (D.faults disk.old) (D.faults disk.new)
        (result ≡ Err DiskFault) }
    ensures sound { NamesNoDamage result }
{
    let mut block = take_block(man, blocks)?;
    let mut rest = bytes;
    'parts: while rest.len() > PART_BYTES {
        let next = take_next(disk, man, blocks)?;
        let (front, behind) = rest.split_at(PART_BYTES);
        write_block_part(disk, buf, block, Some(next), front)?;
        block = next;
        rest = behind;
    }
    write_block_part(disk, buf, block, None, rest)
}

/// Writes a byte string into unused blocks, which it answers, the root first. Nothing is synced. After a refusal every
/// block that was taken is given back.
pub fn write_string<D: Disk>(
    alloc: Global,
    disk: &mut D,
    man: &mut BlockMan,
    buf: &mut BlockBuf,
    bytes: &[u8],
) -> Result<Ids, StoreFault>
    requires some { 0 < length bytes.now }
    requires headers { HEADERS_BYTES ≤ D.extent disk.old Main }
    requires within { AreBelow (blocks_in (D.extent disk.old Main)) man.old.used }
    ensures ok { IfOk result (λ blocks.
        HasBytes D.Disk blocks man.new.used bytes.now disk.old disk.new
        × WritesInto D.Disk blocks man.old.used man.new.used disk.old disk.new) }
    ensures again { IfOk result (λ blocks. IfSome (D.content disk.new Main) (λ main.
        (string : StringRef) → first_or None blocks ≡ Some string.root →
        string_at string man.old.used main ≡ Ok (record { bytes = bytes.now; blocks = blocks }))) }
    ensures given_back { OnErr result (man.new.used ≡ man.old.used) }
    ensures keeps { KeepsBlocks D.Disk (IsOneOf man.old.used) disk.old disk.new }
    ensures headers { HasHeaders D.Disk disk.old → KeepsHeaders D.Disk disk.old disk.new }
    ensures cause { HasCauseIf (D.faults disk.old) (D.faults disk.new)
        (result ≡ Err DiskFault) }
    ensures sound { NamesNoDamage result }
{
    let mut blocks = List::new(alloc);
    match write_parts(disk, man, buf, &mut blocks, bytes) {
        Ok(()) => Ok(blocks),
        Err(fault) => {
            give_blocks(man, blocks);
            Err(fault)
        }
    }
}
