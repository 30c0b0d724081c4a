//! A block read from its place and written to it.
ghost use Rattle.std.specs.Prelude.{◌≡◌, ◌≤◌, ◌<◌, Err, length, drop, OnOk, IfErr, IfSome, ◌≢◌};
ghost use Rattle.dk_fault.specs.Causes.{HasCause, HasCauseIf};
ghost use Rattle.dk_device.specs.declared.device.FileId.TheVariants.{Main};
ghost use Rattle.dk_device.specs.Calls.{Makes};
ghost use Rattle.dk_device.specs.Changes.{Looks, ChangesAlone};
ghost use Rattle.dk_device.specs.Disk.{TornWrite};
ghost use Rattle.dk_block_file.specs.Blocks.{blocks_in, place_of, stored_sum, payload_sum, with_sum, block_read, ReadsAs};
ghost use Rattle.dk_block_file.specs.Calls.{block_read_call, block_write_call};
ghost use Rattle.dk_block_file.specs.Current.{HasHeaders};
ghost use Rattle.dk_block_file.specs.Effects.{FailsByDisk, MakesToFault, DecidedBySums, WritesBlock, KeepsOtherBlocks, KeepsHeaders};

use crate::layout::{BLOCK_BYTES, HEADERS_BYTES, blocks_in};
use crate::{BlockBuf, BlockFault};
use dk_device::{Disk, Failed, FileId};
use dk_header::SUM_BYTES;
use dk_types::Damage;

/// Where a block begins.
fn place_in<D: Disk>(disk: &D, block: u64) -> u64
    requires { place_of block ≤ D.extent disk.now Main }
    ensures { result ≡ place_of block }
{
    let most = disk.len(FileId::Main) / BLOCK_BYTES;
    HEADERS_BYTES + BLOCK_BYTES * block.min(most)
}

/// Compares the checksum in front of a block with that of its payload.
fn check_sum(block: u64, buf: &BlockBuf) -> Result<(), BlockFault>
    ensures matches { OnOk result (stored_sum buf.now ≡ payload_sum buf.now) }
    ensures differs { IfErr result
        (λ e. (e ≡ BlockFault.Damaged (Damage.Sum block (stored_sum buf.now) (payload_sum buf.now)))
        × (stored_sum buf.now ≢ payload_sum buf.now)) }
{
    let stored = buf.stored();
    let computed = buf.computed();
    if stored == computed {
        return Ok(());
    }
    Err(BlockFault::Damaged(Damage::Sum {
        block,
        stored,
        computed,
    }))
}

/// Reads a block that lies in the main file.
fn read_within<D: Disk>(disk: &mut D, block: u64, buf: &mut BlockBuf) -> Result<(), BlockFault>
    requires { block < blocks_in (D.extent disk.old Main) }
    ensures found { IfSome (D.content disk.old Main)
        (λ main. ReadsAs (block_read block main) (drop SUM_BYTES buf.new) result) }
    ensures sums { DecidedBySums block buf.new result }
    ensures looks { Looks D.Disk disk.old disk.new }
    ensures calls { MakesToFault D.Disk (block_read_call block) disk.old disk.new result }
    ensures cause { HasCauseIf (D.faults disk.old) (D.faults disk.new)
        (result ≡ Err BlockFault.DiskFault) }
{
    let at = place_in(disk, block);
    buf.fill(disk, at)?;
    check_sum(block, buf)
}

/// Reads a block, in one call of the disk. After a refusal the buffer holds any bytes.
pub fn read_block<D: Disk>(disk: &mut D, block: u64, buf: &mut BlockBuf) -> Result<(), BlockFault>
    ensures outside { blocks_in (D.extent disk.old Main) ≤ block →
        (result ≡ Err (BlockFault.Damaged
        (Damage.Outside block (blocks_in (D.extent disk.old Main))))) × (disk.new ≡ disk.old) }
    ensures found { IfSome (D.content disk.old Main)
        (λ main. ReadsAs (block_read block main) (drop SUM_BYTES buf.new) result) }
    ensures sums { block < blocks_in (D.extent disk.old Main) → DecidedBySums block buf.new result }
    ensures looks { Looks D.Disk disk.old disk.new }
    ensures calls { block < blocks_in (D.extent disk.old Main) →
        MakesToFault D.Disk (block_read_call block) disk.old disk.new result }
    ensures cause { HasCauseIf (D.faults disk.old) (D.faults disk.new)
        (result ≡ Err BlockFault.DiskFault) }
{
    let blocks = blocks_in(disk.len(FileId::Main));
    if block >= blocks {
        return Err(BlockFault::Damaged(Damage::Outside { block, blocks }));
    }
    read_within(disk, block, buf)
}

/// Writes the bytes of a block, which have their checksum in front, at its place.
fn write_bytes<D: Disk>(disk: &mut D, block: u64, bytes: &[u8]) -> Result<(), Failed>
    requires place { place_of block ≤ D.extent disk.old Main }
    requires whole { length bytes.now ≡ BLOCK_BYTES }
    requires sums { stored_sum bytes.now ≡ payload_sum bytes.now }
    ensures done { OnOk result (WritesBlock D.Disk block bytes.now disk.old disk.new) }
    ensures alone { ChangesAlone D.Disk
        (TornWrite (place_of block) BLOCK_BYTES (D.extent disk.old Main)) Main disk.old disk.new }
    ensures others { KeepsOtherBlocks D.Disk block disk.old disk.new }
    ensures headers { HasHeaders D.Disk disk.old → KeepsHeaders D.Disk disk.old disk.new }
    ensures calls { Makes D.Disk (block_write_call block bytes.now) disk.old disk.new result }
    ensures cause { HasCause (D.faults disk.old) (D.faults disk.new) result }
{
    let at = place_in(disk, block);
    disk.write_at(FileId::Main, at, bytes)
}

/// Writes a block with its checksum, in one call of the disk.
pub fn write_block<D: Disk>(disk: &mut D, block: u64, buf: &mut BlockBuf) -> Result<(), BlockFault>
    requires { place_of block ≤ D.extent disk.old Main }
    ensures with_sum { (buf.new ≡ with_sum buf.old) × (length buf.new ≡ BLOCK_BYTES) }
    ensures done { OnOk result (WritesBlock D.Disk block (with_sum buf.old) disk.old disk.new) }
    ensures alone { ChangesAlone D.Disk
        (TornWrite (place_of block) BLOCK_BYTES (D.extent disk.old Main)) Main disk.old disk.new }
    ensures others { KeepsOtherBlocks D.Disk block disk.old disk.new }
    ensures headers { HasHeaders D.Disk disk.old → KeepsHeaders D.Disk disk.old disk.new }
    ensures calls { Makes D.Disk
        (block_write_call block (with_sum buf.old)) disk.old disk.new result }
    ensures cause { FailsByDisk (D.faults disk.old) (D.faults disk.new) result }
{
    buf.seal();
    write_bytes(disk, block, buf.as_slice())?;
    Ok(())
}
