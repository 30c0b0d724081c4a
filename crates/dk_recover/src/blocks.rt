//! The blocks that the segments of a group stand in.
ghost use Rattle.std.specs.Prelude.{◌≡◌, ◌≢◌, ◌≤◌, [], Err, OnOk, IfOk};
ghost use Rattle.dk_block_file.specs.declared.fault.BlockFault.TheVariants.{DiskFault};
ghost use Rattle.dk_strings.specs.Effects.{StaysUsed, Tells};
ghost use Rattle.dk_recover.specs.Blocks.{claim, claim_segment, claim_vector, claim_column, claim_page};
ghost use Rattle.dk_recover.specs.Readings.{each};
ghost use Rattle.dk_recover.specs.Owners.{Claims, IsOwner};

use dk_block_file::StoreFault;
use dk_block_man::BlockMan;
use dk_pages::{SegmentRef, SegmentRefs, VectorRefs};
use dk_types::Damage;
use dk_values::{Ids, List};
use std::alloc::Global;

/// The blocks that a group has claimed, in the order of their first use, and marked among so many of the file.
#[derive(Drop)]
pub(crate) struct Owner {
    pub blocks: Ids,
    pub marks: BlockMan,
    pub count: u64,
}

/// Claims the block of a segment for its group, which may have it already.
fn claim_block(man: &mut BlockMan, owner: &mut Owner, block: u64) -> Result<(), StoreFault>
    requires { IsOwner man.old owner.old }
    ensures claims { Claims (λ count claimed. claim count claimed block)
        man.old man.new owner.old owner.new result }
    ensures owner { OnOk result (IsOwner man.new owner.new) }
    ensures no_fault { result ≢ Err DiskFault }
{
    if owner.marks.is_used(block) {
        return Ok(());
    }
    if block >= owner.count {
        return Err(StoreFault::Damaged(Damage::Outside {
            block,
            blocks: owner.count,
        }));
    }
    if !man.mark(block) {
        return Err(StoreFault::Damaged(Damage::Twice { block }));
    }
    owner.marks.mark(block);
    owner.blocks.push(block)?;
    Ok(())
}

/// Claims the blocks of a vector's segments.
fn claim_segments(
    man: &mut BlockMan,
    owner: &mut Owner,
    segments: &[SegmentRef],
) -> Result<(), StoreFault>
    requires { IsOwner man.old owner.old }
    ensures claims { Claims (λ count claimed. claim_vector count claimed segments.now)
        man.old man.new owner.old owner.new result }
    ensures owner { OnOk result (IsOwner man.new owner.new) }
    ensures no_fault { result ≢ Err DiskFault }
{
    let mut left = segments;
    'segments: while let [segment, rest @ ..] = left {
        claim_block(man, owner, segment.block)?;
        left = rest;
    }
    Ok(())
}

/// Claims the blocks of a column's segments.
fn claim_vectors(
    man: &mut BlockMan,
    owner: &mut Owner,
    vectors: &[SegmentRefs],
) -> Result<(), StoreFault>
    requires { IsOwner man.old owner.old }
    ensures claims { Claims (λ count claimed. claim_column count claimed vectors.now)
        man.old man.new owner.old owner.new result }
    ensures owner { OnOk result (IsOwner man.new owner.new) }
    ensures no_fault { result ≢ Err DiskFault }
{
    let mut left = vectors;
    'vectors: while let [segments, rest @ ..] = left {
        claim_segments(man, owner, segments.as_slice())?;
        left = rest;
    }
    Ok(())
}

/// Claims the blocks of the segments of all columns.
fn claim_columns(
    man: &mut BlockMan,
    owner: &mut Owner,
    columns: &[VectorRefs],
) -> Result<(), StoreFault>
    requires { IsOwner man.old owner.old }
    ensures claims { Claims (λ count claimed. each (claim_column count) claimed columns.now)
        man.old man.new owner.old owner.new result }
    ensures no_fault { result ≢ Err DiskFault }
{
    let mut left = columns;
    'columns: while let [vectors, rest @ ..] = left {
        claim_vectors(man, owner, vectors.as_slice())?;
        left = rest;
    }
    Ok(())
}

/// Claims the blocks of the segments of a page in a file of so many blocks, and answers them, each once.
pub(crate) fn claim_page(
    alloc: Global,
    man: &mut BlockMan,
    columns: &[VectorRefs],
    count: u64,
) -> Result<Ids, StoreFault>
    requires { count ≤ man.old.blocks }
    ensures exact { Tells (λ own. record { own = own; used = man.new.used })
        (each (claim_column count) (record { own = []; used = man.old.used }) columns.now) result }
    ensures stays { StaysUsed man.old.used man.new.used }
    ensures blocks { man.new.blocks ≡ man.old.blocks }
    ensures no_fault { result ≢ Err DiskFault }
{
    let mut owner = Owner {
        blocks: List::new(alloc),
        marks: BlockMan::new(alloc, count)?,
        count,
    };
    claim_columns(man, &mut owner, columns)?;
    Ok(owner.blocks)
}
