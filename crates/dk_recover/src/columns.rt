//! The columns of a group, read from the segments of its page.
ghost use Rattle.std.specs.Prelude.{◌≡◌, ◌≢◌, ℕ, List as Items, Result, false, Ok, Err, IfOk, OnOk, IfSome, take, drop};
ghost use Rattle.dk_values.specs.declared.value.Value.{Value};
ghost use Rattle.dk_bytes.specs.Reading.{Gives, FailsAt};
ghost use Rattle.dk_fault.specs.Causes.{HasCauseIf};
ghost use Rattle.dk_device.specs.declared.device.FileId.TheVariants.{Main};
ghost use Rattle.dk_device.specs.Changes.{Looks};
ghost use Rattle.dk_header.specs.declared.header.TheConstants.{SUM_BYTES};
ghost use Rattle.dk_segment.specs.Segment.{segment_at};
ghost use Rattle.dk_block_file.specs.declared.fault.BlockFault.TheVariants.{DiskFault};
ghost use Rattle.dk_block_file.specs.Blocks.{block_read, ReadsAs};
ghost use Rattle.dk_strings.specs.Effects.{Tells};
ghost use Rattle.dk_recover.specs.Readings.{meaning, each};
ghost use Rattle.dk_recover.specs.Pages.{begins_with};
ghost use Rattle.dk_recover.specs.Rows.{ruled, segment_of, segment_in, with_segment, next_segment, next_vector, column_read, columns_read, Holds};

use crate::page::begins_with;
use dk_block_file::{BlockBuf, StoreFault, read_block};
use dk_bytes::{FieldError, SegError};
use dk_columns::Cells;
use dk_device::Disk;
use dk_pages::{SegmentRef, SegmentRefs, VectorRefs};
use dk_segment::decode_cells;
use dk_types::{Damage, Part};
use dk_values::{ColType, Column, List};
use std::alloc::Global;

/// Where the number of values of a segment stands, behind its encoding and its flag.
pub const COUNT_PLACE: usize = 2;

/// The block that was read last, if it was in order: the next segment may stand in it too.
#[derive(Drop)]
pub struct HeldBlock {
    pub buf: BlockBuf,
    pub block: Option<u64>,
}

/// Reads a block, unless it is held.
fn hold<D: Disk>(disk: &mut D, held: &mut HeldBlock, block: u64) -> Result<(), StoreFault>
    requires { IfSome (D.content disk.old Main) (λ main. Holds main held.old) }
    ensures read { IfSome (D.content disk.old Main)
        (λ main. ReadsAs (block_read block main) (drop SUM_BYTES held.new.buf) result) }
    ensures holds { IfSome (D.content disk.old Main) (λ main. Holds main held.new) }
    ensures looks { Looks D.Disk disk.old disk.new }
    ensures cause { HasCauseIf (D.faults disk.old) (D.faults disk.new)
        (result ≡ Err DiskFault) }
{
    if held.block == Some(block) {
        return Ok(());
    }
    held.block = None;
    read_block(disk, block, &mut held.buf)?;
    held.block = Some(block);
    Ok(())
}

/// The bytes behind so many.
#[tactic(auto, using(crate::proofs::ColumnLemmas::back_of))]
fn behind(bytes: &[u8], n: usize) -> &[u8]
    ensures { result.now ≡ drop n bytes.now }
{
    let (_, back) = bytes.split_at(n.min(bytes.len()));
    back
}

/// The first of so many bytes.
#[tactic(auto, using(crate::proofs::ColumnLemmas::front_of))]
fn front(bytes: &[u8], n: usize) -> &[u8]
    ensures { result.now ≡ take n bytes.now }
{
    let (front, _) = bytes.split_at(n.min(bytes.len()));
    front
}

/// The first fault of a segment whose number of values is not the one that the page tells.
#[tactic(auto, using(crate::proofs::ColumnLemmas::ruled_ok, crate::proofs::ColumnLemmas::ruled_at))]
fn wrong_count(decoded: Result<(), SegError>) -> SegError
    ensures { (values : Items Value) (reading : Result (Items Value) ℕ) → Gives (λ _. values) decoded reading
        → FailsAt result (ruled COUNT_PLACE false reading) }
{
    match decoded {
        Ok(()) => FieldError::Malformed {
            at: COUNT_PLACE as u64,
        },
        Err(FieldError::Malformed { at }) => FieldError::Malformed {
            at: at.min(COUNT_PLACE as u64),
        },
        Err(FieldError::OutOfMemory) => FieldError::OutOfMemory,
    }
}

/// The values of a segment of so many rows.
fn decode_segment(alloc: Global, bytes: &[u8], rows: u16, kind: ColType) -> Result<Cells, SegError>
    ensures values { Gives (λ cells. cells.values) result (segment_of kind rows bytes.now) }
    ensures kind { IfOk result (λ cells. cells.kind ≡ kind) }
{
    let mut cells = Cells::new(alloc, kind);
    let decoded = decode_cells(alloc, bytes, &mut cells);
    if !begins_with(behind(bytes, COUNT_PLACE), u32::from(rows)) {
        return Err(wrong_count(decoded));
    }
    decoded?;
    Ok(cells)
}

/// Adds the values of a segment of so many rows to a column.
#[tactic(auto, using(crate::proofs::ColumnLemmas::added_ok, crate::proofs::ColumnLemmas::added_at))]
fn add_segment(alloc: Global, bytes: &[u8], rows: u16, column: &mut Cells) -> Result<(), StoreFault>
    ensures exact { Tells (λ _. column.new.values) (with_segment column.old.values
        (meaning Part.Segment (segment_of column.old.kind rows bytes.now))) result }
    ensures kind { column.new.kind ≡ column.old.kind }
    ensures no_fault { result ≢ Err DiskFault }
{
    match decode_segment(alloc, bytes, rows, column.kind()) {
        Ok(cells) => {
            column.append(&cells)?;
            Ok(())
        }
        Err(FieldError::Malformed { at }) => Err(StoreFault::Damaged(Damage::Malformed {
            part: Part::Segment,
            at,
        })),
        Err(FieldError::OutOfMemory) => Err(StoreFault::OutOfMemory),
    }
}

/// Adds the values of a segment to a column.
fn read_segment<D: Disk>(
    alloc: Global,
    disk: &mut D,
    held: &mut HeldBlock,
    segment: &SegmentRef,
    column: &mut Cells,
) -> Result<(), StoreFault>
    requires { IfSome (D.content disk.old Main) (λ main. Holds main held.old) }
    ensures exact { IfSome (D.content disk.old Main) (λ main. Tells (λ _. column.new.values)
        (next_segment column.old.kind main column.old.values segment.now) result) }
    ensures kind { column.new.kind ≡ column.old.kind }
    ensures holds { IfSome (D.content disk.old Main) (λ main. Holds main held.new) }
    ensures looks { Looks D.Disk disk.old disk.new }
    ensures cause { HasCauseIf (D.faults disk.old) (D.faults disk.new)
        (result ≡ Err DiskFault) }
{
    hold(disk, held, segment.block)?;
    let rest = behind(held.buf.payload(), segment.offset as usize);
    add_segment(
        alloc,
        front(rest, segment.bytes as usize),
        segment.rows,
        column,
    )
}

/// Adds the values of a vector's segments to a column.
fn read_vector<D: Disk>(
    alloc: Global,
    disk: &mut D,
    held: &mut HeldBlock,
    segments: &[SegmentRef],
    column: &mut Cells,
) -> Result<(), StoreFault>
    requires { IfSome (D.content disk.old Main) (λ main. Holds main held.old) }
    ensures exact { IfSome (D.content disk.old Main) (λ main. Tells (λ _. column.new.values)
        (next_vector column.old.kind main column.old.values segments.now) result) }
    ensures kind { column.new.kind ≡ column.old.kind }
    ensures holds { IfSome (D.content disk.old Main) (λ main. Holds main held.new) }
    ensures looks { Looks D.Disk disk.old disk.new }
    ensures cause { HasCauseIf (D.faults disk.old) (D.faults disk.new)
        (result ≡ Err DiskFault) }
{
    let mut left = segments;
    'segments: while let [segment, rest @ ..] = left {
        read_segment(alloc, disk, held, segment, column)?;
        left = rest;
    }
    Ok(())
}

/// The values of a column of a type, vector by vector.
fn read_column<D: Disk>(
    alloc: Global,
    disk: &mut D,
    held: &mut HeldBlock,
    kind: ColType,
    vectors: &[SegmentRefs],
) -> Result<Cells, StoreFault>
    requires { IfSome (D.content disk.old Main) (λ main. Holds main held.old) }
    ensures exact { IfSome (D.content disk.old Main) (λ main. Tells (λ column. column.values)
        (column_read kind vectors.now main) result) }
    ensures kind { IfOk result (λ column. column.kind ≡ kind) }
    ensures holds { IfSome (D.content disk.old Main) (λ main. Holds main held.new) }
    ensures looks { Looks D.Disk disk.old disk.new }
    ensures cause { HasCauseIf (D.faults disk.old) (D.faults disk.new)
        (result ≡ Err DiskFault) }
{
    let mut column = Cells::new(alloc, kind);
    let mut left = vectors;
    'vectors: while let [segments, rest @ ..] = left {
        read_vector(alloc, disk, held, segments.as_slice(), &mut column)?;
        left = rest;
    }
    Ok(column)
}

/// The columns of a group of a table with this schema, from the segments of its page. A block that several segments
/// share is read once where they follow each other.
pub fn read_columns<D: Disk>(
    alloc: Global,
    disk: &mut D,
    held: &mut HeldBlock,
    schema: &[Column],
    refs: &[VectorRefs],
) -> Result<List<Cells>, StoreFault>
    requires { IfSome (D.content disk.old Main) (λ main. Holds main held.old) }
    ensures exact { IfSome (D.content disk.old Main) (λ main. Tells (λ columns. columns)
        (columns_read schema.now refs.now main) result) }
    ensures holds { IfSome (D.content disk.old Main) (λ main. Holds main held.new) }
    ensures looks { Looks D.Disk disk.old disk.new }
    ensures cause { HasCauseIf (D.faults disk.old) (D.faults disk.new)
        (result ≡ Err DiskFault) }
{
    let mut columns = List::new(alloc);
    let mut left = schema;
    let mut left_refs = refs;
    'columns: while let [column, rest @ ..] = left {
        let [vectors, rest_refs @ ..] = left_refs else {
            return Ok(columns);
        };
        let cells = read_column(alloc, disk, held, column.kind, vectors.as_slice())?;
        columns.push(cells)?;
        left = rest;
        left_refs = rest_refs;
    }
    Ok(columns)
}
