//! How a segment is read, up to its first fault.
ghost use Rattle.std.specs.Prelude.{◌≡◌, ◌==◌, ◌&&◌, ◌||◌, ◌<◌, ◌≤◌, ◌^◌, List, [], length, count_by, Ok, IfOk, OnErr, Some};
ghost use Rattle.std.specs.List.{list_any};
ghost use Rattle.dk_values.specs.declared.value.Value.{Value};
ghost use Rattle.dk_bytes.specs.Reading.{Gives};
ghost use Rattle.dk_segment.specs.declared.encoding.Encoding.{Encoding};
ghost use Rattle.dk_segment.specs.Bodies.{is_plain, body_at};
ghost use Rattle.dk_segment.specs.Segment.{IsSegment, ones, encoding_at, flag_at, count_at, flags_at, masked_at, segment_at, moved};

use crate::bodies::read_body;
use crate::encoding::{Encoding, encoding_of};
use crate::present::{MAX_VALUES, has, push_with_nulls};
use dk_bytes::{Cursor, SegError, unpack};
use dk_columns::Cells;
use dk_values::{ColType, Value};
use std::alloc::Global;

/// The values that the bytes stand for as a segment of the type.
pub fn decode(alloc: Global, bytes: &[u8], kind: ColType) -> Result<Vec<Value>, SegError>
    ensures found { IfOk result (λ v. (encoding : Encoding) × IsSegment kind encoding v.items bytes.now) }
    ensures only { (encoding : Encoding) (values : List Value) → IsSegment kind encoding values bytes.now
        → Gives (λ v. v.items) result (Ok values) }
    ensures place { Gives (λ v. v.items) result (segment_at kind bytes.now) }
{
    read(alloc, bytes, kind)
}

fn read(alloc: Global, bytes: &[u8], kind: ColType) -> Result<Vec<Value>, SegError>
    ensures { Gives (λ v. v.items) result (segment_at kind bytes.now) }
{
    let mut cells = Cells::new(alloc, kind);
    fill(alloc, bytes, &mut cells)?;
    Ok(cells.to_values(alloc)?.into_vec())
}

/// Fills a column with the values that the bytes stand for as a segment of its type, in place of those that it had.
/// Where it fails the column has no values.
pub fn decode_cells(alloc: Global, bytes: &[u8], cells: &mut Cells) -> Result<(), SegError>
    ensures kind { cells.new.kind ≡ cells.old.kind }
    ensures found { IfOk result (λ _. (encoding : Encoding)
        × IsSegment cells.old.kind encoding cells.new.values bytes.now) }
    ensures only { (encoding : Encoding) (values : List Value) → IsSegment cells.old.kind encoding values bytes.now
        → Gives (λ _. cells.new.values) result (Ok values) }
    ensures place { Gives (λ _. cells.new.values) result (segment_at cells.old.kind bytes.now) }
    ensures err { OnErr result (cells.new.values ≡ []) }
{
    cells.clear();
    match fill(alloc, bytes, cells) {
        Ok(()) => Ok(()),
        Err(fault) => {
            cells.clear();
            Err(fault)
        }
    }
}

/// Fills a column that has no values.
#[tactic(auto, unfolding(crate::specs::Segment::segment_at))]
fn fill(alloc: Global, bytes: &[u8], cells: &mut Cells) -> Result<(), SegError>
    requires { cells.old.values ≡ [] }
    ensures kind { cells.new.kind ≡ cells.old.kind }
    ensures values { Gives (λ _. cells.new.values) result (segment_at cells.old.kind bytes.now) }
{
    let mut cursor = Cursor::new(bytes);
    let encoding = read_encoding(&mut cursor, cells.kind())?;
    let flag = read_flag(&mut cursor)?;
    let count = read_count(&mut cursor)?;
    if flag == 0 {
        read_behind(alloc, &mut cursor, encoding, count as usize, cells)
    } else {
        read_masked(alloc, &mut cursor, encoding, count as usize, cells)
    }
}

#[tactic(auto, unfolding(crate::specs::Segment::encoding_at))]
fn read_encoding(cursor: &mut Cursor, kind: ColType) -> Result<Encoding, SegError>
    ensures { Gives (λ encoding. (encoding, cursor.new)) result (encoding_at kind cursor.old) }
{
    let at = cursor.at();
    let code = cursor.u8()?;
    match encoding_of(kind, code) {
        Some(encoding) => Ok(encoding),
        None => Err(SegError::Malformed { at }),
    }
}

#[tactic(auto, unfolding(crate::specs::Segment::flag_at))]
fn read_flag(cursor: &mut Cursor) -> Result<u8, SegError>
    ensures { Gives (λ flag. (flag, cursor.new)) result (flag_at cursor.old) }
{
    let at = cursor.at();
    let flag = cursor.u8()?;
    if flag < 2 {
        Ok(flag)
    } else {
        Err(SegError::Malformed { at })
    }
}

#[tactic(auto, unfolding(crate::specs::Segment::count_at))]
fn read_count(cursor: &mut Cursor) -> Result<u32, SegError>
    ensures { Gives (λ count. (count, cursor.new)) result (count_at cursor.old) }
{
    let at = cursor.at();
    let count = cursor.u32()?;
    if 1 <= count && count as usize <= MAX_VALUES {
        Ok(count)
    } else {
        Err(SegError::Malformed { at })
    }
}

/// Fills a column that has no values with the present values that the rest of the bytes stands for; a fault's place
/// counts from the segment's start.
fn read_behind(
    alloc: Global,
    cursor: &mut Cursor,
    encoding: Encoding,
    count: usize,
    cells: &mut Cells,
) -> Result<(), SegError>
    requires { cells.old.values ≡ [] }
    ensures kind { cells.new.kind ≡ cells.old.kind }
    ensures values { Gives (λ _. cells.new.values) result
        (moved cursor.old.at (body_at encoding cells.old.kind count cursor.old.rest)) }
{
    let start = cursor.at();
    let left = cursor.left();
    let bytes = cursor.take(left)?;
    // The end has a place, and so has each fault before it.
    let _end = cursor.at();
    match read_body(alloc, encoding, bytes, count, cells) {
        Err(SegError::Malformed { at }) => Err(SegError::Malformed { at: start + at }),
        read => read,
    }
}

/// Fills a column that has no values with those that a mask and the present values stand for.
#[tactic(auto, unfolding(crate::specs::Segment::masked_at))]
fn read_masked(
    alloc: Global,
    cursor: &mut Cursor,
    encoding: Encoding,
    count: usize,
    cells: &mut Cells,
) -> Result<(), SegError>
    requires count { count < 2 ^ 32 }
    requires none { cells.old.values ≡ [] }
    ensures kind { cells.new.kind ≡ cells.old.kind }
    ensures values { Gives (λ _. cells.new.values) result (masked_at encoding cells.old.kind count cursor.old) }
{
    let flags = read_flags(alloc, cursor, encoding, count)?;
    let mut present = Cells::new(alloc, cells.kind());
    read_behind(alloc, cursor, encoding, ones(&flags), &mut present)?;
    push_with_nulls(&flags, &present, cells)?;
    Ok(())
}

/// How many flags are 1.
fn ones(flags: &[u64]) -> usize
    ensures { result ≡ ones flags.now }
{
    flags.iter().filter(|flag| **flag == 1).count()
}

#[tactic(auto, unfolding(crate::specs::Segment::flags_at))]
fn read_flags(
    alloc: Global,
    cursor: &mut Cursor,
    encoding: Encoding,
    count: usize,
) -> Result<Vec<u64>, SegError>
    requires { count < 2 ^ 32 }
    ensures { Gives (λ flags. (flags.items, cursor.new)) result (flags_at encoding count cursor.old) }
{
    let at = cursor.at();
    let bytes = cursor.take((1 * count + 7) / 8)?;
    match unpack(alloc, bytes, 1, count)? {
        Some(flags) if is_mask(encoding, &flags) => Ok(flags),
        _ => Err(SegError::Malformed { at }),
    }
}

/// Whether a null is there, and a present value unless the encoding is plain.
fn is_mask(encoding: Encoding, flags: &[u64]) -> bool
    ensures { result ≡ (list_any (λ flag. flag == 0) flags.now
        && (is_plain encoding || list_any (λ flag. flag == 1) flags.now)) }
{
    has(flags, 0) && (encoding == Encoding::Plain || has(flags, 1))
}
