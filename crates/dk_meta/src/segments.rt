//! Where the segments of a group stand: column by column, vector by vector.
ghost use Rattle.std.specs.Prelude.{◌≡◌, ◌==◌, ◌&&◌, ◌+◌, ◌*◌, ◌<◌, ◌≤◌, ◌^◌, ◌++◌, [], IsOk, IfOk, OnOk, length, vec_len};
ghost use Rattle.std.specs.List.{flat_map, AllByRecursion};
ghost use Rattle.std.specs.Int.{w16, w32};
ghost use Rattle.dk_bytes.specs.Reading.{Reads, list_at};
ghost use Rattle.dk_meta.specs.Strings.{always, checked_at};
ghost use Rattle.dk_meta.specs.Segments.{HasCount, is_some, lies_within, next_vector_at, segment_at, segment_ref_bytes, total_rows, vector_at, vector_bytes, vector_count, vector_rows, vectors_at, vectors_bytes};

use crate::limits::{GROUP_ROWS, MAX_SEGMENTS, PAYLOAD_BYTES, VECTOR_ROWS};
use crate::room::with_room;
use dk_bytes::{Cursor, FieldError, put_u16, put_u32, put_u64};
use dk_pages::{SegmentRef, SegmentRefs, VectorRefs};
use dk_values::{List, OutOfMemory};
use std::alloc::Global;

/// How many bytes it takes to say where a segment stands.
pub(crate) const SEGMENT_REF_BYTES: usize = 18;

/// How many bytes the least vector takes: their number, and one segment.
pub(crate) const LEAST_VECTOR_BYTES: usize = 20;

/// How many vectors a group of so many rows has.
pub(crate) fn vector_count(rows: u32) -> u32
    requires { rows ≤ GROUP_ROWS }
    ensures { result ≡ vector_count rows }
{
    (rows + (VECTOR_ROWS - 1)) / VECTOR_ROWS
}

/// How many rows vector v of such a group has.
fn vector_rows(rows: u32, v: usize) -> u32
    requires { v < 2 ^ 32 }
    ensures { result ≡ vector_rows rows v }
{
    let left = (rows as usize).saturating_sub(VECTOR_ROWS as usize * v);
    (left.min(VECTOR_ROWS as usize)) as u32
}

/// How many rows a segment has.
fn rows_of(segment: &SegmentRef) -> u32
    ensures rows { result ≡ segment.now.rows }
    ensures small { result ≤ 65535 }
{
    u32::from(segment.rows)
}

/// How many rows segments have together.
fn total_rows(segments: &[SegmentRef]) -> u32
    requires { length segments.now ≤ MAX_SEGMENTS }
    ensures { result ≡ total_rows segments.now }
{
    let mut total = 0;
    let mut left = segments;
    'segments: while let [segment, rest @ ..] = left {
        total += rows_of(segment);
        left = rest;
    }
    total
}

/// How many bytes a segment has from its offset on. They lie in the payload.
fn read_bytes(cursor: &mut Cursor, offset: u32) -> Result<u32, FieldError>
    ensures { Reads (λ n. n) result cursor.new (checked_at w32 (lies_within offset) cursor.old) }
{
    let at = cursor.at();
    let bytes = cursor.u32()?;
    if offset as usize + bytes as usize > PAYLOAD_BYTES {
        return Err(FieldError::Malformed { at });
    }
    Ok(bytes)
}

/// How many rows a segment has: at least one.
fn read_rows(cursor: &mut Cursor) -> Result<u16, FieldError>
    ensures reads { Reads (λ n. n) result cursor.new (checked_at w16 is_some cursor.old) }
    ensures behind { IsOk result → 2 ≤ cursor.new.at }
{
    let at = cursor.at();
    let rows = cursor.u16()?;
    if rows == 0 {
        return Err(FieldError::Malformed { at });
    }
    Ok(rows)
}

#[tactic(auto, unfolding(crate::specs::Segments::segment_at))]
fn read_segment(cursor: &mut Cursor) -> Result<SegmentRef, FieldError>
    ensures reads { Reads (λ segment. segment) result cursor.new (segment_at cursor.old) }
    ensures behind { IsOk result → 2 ≤ cursor.new.at }
{
    let block = cursor.u64()?;
    let offset = cursor.u32()?;
    let bytes = read_bytes(cursor, offset)?;
    let rows = read_rows(cursor)?;
    Ok(SegmentRef {
        block,
        offset,
        bytes,
        rows,
    })
}

/// So many segments.
fn read_segments(
    alloc: Global,
    cursor: &mut Cursor,
    count: usize,
) -> Result<Vec<SegmentRef>, FieldError>
    ensures reads { Reads (λ segments. segments.items) result cursor.new
        (list_at (always segment_at) count [] cursor.old) }
    ensures count { IfOk result (λ segments. vec_len segments ≡ count) }
    ensures behind { IsOk result → 0 < count → 2 ≤ cursor.new.at }
{
    let mut segments = with_room(alloc, count as u64, cursor.left(), SEGMENT_REF_BYTES)?;
    'segments: for _ in 0..count {
        let segment = read_segment(cursor)?;
        segments.push(segment)?;
    }
    Ok(segments)
}

/// The segments of a vector of so many rows.
#[tactic(auto, unfolding(crate::specs::Segments::vector_at))]
fn read_vector(alloc: Global, cursor: &mut Cursor, rows: u32) -> Result<SegmentRefs, FieldError>
    ensures { Reads (λ segments. segments) result cursor.new (vector_at rows cursor.old) }
{
    let at = cursor.at();
    let count = cursor.u16()? as usize;
    if count == 0 || count > MAX_SEGMENTS {
        return Err(FieldError::Malformed { at });
    }
    let segments = read_segments(alloc, cursor, count)?;
    if total_rows(segments.as_slice()) != rows {
        return Err(FieldError::Malformed {
            at: cursor.at() - 2,
        });
    }
    Ok(List::from_vec(segments))
}

/// The vectors of a column of a group of so many rows.
#[tactic(auto, unfolding(crate::specs::Segments::vectors_at))]
pub(crate) fn read_vectors(
    alloc: Global,
    cursor: &mut Cursor,
    rows: u32,
) -> Result<VectorRefs, FieldError>
    requires { rows ≤ GROUP_ROWS }
    ensures { Reads (λ vectors. vectors) result cursor.new (vectors_at rows cursor.old) }
{
    let vectors = read_each(alloc, cursor, rows, vector_count(rows))?;
    Ok(List::from_vec(vectors))
}

/// The vector that stands behind these, in a group of so many rows.
fn read_next(
    alloc: Global,
    cursor: &mut Cursor,
    rows: u32,
    earlier: &[SegmentRefs],
) -> Result<SegmentRefs, FieldError>
    requires { length earlier.now < 2 ^ 32 }
    ensures { Reads (λ segments. segments) result cursor.new (next_vector_at rows earlier.now cursor.old) }
{
    read_vector(alloc, cursor, vector_rows(rows, earlier.len()))
}

/// So many vectors.
fn read_each(
    alloc: Global,
    cursor: &mut Cursor,
    rows: u32,
    count: u32,
) -> Result<Vec<SegmentRefs>, FieldError>
    ensures { Reads (λ vectors. vectors.items) result cursor.new
        (list_at (next_vector_at rows) count [] cursor.old) }
{
    let mut vectors = with_room(alloc, count as u64, cursor.left(), LEAST_VECTOR_BYTES)?;
    'vectors: for _ in 0..count {
        let vector = read_next(alloc, cursor, rows, vectors.as_slice())?;
        vectors.push(vector)?;
    }
    Ok(vectors)
}

/// Appends where a segment stands.
#[tactic(auto, unfolding(crate::specs::Segments::segment_ref_bytes))]
fn put_segment(out: &mut Vec<u8>, segment: &SegmentRef) -> Result<(), OutOfMemory>
    ensures { OnOk result (out.new.items ≡ out.old.items ++ segment_ref_bytes segment.now) }
{
    put_u64(out, segment.block)?;
    put_u32(out, segment.offset)?;
    put_u32(out, segment.bytes)?;
    put_u16(out, segment.rows)
}

/// Appends where segments stand.
fn put_segments(out: &mut Vec<u8>, segments: &[SegmentRef]) -> Result<(), OutOfMemory>
    ensures { OnOk result (out.new.items ≡ out.old.items ++ flat_map segment_ref_bytes segments.now) }
{
    let mut left = segments;
    'segments: while let [segment, rest @ ..] = left {
        put_segment(out, segment)?;
        left = rest;
    }
    Ok(())
}

/// Appends the segments of a vector.
fn put_vector(out: &mut Vec<u8>, segments: &[SegmentRef]) -> Result<(), OutOfMemory>
    requires { HasCount segments.now }
    ensures { OnOk result (out.new.items ≡ out.old.items ++ vector_bytes segments.now) }
{
    put_u16(out, segments.len() as u16)?;
    put_segments(out, segments)
}

/// Appends the vectors of a column.
pub(crate) fn put_vectors(out: &mut Vec<u8>, vectors: &[SegmentRefs]) -> Result<(), OutOfMemory>
    requires { AllByRecursion HasCount vectors.now }
    ensures { OnOk result (out.new.items ≡ out.old.items ++ vectors_bytes vectors.now) }
{
    let mut left = vectors;
    'vectors: while let [vector, rest @ ..] = left {
        put_vector(out, vector.as_slice())?;
        left = rest;
    }
    Ok(())
}

/// How many bytes the vectors of a column take, for which room is taken.
pub(crate) fn vectors_room(vectors: &[SegmentRefs]) -> usize {
    let mut room = 0usize;
    for vector in vectors {
        let refs = vector.len().saturating_mul(SEGMENT_REF_BYTES);
        room = room.saturating_add(refs).saturating_add(2);
    }
    room
}
