//! The body has the least value, a width, and in so many bits each what the values stand above the least one; nulls are
//! passed over.

ghost use Rattle.std.specs.Prelude.{◌≡◌, ◌++◌, ◌↔◌, ◌≤◌, ◌<◌, ◌^◌, ◌+◌, ◌-◌, ◌*◌, ◌/◌, ◌==◌, ◌&&◌, true, [], length, take, map, IsTrue, IfOk, OnOk};
ghost use Rattle.std.specs.List.{All};
ghost use Rattle.std.specs.Simd.Lanes.{number_l as number};
ghost use Rattle.dk_bytes.specs.PlainValue.{present};
ghost use Rattle.dk_bytes.specs.Reading.{Gives};
ghost use Rattle.dk_bytes.specs.Bits.{bit_width, number_in, unpacked};
ghost use Rattle.dk_seg_pack.specs.Packed.{rank_of, least, greatest, width_of, fields, packed_bytes, IsPacked, is_numeric, differences_at, numbers_at};
ghost use Rattle.dk_seg_pack.specs.Above.{IsAbove, number_above, may_stand};

use crate::numbers::RankRange;
use crate::rank::{are_ranks, half_turned, number_above, rank_of};
use dk_bytes::{
    Cursor, SegError, are_plain, bit_width, byte_count, cut_if_failed, is_present, is_zero_behind,
    pack, packed_number, present_count, put_u8, put_u64, take_packed, word_of,
};
use dk_columns::Cells;
use dk_seg_body::Body;
use dk_values::{ColType, OutOfMemory, Value};
use std::alloc::Global;

/// What a body says ahead of its differences.
#[derive(Clone, Copy)]
pub(crate) struct Frame {
    /// The least rank.
    pub(crate) base: u64,
    /// How many bits each difference has.
    pub(crate) width: u32,
}

/// Numbers of few bits above the least one.
pub struct Packed;

impl Body for Packed {
    ghost use Rattle.dk_seg_pack.specs.Packed.{packed_grammar};

    ghost grammar = { packed_grammar };

    #[tactic(auto, using(crate::proofs::BodyLemmas::packed_len))]
    fn size(values: &[Value], kind: ColType) -> Option<usize> {
        if !is_packed(values, kind) {
            return None;
        }
        Some(9 + byte_count(width_of(values), present_count(values)) as usize)
    }

    fn encode(values: &[Value], kind: ColType, out: &mut Vec<u8>) -> Result<(), OutOfMemory> {
        let start = out.len();
        let put = put_body(values, out);
        cut_if_failed(out, start, put)
    }

    #[tactic(auto, unfolding(crate::specs::Packed::packed_at))]
    fn fill(alloc: Global, bytes: &[u8], count: usize, cells: &mut Cells) -> Result<(), SegError> {
        if count == 0 || !is_numeric(cells.kind()) {
            return Err(SegError::Malformed { at: 0 });
        }
        let mut cursor = Cursor::new(bytes);
        read_numbers(&mut cursor, count, cells)?;
        cursor.finish()?;
        Ok(())
    }

    fn read(alloc: Global, bytes: &[u8], count: usize, cells: &mut Cells) -> Result<(), SegError> {
        Self::fill(alloc, bytes, count, cells)
    }
}

/// Whether the values of the type are numbers.
fn is_numeric(kind: ColType) -> bool
    ensures { result ≡ is_numeric kind }
{
    match kind {
        ColType::Text => false,
        _ => true,
    }
}

/// Whether these are numbers of the type, at least one.
fn is_packed(values: &[Value], kind: ColType) -> bool
    ensures { IsTrue result ↔ IsPacked kind (present values.now) }
{
    is_numeric(kind) && present_count(values) > 0 && are_plain(values, kind)
}

/// The least rank of the values that are present.
fn least(values: &[Value]) -> u64
    ensures { result ≡ least (map rank_of (present values.now)) }
{
    values
        .iter()
        .filter(|value| is_present(value))
        .map(|value| rank_of(value))
        .fold(u64::MAX, |least, rank| least.min(rank))
}

/// The greatest one.
fn greatest(values: &[Value]) -> u64
    ensures { result ≡ greatest (map rank_of (present values.now)) }
{
    values
        .iter()
        .filter(|value| is_present(value))
        .map(|value| rank_of(value))
        .fold(0, |greatest, rank| greatest.max(rank))
}

/// The width of the greatest difference.
fn width_of(values: &[Value]) -> u32
    ensures value { result ≡ width_of (map rank_of (present values.now)) }
    ensures most { result ≤ 64 }
    ensures fits { greatest (map rank_of (present values.now)) - least (map rank_of (present values.now)) < 2 ^ result }
{
    bit_width(greatest(values).saturating_sub(least(values)))
}

/// Appends the body. Without memory a part of it may have been appended.
fn put_body(values: &[Value], out: &mut Vec<u8>) -> Result<(), OutOfMemory>
    ensures ok { OnOk result (out.new.items ≡ out.old.items ++ packed_bytes (present values.now)) }
    ensures kept { take (length out.old.items) out.new.items ≡ out.old.items }
{
    let frame = Frame {
        base: least(values),
        width: width_of(values),
    };
    let differences = differences(*out.allocator(), values, frame.base)?;
    put_fields(frame, &differences, out)
}

/// Appends the least number, the width and the differences. Without memory a part of them may have been appended.
pub(crate) fn put_fields(
    frame: Frame,
    differences: &[u64],
    out: &mut Vec<u8>,
) -> Result<(), OutOfMemory>
    requires width { frame.width ≤ 64 }
    requires numbers { All (λ number. number < 2 ^ frame.width) differences.now }
    ensures ok { OnOk result (out.new.items ≡ out.old.items ++ fields frame.base frame.width differences.now) }
    ensures kept { take (length out.old.items) out.new.items ≡ out.old.items }
{
    put_u64(out, half_turned(frame.base))?;
    put_u8(out, frame.width as u8)?;
    pack(out, frame.width, differences)
}

/// What the values stand above that rank.
fn differences(alloc: Global, values: &[Value], base: u64) -> Result<Vec<u64>, OutOfMemory>
    ensures { IfOk result (λ ds. ds.items ≡ map (λ value. rank_of value - base) (present values.now)) }
{
    values
        .iter()
        .filter(|value| is_present(value))
        .map(|value| rank_of(value).saturating_sub(base))
        .collect(alloc)
}

/// The numbers that packed differences stand for above a frame's least rank, and what is to be known of all of them.
#[derive(Drop)]
struct Above {
    numbers: Vec<i64>,
    /// The least difference, and the greatest one.
    least: u64,
    greatest: u64,
    /// Whether no bit behind the differences is 1.
    is_ended: bool,
}

/// The least number, the width and the differences, as values of the column.
#[tactic(auto, unfolding(crate::specs::Packed::numbers_at))]
fn read_numbers(cursor: &mut Cursor, count: usize, cells: &mut Cells) -> Result<(), SegError>
    requires numeric { is_numeric cells.old.kind ≡ true }
    requires none { cells.old.values ≡ [] }
    ensures kind { cells.new.kind ≡ cells.old.kind }
    ensures values { Gives (λ _. (cells.new.values, cursor.new)) result
        (numbers_at cells.old.kind count cursor.old) }
{
    let base = cursor.u64()?;
    let at = cursor.at();
    let width = cursor.u8()?;
    if width > 64 {
        return Err(SegError::Malformed { at });
    }
    let frame = Frame {
        base: half_turned(base),
        width: width as u32,
    };
    read_differences(cursor, count, frame, cells)
}

/// The differences to the frame's least rank, as values of the column.
#[tactic(auto, unfolding(crate::specs::Packed::differences_at))]
fn read_differences(
    cursor: &mut Cursor,
    count: usize,
    frame: Frame,
    cells: &mut Cells,
) -> Result<(), SegError>
    requires width { frame.width ≤ 64 }
    requires numeric { is_numeric cells.old.kind ≡ true }
    requires none { cells.old.values ≡ [] }
    ensures kind { cells.new.kind ≡ cells.old.kind }
    ensures values { Gives (λ _. (cells.new.values, cursor.new)) result
        (differences_at cells.old.kind count frame.base frame.width cursor.old) }
{
    let at = cursor.at();
    let bytes = take_packed(cursor, frame.width, count)?;
    let above = unpack_above(cells.take_numbers(), bytes, frame, count)?;
    if !may_stand(cells.kind(), frame, &above) {
        return Err(SegError::Malformed { at });
    }
    cells.put_numbers(above.numbers);
    Ok(())
}

/// The numbers that packed differences stand for, put into a buffer that is empty.
fn unpack_above(
    buffer: Vec<i64>,
    bytes: &[u8],
    frame: Frame,
    count: usize,
) -> Result<Above, OutOfMemory>
    requires none { buffer.items ≡ [] }
    requires width { frame.width ≤ 64 }
    requires within { frame.width * count ≤ 8 * length bytes.now }
    ensures { IfOk result (λ above. IsAbove frame.base (unpacked frame.width count bytes.now) above
        × (above.is_ended ≡ (number 256 bytes.now / 2 ^ (frame.width * count) == 0))) }
{
    let mut numbers = zeros(buffer, count)?;
    let range = unpack_into(&mut numbers, bytes, frame);
    let is_ended = is_zero_behind(bytes, frame.width, count);
    Ok(Above {
        numbers,
        least: range.least,
        greatest: range.greatest,
        is_ended,
    })
}

/// So many zeros, in a buffer that is empty.
fn zeros(buffer: Vec<i64>, count: usize) -> Result<Vec<i64>, OutOfMemory>
    requires { buffer.items ≡ [] }
    ensures { IfOk result (λ numbers. length numbers.items ≡ count) }
{
    let mut numbers = buffer;
    numbers.resize(count, 0)?;
    Ok(numbers)
}

/// Puts the numbers that packed differences stand for in the place of others. The least and the greatest difference.
fn unpack_into(numbers: &mut [i64], bytes: &[u8], frame: Frame) -> RankRange
    requires width { frame.width ≤ 64 }
    requires within { frame.width * length numbers.old ≤ 8 * length bytes.now }
    ensures numbers { numbers.new ≡ map (number_above frame.base) (unpacked frame.width (length numbers.old) bytes.now) }
    ensures least { result.least ≡ least (unpacked frame.width (length numbers.old) bytes.now) }
    ensures greatest { result.greatest ≡ greatest (unpacked frame.width (length numbers.old) bytes.now) }
{
    let mut least = u64::MAX;
    let mut greatest = 0u64;
    'numbers: for i in 0..numbers.len() {
        let difference = number_at(bytes, frame.width, i);
        numbers[i] = number_above(frame.base, difference);
        least = least.min(difference);
        greatest = greatest.max(difference);
    }
    RankRange { least, greatest }
}

/// The most bits of a number that stand in the word of its first byte, wherever in that byte the number begins.
const NARROW: u32 = 56;

/// So many bytes have fewer bits than a word counts.
const FEW: usize = 1 << 56;

/// Number `i` of that width, by the arithmetic of words where a word counts the bits of all bytes.
fn number_at(bytes: &[u8], width: u32, i: usize) -> u64
    requires width { width ≤ 64 }
    requires within { width * i ≤ 8 * length bytes.now }
    ensures { result ≡ number_in width i bytes.now }
{
    if width <= NARROW && bytes.len() < FEW {
        narrow_number(bytes, width, i)
    } else {
        packed_number(bytes, width, i)
    }
}

/// The same, from the one word that begins at its first byte, where the bytes have that word.
fn narrow_number(bytes: &[u8], width: u32, i: usize) -> u64
    requires width { width ≤ 56 }
    requires within { width * i ≤ 8 * length bytes.now }
    requires few { length bytes.now < 2 ^ 56 }
    ensures { result ≡ number_in width i bytes.now }
{
    let bit = width as usize * i;
    let front = &bytes[bit / 8..];
    if front.len() < 8 {
        return packed_number(bytes, width, i);
    }
    let (word, _) = split_word(front);
    (word >> (bit % 8)) & ((1 << width) - 1)
}

/// The first eight bytes as a number, the least byte first, and the bytes behind them.
fn split_word(bytes: &[u8]) -> (u64, &[u8])
    requires { 8 ≤ length bytes.now }
    ensures { number 256 bytes.now ≡ result.0 + 2 ^ 64 * number 256 result.1.now }
{
    let (front, behind) = bytes.split_at(8);
    (word_of(front), behind)
}

/// Whether a body may have these differences: one is 0, the width is that of the greatest, and all stand for values.
fn may_stand(kind: ColType, frame: Frame, above: &Above) -> bool
    ensures { result ≡ may_stand kind frame.base frame.width above.now }
{
    above.is_ended
        && above.least == 0
        && bit_width(above.greatest) == frame.width
        && are_ranks(kind, frame.base, above.greatest)
}
