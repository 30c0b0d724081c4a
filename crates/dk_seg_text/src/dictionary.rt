//! The body has each different text once, in the order of first use, and for each value the number of its text; nulls
//! are passed over.

ghost use Rattle.std.specs.Prelude.{◌≡◌, ◌++◌, ◌↔◌, ◌≤◌, ◌<◌, ◌+◌, ◌-◌, ◌^◌, ℕ, List, if◌then◌else◌, [], ◌∷◌, ◌*◌, ◌&&◌, ◌||◌, not, Some, None, true, false, length, take, map, option_map, bytes_eq, Ok, IsSome, IsTrue, IfSome, IfOk, OnOk, OnErr};
ghost use Rattle.std.specs.List.{AllByRecursion, flat_map, list_any};
ghost use Rattle.dk_bytes.specs.Bits.{packed};
ghost use Rattle.dk_values.specs.declared.value.Value.{Value};
ghost use Rattle.dk_values.specs.declared.value.Value.TheVariants as values;
ghost use Rattle.dk_values.specs.declared.value.ColType.TheVariants as types;
ghost use Rattle.dk_bytes.specs.PlainValue.{IsPlain, is_present, present, text_at};
ghost use Rattle.dk_bytes.specs.Reading.{Gives};
ghost use Rattle.dk_seg_text.specs.declared.dictionary.TheConstants.{MAX_ENTRIES};
ghost use Rattle.dk_seg_text.specs.Dictionary.{text_of, is_entry, entries_of, codes_behind, code_width, entry_bytes, dictionary_bytes, IsDictionary, entry_at, entries_at, used_behind, are_all_used, text_with, texts_with, codes_at, width_at, texts_at, is_text, dictionary_at};

use crate::entries::Entries;
use dk_bytes::{
    Cursor, SegError, are_plain, bit_width, byte_count, cut_if_failed, is_present, pack,
    present_count, put_u8, put_u16, split_present, take_packed, take_text, unpack,
};
use dk_columns::Cells;
use dk_rows::Cell;
use dk_seg_body::Body;
use dk_values::{ColType, OutOfMemory, Value};
use std::alloc::Global;

/// The most entries that a body may have.
const MAX_ENTRIES: usize = 65_535;

/// Each different text once, and for each value the number of its text.
pub struct Dictionary;

impl Body for Dictionary {
    ghost use Rattle.dk_seg_text.specs.Dictionary.{dictionary_grammar};

    ghost grammar = { dictionary_grammar };

    /// It takes no memory, and so compares each text with those before it.
    #[tactic(auto, using(crate::proofs::MeasureLemmas::dictionary_len))]
    fn size(values: &[Value], kind: ColType) -> Option<usize> {
        if !has_texts(values, kind) {
            return None;
        }
        let (count, len) = measure(values)?;
        Some(3 + len + byte_count(code_width(count), present_count(values)) as usize)
    }

    fn encode(values: &[Value], kind: ColType, out: &mut Vec<u8>) -> Result<(), OutOfMemory> {
        let start = out.len();
        let put = put_body(values, out);
        cut_if_failed(out, start, put)
    }

    #[tactic(auto, unfolding(crate::specs::Dictionary::dictionary_at))]
    fn fill(alloc: Global, bytes: &[u8], count: usize, cells: &mut Cells) -> Result<(), SegError> {
        if count == 0 || !is_text(cells.kind()) {
            return Err(SegError::Malformed { at: 0 });
        }
        let mut cursor = Cursor::new(bytes);
        read_texts(alloc, &mut cursor, count, cells)?;
        cursor.finish()?;
        Ok(())
    }

    fn read(alloc: Global, bytes: &[u8], count: usize, cells: &mut Cells) -> Result<(), SegError> {
        Self::fill(alloc, bytes, count, cells)
    }
}

/// The bytes of a text, and none of another value.
fn text_of(value: &Value) -> &[u8]
    ensures { result.now ≡ text_of value.now }
{
    match value {
        Value::Text(text) => text.as_slice(),
        _ => &[],
    }
}

/// Whether the type is that of texts.
fn is_text(kind: ColType) -> bool
    ensures { result ≡ is_text kind }
{
    match kind {
        ColType::Text => true,
        _ => false,
    }
}

/// The width of the codes of so many entries.
fn code_width(entry_count: usize) -> u32
    ensures value { result ≡ code_width entry_count }
    ensures most { result ≤ 64 }
{
    bit_width(entry_count.saturating_sub(1) as u64)
}

/// What `size` answers, in a time that grows with the bytes of the values alone.
#[tactic(auto, using(crate::proofs::MeasureLemmas::dictionary_len))]
pub fn size_in(alloc: Global, values: &[Value], kind: ColType) -> Result<Option<usize>, OutOfMemory>
    ensures held { IfOk result (λ size. IsSome size ↔ IsDictionary kind (present values.now)) }
    ensures length { IfOk result (λ size. IfSome size (λ n. n ≡ length (dictionary_bytes (present values.now)))) }
{
    if !has_texts(values, kind) {
        return Ok(None);
    }
    let Some((count, len)) = measure_in(alloc, values)? else {
        return Ok(None);
    };
    Ok(Some(3 + len + byte_count(code_width(count), present_count(values)) as usize))
}

/// Whether these are texts, at least one.
fn has_texts(values: &[Value], kind: ColType) -> bool
    ensures { IsTrue result
        ↔ ((kind ≡ types.Text) × (0 < length (present values.now))
        × AllByRecursion (IsPlain types.Text) (present values.now)) }
{
    present_count(values) > 0 && is_text(kind) && are_plain(values, ColType::Text)
}

/// Whether the text is one of these values.
fn is_among(values: &[Value], text: &[u8]) -> bool
    ensures { result ≡ list_any (λ value. is_present value && bytes_eq text.now (text_of value)) values.now }
{
    values
        .iter()
        .any(|value| is_present(value) && text == text_of(value))
}

/// Whether the text is an entry of the values that are present.
#[tactic(auto, using(crate::proofs::MeasureLemmas::known_is))]
fn is_entry(values: &[Value], text: &[u8]) -> bool
    ensures { result ≡ is_entry (entries_of (map text_of (present values.now))) text.now }
{
    is_among(values, text)
}

/// Whether a value behind these brings no new text.
fn brings_nothing(front: &[Value], value: &Value) -> bool
    ensures { result ≡ (not (is_present value.now) || is_entry (entries_of (map text_of (present front.now))) (text_of value.now)) }
{
    !is_present(value) || is_entry(front, text_of(value))
}

/// How many different texts there are, and how many bytes they have with their lengths.
fn measure(values: &[Value]) -> Option<(usize, usize)>
    requires { AllByRecursion (IsPlain types.Text) (present values.now) }
    ensures held { IsSome result ↔ (length (entries_of (map text_of (present values.now))) < 2 ^ 16) }
    ensures count { IfSome result (λ m. m.0 ≡ length (entries_of (map text_of (present values.now)))) }
    ensures length { IfSome result (λ m. m.1
        ≡ length (flat_map entry_bytes (entries_of (map text_of (present values.now))))) }
    ensures small { IfSome result (λ m. m.1 < 2 ^ 33) }
{
    let mut count = 0usize;
    let mut len = 0usize;
    'values: for (i, value) in values.iter().enumerate() {
        let text = text_of(value);
        let is_known = brings_nothing(&values[..i], value);
        let Some(more) = with_text(count, len, is_known, text) else {
            return None;
        };
        count = more.0;
        len = more.1;
    }
    Some((count, len))
}

/// What `measure` answers; the texts so far are kept in a table.
fn measure_in(alloc: Global, values: &[Value]) -> Result<Option<(usize, usize)>, OutOfMemory>
    requires { AllByRecursion (IsPlain types.Text) (present values.now) }
    ensures held { IfOk result (λ m. IsSome m ↔ (length (entries_of (map text_of (present values.now))) < 2 ^ 16)) }
    ensures count { IfOk result (λ m. IfSome m (λ m. m.0 ≡ length (entries_of (map text_of (present values.now))))) }
    ensures length { IfOk result (λ m. IfSome m (λ m. m.1
        ≡ length (flat_map entry_bytes (entries_of (map text_of (present values.now)))))) }
    ensures small { IfOk result (λ m. IfSome m (λ m. m.1 < 2 ^ 33)) }
{
    let mut entries = Entries::new(alloc);
    let mut count = 0usize;
    let mut len = 0usize;
    let mut left = values;
    'values: while let Some((value, rest)) = split_present(left) {
        let text = text_of(value);
        let is_known = !entries.add_new(text)?;
        let Some(more) = with_text(count, len, is_known, text) else {
            return Ok(None);
        };
        count = more.0;
        len = more.1;
        left = rest;
    }
    Ok(Some((count, len)))
}

/// The number of texts and of their bytes with one more text, if it is a new one, and if there may be one more.
fn with_text(count: usize, len: usize, is_known: bool, text: &[u8]) -> Option<(usize, usize)>
    requires count { count ≤ MAX_ENTRIES }
    requires len { len ≤ 65537 * count }
    requires text { length text.now < 2 ^ 16 }
    ensures known { is_known ≡ true → result ≡ Some (count, len) }
    ensures fresh { is_known ≡ false → count < MAX_ENTRIES → result ≡ Some (count + 1, len + (2 + length text.now)) }
    ensures full { is_known ≡ false → count ≡ MAX_ENTRIES → result ≡ None }
{
    if is_known {
        return Some((count, len));
    }
    if count == MAX_ENTRIES {
        return None;
    }
    Some((count + 1, len + (2 + text.len())))
}

/// Appends the body. Without memory a part of it may have been appended.
fn put_body(values: &[Value], out: &mut Vec<u8>) -> Result<(), OutOfMemory>
    requires plain { AllByRecursion (IsPlain types.Text) (present values.now) }
    requires few { length (entries_of (map text_of (present values.now))) < 2 ^ 16 }
    ensures ok { OnOk result (out.new.items ≡ out.old.items ++ dictionary_bytes (present values.now)) }
    ensures kept { take (length out.old.items) out.new.items ≡ out.old.items }
{
    let (entries, codes) = coded(*out.allocator(), values)?;
    put_u16(out, entries.len() as u16)?;
    entries.put(out)?;
    put_codes(out, entries.len(), &codes)
}

/// Appends the width and the codes. Without memory a part of them may have been appended.
fn put_codes(out: &mut Vec<u8>, entry_count: usize, codes: &[u64]) -> Result<(), OutOfMemory>
    requires { AllByRecursion (λ code. code < entry_count) codes.now }
    ensures ok { OnOk result (out.new.items
        ≡ out.old.items ++ (code_width entry_count ∷ packed (code_width entry_count) codes.now)) }
    ensures kept { take (length out.old.items) out.new.items ≡ out.old.items }
{
    let width = code_width(entry_count);
    put_u8(out, width as u8)?;
    pack(out, width, codes)
}

/// The entries and the codes of these values.
fn coded<'a>(alloc: Global, values: &'a [Value]) -> Result<(Entries<'a>, Vec<u64>), OutOfMemory>
    ensures entries { IfOk result (λ c. c.0 ≡ entries_of (map text_of (present values.now))) }
    ensures codes { IfOk result (λ c. c.1.items ≡ codes_behind [] (map text_of (present values.now))) }
{
    let mut entries = Entries::new(alloc);
    let mut codes = Vec::with_capacity(alloc, values.len())?;
    let mut left = values;
    'values: while let Some((value, rest)) = split_present(left) {
        let code = entries.add(text_of(value))?;
        codes.push(code as u64)?;
        left = rest;
    }
    Ok((entries, codes))
}

/// Reads one more entry, which must be none of those before.
#[tactic(auto, unfolding(crate::specs::Dictionary::entry_at))]
fn read_entry<'a>(cursor: &mut Cursor<'a>, entries: &mut Entries<'a>) -> Result<(), SegError>
    ensures { Gives (λ _. (entries.new, cursor.new)) result (entry_at entries.old cursor.old) }
{
    let at = cursor.at();
    let text = take_text(cursor)?;
    if entries.add_new(text)? {
        Ok(())
    } else {
        Err(SegError::Malformed { at })
    }
}

/// So many entries, one behind the other, none of them twice.
fn read_entries<'a>(
    alloc: Global,
    cursor: &mut Cursor<'a>,
    count: u16,
) -> Result<Entries<'a>, SegError>
    ensures { Gives (λ entries. (entries, cursor.new)) result (entries_at count [] cursor.old) }
{
    let mut entries = Entries::new(alloc);
    'entries: for _ in 0..count {
        read_entry(cursor, &mut entries)?;
    }
    Ok(entries)
}

/// Whether so many entries are used, each after all before it.
fn are_all_used(codes: &[u64], count: usize) -> bool
    ensures { result ≡ are_all_used count (used_behind 0 codes.now) }
{
    let mut used = 0u64;
    'codes: for code in codes {
        if used < *code {
            return false;
        }
        if *code == used {
            used += 1;
        }
    }
    used == count as u64
}

/// Adds the texts of the codes.
fn push_texts(entries: &Entries, codes: &[u64], cells: &mut Cells) -> Result<(), OutOfMemory>
    requires { cells.old.kind ≡ types.Text }
    ensures kind { cells.new.kind ≡ cells.old.kind }
    ensures values { OnOk result (cells.new.values ≡ cells.old.values ++ map (text_with entries.now) codes.now) }
{
    'codes: for code in codes {
        cells.push(&Cell::Text(entries.get(*code as usize)))?;
    }
    Ok(())
}

/// Adds the values that the codes stand for, if a body may have those, and says whether it may.
fn push_if_used(
    entries: &Entries,
    codes: &Option<Vec<u64>>,
    cells: &mut Cells,
) -> Result<bool, OutOfMemory>
    requires kind { cells.old.kind ≡ types.Text }
    requires none { cells.old.values ≡ [] }
    ensures kind { cells.new.kind ≡ cells.old.kind }
    ensures values { IfOk result (λ fits. texts_with entries.now (option_map (λ v. v.items) codes.now)
        ≡ (if fits then Some cells.new.values else None)) }
{
    match codes {
        Some(codes) if are_all_used(codes, entries.len()) => {
            push_texts(entries, codes, cells)?;
            Ok(true)
        }
        _ => Ok(false),
    }
}

/// The codes, as values of the column.
#[tactic(auto, unfolding(crate::specs::Dictionary::codes_at))]
fn read_codes(
    alloc: Global,
    cursor: &mut Cursor,
    entries: &Entries,
    count: usize,
    cells: &mut Cells,
) -> Result<(), SegError>
    requires kind { cells.old.kind ≡ types.Text }
    requires none { cells.old.values ≡ [] }
    ensures kind { cells.new.kind ≡ cells.old.kind }
    ensures values { Gives (λ _. (cells.new.values, cursor.new)) result
        (codes_at entries.now (code_width (length entries.now)) count cursor.old) }
{
    let at = cursor.at();
    let width = code_width(entries.len());
    let bytes = take_packed(cursor, width, count)?;
    let codes = unpack(alloc, bytes, width, count)?;
    if push_if_used(entries, &codes, cells)? {
        Ok(())
    } else {
        Err(SegError::Malformed { at })
    }
}

/// The width and the codes, as values of the column.
#[tactic(auto, unfolding(crate::specs::Dictionary::width_at))]
fn read_width(
    alloc: Global,
    cursor: &mut Cursor,
    entries: &Entries,
    count: usize,
    cells: &mut Cells,
) -> Result<(), SegError>
    requires kind { cells.old.kind ≡ types.Text }
    requires none { cells.old.values ≡ [] }
    ensures kind { cells.new.kind ≡ cells.old.kind }
    ensures values { Gives (λ _. (cells.new.values, cursor.new)) result (width_at entries.now count cursor.old) }
{
    let at = cursor.at();
    let width = cursor.u8()? as u32;
    if width != code_width(entries.len()) {
        return Err(SegError::Malformed { at });
    }
    read_codes(alloc, cursor, entries, count, cells)
}

/// The entries, the width and the codes, as values of the column.
#[tactic(auto, unfolding(crate::specs::Dictionary::texts_at))]
fn read_texts(
    alloc: Global,
    cursor: &mut Cursor,
    count: usize,
    cells: &mut Cells,
) -> Result<(), SegError>
    requires kind { cells.old.kind ≡ types.Text }
    requires none { cells.old.values ≡ [] }
    ensures kind { cells.new.kind ≡ cells.old.kind }
    ensures values { Gives (λ _. (cells.new.values, cursor.new)) result (texts_at count cursor.old) }
{
    let at = cursor.at();
    let entry_count = cursor.u16()?;
    if entry_count == 0 {
        return Err(SegError::Malformed { at });
    }
    let entries = read_entries(alloc, cursor, entry_count)?;
    read_width(alloc, cursor, &entries, count, cells)
}
