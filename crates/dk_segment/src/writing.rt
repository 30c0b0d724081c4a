//! How a segment is written.
ghost use Rattle.std.specs.Prelude.{◌≡◌, ◌++◌, ◌∷◌, length, map, IfOk, IfSome, OnOk};
ghost use Rattle.std.specs.List.{list_all};
ghost use Rattle.std.specs.Int.{w32, to_le_bytes};
ghost use Rattle.dk_segment.specs.declared.encoding.Encoding.{Encoding};
ghost use Rattle.dk_segment.specs.Bodies.{Holds, body_of, code_of};
ghost use Rattle.dk_segment.specs.Choice.{IsBest};
ghost use Rattle.dk_segment.specs.Segment.{IsColumn, mask_flag, mask_bytes, segment_bytes, IsSegment};
ghost use Rattle.dk_bytes.specs.PlainValue.{is_present, present};
ghost use Rattle.dk_columns.specs.Columns.{number_of};
ghost use Rattle.dk_columns.specs.Stored.{IsNumeric};
ghost use Rattle.dk_seg_body.specs.Numbers.{values_for};
ghost use Rattle.dk_segment.specs.Masked.{AreFlags, masked_segment};
ghost use Rattle.dk_segment.specs.Profile.{AreFew, AreAllThere, IsProfile, number_segment};

use crate::bodies::put_body;
use crate::choice::best_for;
use crate::encoding::{Encoding, code_of};
use crate::masked::{flagged, flags_in, put_flags};
use crate::numbers::{Plan, plan_for, put_number_body};
use crate::present::{are_present, flags_of};
use dk_bytes::{pack, put_u8, put_u32};
use dk_columns::Cells;
use dk_seg_text::dictionary;
use dk_values::{ColType, OutOfMemory, Value};
use std::alloc::Global;

/// The segment of these values in the encoding of least size.
pub fn encode(alloc: Global, values: &[Value], kind: ColType) -> Result<Vec<u8>, OutOfMemory>
    requires { IsColumn kind values.now }
    ensures { IfOk result (λ v. (encoding : Encoding) × IsBest kind (present values.now) encoding
        × IsSegment kind encoding values.now v.items) }
{
    let dictionary = dictionary::size_in(alloc, values, kind)?;
    let encoding = best_for(values, kind, dictionary);
    spell(alloc, encoding, values, kind)
}

/// The segment of a column's values in the encoding of least size. Of truths and numbers it is written straight from
/// their words; of texts a list of the values is made for it.
pub fn encode_cells(alloc: Global, cells: &Cells) -> Result<Vec<u8>, OutOfMemory>
    requires { IsColumn cells.now.kind cells.now.values }
    ensures { IfOk result (λ v. (encoding : Encoding) × IsBest cells.now.kind (present cells.now.values) encoding
        × IsSegment cells.now.kind encoding cells.now.values v.items) }
{
    match numbers_in(cells) {
        Some(numbers) if cells.present().is_whole() => encode_numbers(alloc, cells, numbers),
        Some(numbers) => encode_masked(alloc, cells, numbers),
        None => encode_values(alloc, cells),
    }
}

/// Lends the words of a column of truths or numbers.
fn numbers_in(cells: &Cells) -> Option<&[i64]>
    ensures numeric { IfSome result (λ _. IsNumeric cells.now.kind) }
    ensures numbers { IfSome result (λ numbers. numbers.now ≡ map number_of cells.now.values) }
{
    match cells.kind() {
        ColType::Text => None,
        _ => cells.numbers(),
    }
}

/// The segment of the values of a column without nulls, whose words these are.
fn encode_numbers(alloc: Global, cells: &Cells, numbers: &[i64]) -> Result<Vec<u8>, OutOfMemory>
    requires column { IsColumn cells.now.kind cells.now.values }
    requires numeric { IsNumeric cells.now.kind }
    requires numbers { numbers.now ≡ map number_of cells.now.values }
    requires whole { AreAllThere cells.now.values }
    ensures { IfOk result (λ v. (encoding : Encoding) × IsBest cells.now.kind (present cells.now.values) encoding
        × IsSegment cells.now.kind encoding cells.now.values v.items) }
{
    spell_numbers(alloc, numbers, cells.kind())
}

/// The segment of the values that the numbers stand for.
fn spell_numbers(alloc: Global, numbers: &[i64], kind: ColType) -> Result<Vec<u8>, OutOfMemory>
    requires { AreFew kind numbers.now }
    ensures { IfOk result (λ v. (encoding : Encoding) × IsBest kind (values_for kind numbers.now) encoding
        × (v.items ≡ number_segment kind numbers.now encoding)) }
{
    spell_as(alloc, plan_for(numbers, kind), numbers, kind)
}

/// Their segment by this plan.
fn spell_as(
    alloc: Global,
    plan: Plan,
    numbers: &[i64],
    kind: ColType,
) -> Result<Vec<u8>, OutOfMemory>
    requires few { AreFew kind numbers.now }
    requires profile { IsProfile numbers.now plan.profile }
    requires holds { Holds plan.encoding kind (values_for kind numbers.now) }
    ensures { IfOk result (λ v. v.items ≡ number_segment kind numbers.now plan.encoding) }
{
    let mut out = Vec::new(alloc);
    put_u8(&mut out, code_of(plan.encoding))?;
    put_u8(&mut out, 0)?;
    put_u32(&mut out, numbers.len() as u32)?;
    put_number_body(plan.encoding, numbers, kind, plan.profile, &mut out)?;
    Ok(out)
}

/// The segment of the values of a column, nulls among them, whose words these are.
fn encode_masked(alloc: Global, cells: &Cells, numbers: &[i64]) -> Result<Vec<u8>, OutOfMemory>
    requires column { IsColumn cells.now.kind cells.now.values }
    requires numeric { IsNumeric cells.now.kind }
    requires numbers { numbers.now ≡ map number_of cells.now.values }
    ensures { IfOk result (λ v. (encoding : Encoding) × IsBest cells.now.kind (present cells.now.values) encoding
        × IsSegment cells.now.kind encoding cells.now.values v.items) }
{
    let flags = flags_in(alloc, cells.present())?;
    let found = flagged(alloc, &flags, numbers)?;
    spell_masked(alloc, &flags, &found, cells.kind())
}

/// The segment of flags and of the values that the numbers stand for.
fn spell_masked(
    alloc: Global,
    flags: &[u64],
    numbers: &[i64],
    kind: ColType,
) -> Result<Vec<u8>, OutOfMemory>
    requires flags { AreFlags flags.now }
    requires few { AreFew kind numbers.now }
    ensures { IfOk result (λ v. (encoding : Encoding) × IsBest kind (values_for kind numbers.now) encoding
        × (v.items ≡ masked_segment kind flags.now numbers.now encoding)) }
{
    spell_masked_as(alloc, plan_for(numbers, kind), flags, numbers, kind)
}

/// Their segment by this plan.
fn spell_masked_as(
    alloc: Global,
    plan: Plan,
    flags: &[u64],
    numbers: &[i64],
    kind: ColType,
) -> Result<Vec<u8>, OutOfMemory>
    requires flags { AreFlags flags.now }
    requires few { AreFew kind numbers.now }
    requires profile { IsProfile numbers.now plan.profile }
    requires holds { Holds plan.encoding kind (values_for kind numbers.now) }
    ensures { IfOk result (λ v. v.items ≡ masked_segment kind flags.now numbers.now plan.encoding) }
{
    let mut out = Vec::new(alloc);
    put_u8(&mut out, code_of(plan.encoding))?;
    put_flags(&mut out, flags)?;
    put_number_body(plan.encoding, numbers, kind, plan.profile, &mut out)?;
    Ok(out)
}

/// The segment of the values of a column, of which a list is made.
fn encode_values(alloc: Global, cells: &Cells) -> Result<Vec<u8>, OutOfMemory>
    requires { IsColumn cells.now.kind cells.now.values }
    ensures { IfOk result (λ v. (encoding : Encoding) × IsBest cells.now.kind (present cells.now.values) encoding
        × IsSegment cells.now.kind encoding cells.now.values v.items) }
{
    let values = cells.to_values(alloc)?;
    encode(alloc, values.as_slice(), cells.kind())
}

/// The segment in this encoding.
fn spell(
    alloc: Global,
    encoding: Encoding,
    values: &[Value],
    kind: ColType,
) -> Result<Vec<u8>, OutOfMemory>
    requires column { IsColumn kind values.now }
    requires holds { Holds encoding kind (present values.now) }
    ensures { IfOk result (λ v. v.items ≡ segment_bytes encoding values.now) }
{
    let mut out = Vec::new(alloc);
    let masked = !are_present(values);
    put_u8(&mut out, code_of(encoding))?;
    put_u8(&mut out, masked as u8)?;
    put_u32(&mut out, values.len() as u32)?;
    put_mask(alloc, &mut out, values)?;
    put_body(encoding, values, kind, &mut out)?;
    Ok(out)
}

/// Appends a bit for each value, where a null is among them.
fn put_mask(alloc: Global, out: &mut Vec<u8>, values: &[Value]) -> Result<(), OutOfMemory>
    ensures { OnOk result (out.new.items ≡ out.old.items ++ mask_bytes values.now) }
{
    if are_present(values) {
        return Ok(());
    }
    let flags = flags_of(alloc, values)?;
    pack(out, 1, flags.as_slice())
}
