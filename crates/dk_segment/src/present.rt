//! What a segment can hold, and where its nulls stand.
ghost use Rattle.std.specs.Prelude.{◌≡◌, ◌==◌, ◌↔◌, ◌++◌, ◌≤◌, drop, map, IsTrue, IfOk, OnOk};
ghost use Rattle.std.specs.List.{AllByRecursion, list_all, list_any};
ghost use Rattle.dk_bytes.specs.PlainValue.{is_present};
ghost use Rattle.dk_bytes.specs.RowFields.{IsCell};
ghost use Rattle.dk_segment.specs.Segment.{IsColumn, flag_of, flags_of, with_nulls, cell_if, step_of};
ghost use Rattle.dk_rows.specs.Cells.{value_of};
ghost use Rattle.dk_columns.specs.Columns.{IsOfKind};

use dk_bytes::{is_present, plain_len};
use dk_columns::Cells;
use dk_rows::Cell;
use dk_values::{ColType, OutOfMemory, Value};
use std::alloc::Global;

/// The most values of a segment.
pub(crate) const MAX_VALUES: usize = 2048;

/// Whether no null is among the values.
pub(crate) fn are_present(values: &[Value]) -> bool
    ensures { result ≡ list_all is_present values.now }
{
    values.iter().all(|value| is_present(value))
}

fn is_cell(value: &Value, kind: ColType) -> bool
    ensures { IsTrue result ↔ IsCell kind value.now }
{
    match value {
        Value::Null => true,
        value => plain_len(value, kind).is_some(),
    }
}

fn are_cells(values: &[Value], kind: ColType) -> bool
    ensures { IsTrue result ↔ AllByRecursion (IsCell kind) values.now }
{
    'values: for value in values {
        if !is_cell(value, kind) {
            return false;
        }
    }
    true
}

/// Whether a segment can hold the values: 1 to 2,048 of them, each null or of the type.
pub fn is_column(values: &[Value], kind: ColType) -> bool
    ensures { IsTrue result ↔ IsColumn kind values.now }
{
    !values.is_empty() && values.len() <= MAX_VALUES && are_cells(values, kind)
}

/// Whether a segment can hold the values of the column. A list of them is made for the test.
pub fn is_column_of(alloc: Global, cells: &Cells) -> Result<bool, OutOfMemory>
    ensures { IfOk result (λ holds. IsTrue holds ↔ IsColumn cells.now.kind cells.now.values) }
{
    let values = cells.to_values(alloc)?;
    Ok(is_column(values.as_slice(), cells.kind()))
}

/// A number 1 for each value that is present, and 0 for each null.
pub(crate) fn flags_of(alloc: Global, values: &[Value]) -> Result<Vec<u64>, OutOfMemory>
    ensures { IfOk result (λ flags. flags.items ≡ flags_of values.now) }
{
    values.iter().map(flag_of).collect(alloc)
}

fn flag_of(value: &Value) -> u64
    ensures { result ≡ flag_of value.now }
{
    if is_present(value) { 1 } else { 0 }
}

/// Whether one of the flags is that one.
pub(crate) fn has(flags: &[u64], wanted: u64) -> bool
    ensures { result ≡ list_any (λ flag. flag == wanted) flags.now }
{
    flags.iter().any(|flag| *flag == wanted)
}

/// Adds the present values of another column at their places, and nulls between them.
pub(crate) fn push_with_nulls(
    flags: &[u64],
    present: &Cells,
    cells: &mut Cells,
) -> Result<(), OutOfMemory>
    requires { cells.old.kind ≡ present.now.kind }
    ensures kind { cells.new.kind ≡ cells.old.kind }
    ensures values { OnOk result (cells.new.values ≡ cells.old.values ++ with_nulls flags.now present.now.values) }
{
    let mut at = 0usize;
    'flags: for flag in flags {
        cells.push(&cell_if(present, at, *flag))?;
        at += step_of(*flag);
    }
    Ok(())
}

/// How many present values a flag stands for.
fn step_of(flag: u64) -> usize
    ensures value { result ≡ step_of flag }
    ensures most { result ≤ 1 }
{
    if flag == 1 { 1 } else { 0 }
}

/// The value at that place where the flag is 1, and else a null; past the last there are nulls.
fn cell_if(present: &Cells, at: usize, flag: u64) -> Cell<'_>
    ensures value { value_of result ≡ cell_if flag (drop at present.now.values) }
    ensures kind { IsOfKind present.now.kind (value_of result) }
{
    if flag == 1 && at < present.len() {
        present.get(at)
    } else {
        Cell::Null
    }
}
