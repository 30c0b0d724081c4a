//! Changes of rows that may be missing, beside a plain list of rows.
ghost use Rattle.std.specs.Prelude.{◌≡◌, [], ◌∷◌, IfOk};
ghost use Rattle.dk_values.specs.declared.value.ColType.TheVariants.{Int, Text};
ghost use Rattle.dk_columns.specs.OptionTables.{FitsKinds};

use super::{Draws, draw_cell};
use crate::OptionRows;
use dk_values::{ColType, List, OutOfMemory, Row, TryCopy};
use std::alloc::Global;

type PlainRows = List<Option<Row>>;

/// A number and a text, each of which may be null.
fn draw_row(alloc: Global, draws: &mut Draws) -> Result<Row, OutOfMemory>
    ensures { IfOk result (λ row. FitsKinds (Int ∷ Text ∷ []) row) }
{
    let number = draw_cell(draws, ColType::Int).to_value(alloc)?;
    let text = draw_cell(draws, ColType::Text).to_value(alloc)?;
    Ok(List::from_vec(vec![in alloc; number, text]?))
}

/// The front of both.
fn cut(rows: &mut OptionRows, plain: PlainRows, n: usize) -> PlainRows
    ensures { rows.new.kinds ≡ rows.old.kinds }
{
    rows.truncate(n);
    let mut plain = plain.into_vec();
    plain.truncate(n);
    List::from_vec(plain)
}

/// Both twice, one behind the other.
fn double(rows: &mut OptionRows, mut plain: PlainRows) -> Result<PlainRows, OutOfMemory>
    ensures { IfOk result (λ _. rows.new.kinds ≡ rows.old.kinds) }
{
    let more = rows.copy()?;
    rows.append(&more)?;
    plain.append(plain.copy()?)?;
    Ok(plain)
}

/// The same row in a place of both, where there is one.
fn put(
    rows: &mut OptionRows,
    mut plain: PlainRows,
    n: usize,
    row: Row,
) -> Result<PlainRows, OutOfMemory>
    requires { FitsKinds rows.old.kinds row }
    ensures { IfOk result (λ _. rows.new.kinds ≡ rows.old.kinds) }
{
    if n >= rows.len() || n >= plain.len() {
        return Ok(plain);
    }
    rows.set(n, &row)?;
    plain.set(n, Some(row));
    Ok(plain)
}

/// No row in a place of both, where there is one.
fn let_go(rows: &mut OptionRows, mut plain: PlainRows, n: usize) -> Result<PlainRows, OutOfMemory>
    ensures { IfOk result (λ _. rows.new.kinds ≡ rows.old.kinds) }
{
    if n >= rows.len() || n >= plain.len() {
        return Ok(plain);
    }
    rows.set_missing(n)?;
    plain.set(n, None);
    Ok(plain)
}

fn push_none(rows: &mut OptionRows, mut plain: PlainRows) -> Result<PlainRows, OutOfMemory>
    ensures { IfOk result (λ _. rows.new.kinds ≡ rows.old.kinds) }
{
    rows.push_missing()?;
    plain.push(None)?;
    Ok(plain)
}

fn push_some(
    rows: &mut OptionRows,
    mut plain: PlainRows,
    row: Row,
) -> Result<PlainRows, OutOfMemory>
    requires { FitsKinds rows.old.kinds row }
    ensures { IfOk result (λ _. rows.new.kinds ≡ rows.old.kinds) }
{
    rows.push(&row)?;
    plain.push(Some(row))?;
    Ok(plain)
}

/// The same change of the rows and of the plain list.
fn change_rows(
    alloc: Global,
    draws: &mut Draws,
    rows: &mut OptionRows,
    plain: PlainRows,
) -> Result<PlainRows, OutOfMemory>
    requires { rows.old.kinds ≡ Int ∷ Text ∷ [] }
    ensures { IfOk result (λ _. rows.new.kinds ≡ rows.old.kinds) }
{
    let row = draw_row(alloc, draws)?;
    let n = draws.below(12) as usize;
    match draws.below(9) {
        0 => Ok(cut(rows, plain, n)),
        1 => double(rows, plain),
        2 | 3 => put(rows, plain, n, row),
        4 => let_go(rows, plain, n),
        5 => push_none(rows, plain),
        _ => push_some(rows, plain, row),
    }
}

/// Some changes of both.
fn change_often(
    alloc: Global,
    draws: &mut Draws,
    rows: &mut OptionRows,
    plain: PlainRows,
) -> Result<PlainRows, OutOfMemory>
    requires { rows.old.kinds ≡ Int ∷ Text ∷ [] }
    ensures { IfOk result (λ _. rows.new.kinds ≡ rows.old.kinds) }
{
    let mut plain = plain;
    'changes: for _ in 0..draws.below(10) {
        plain = change_rows(alloc, draws, rows, plain)?;
    }
    Ok(plain)
}

fn are_rows(alloc: Global, rows: &OptionRows, plain: PlainRows) -> Result<bool, OutOfMemory> {
    Ok(rows.to_list(alloc)? == plain)
}

/// Whether a copy keeps its rows while those that it was made of change as a plain list does.
fn copy_agrees(
    alloc: Global,
    draws: &mut Draws,
    rows: &mut OptionRows,
    plain: PlainRows,
) -> Result<bool, OutOfMemory>
    requires { rows.old.kinds ≡ Int ∷ Text ∷ [] }
{
    let kept = rows.copy()?;
    let before = kept.to_list(alloc)?;
    let plain = change_often(alloc, draws, rows, plain)?;
    Ok(are_rows(alloc, &kept, before)? && are_rows(alloc, rows, plain)?)
}

/// Whether some changes leave rows and a plain list the same, and a copy as it was.
pub(super) fn sequence_agrees(alloc: Global, draws: &mut Draws) -> Result<bool, OutOfMemory> {
    let mut rows = OptionRows::new(alloc, &[ColType::Int, ColType::Text])?;
    let plain = change_often(alloc, draws, &mut rows, List::new(alloc))?;
    copy_agrees(alloc, draws, &mut rows, plain)
}
