//! Changes of a column beside a plain list of values, and columns of long texts.
ghost use Rattle.std.specs.Prelude.{◌≡◌, IfOk};
ghost use Rattle.dk_rows.specs.Cells.{value_of};
ghost use Rattle.dk_columns.specs.Columns.{IsOfKind};

use super::{Draws, draw_cell};
use crate::{Cells, SharedCells};
use dk_rows::Cell;
use dk_values::{ColType, List, OutOfMemory, TryCopy, Value};
use std::alloc::Global;
use std::test::Fail;

type PlainValues = List<Value>;

/// The front of both.
fn cut(cells: &mut Cells, plain: PlainValues, n: usize) -> PlainValues
    ensures { cells.new.kind ≡ cells.old.kind }
{
    cells.truncate(n);
    let mut plain = plain.into_vec();
    plain.truncate(n);
    List::from_vec(plain)
}

/// Both twice, one behind the other.
fn double(cells: &mut Cells, mut plain: PlainValues) -> Result<PlainValues, OutOfMemory>
    ensures { IfOk result (λ _. cells.new.kind ≡ cells.old.kind) }
{
    let more = cells.copy()?;
    cells.append(&more)?;
    plain.append(plain.copy()?)?;
    Ok(plain)
}

/// The same value in a place of both, where there is one.
fn put(
    cells: &mut Cells,
    mut plain: PlainValues,
    n: usize,
    cell: &Cell<'_>,
    alloc: Global,
) -> Result<PlainValues, OutOfMemory>
    requires { IsOfKind cells.old.kind (value_of cell.now) }
    ensures { IfOk result (λ _. cells.new.kind ≡ cells.old.kind) }
{
    if n >= cells.len() || n >= plain.len() {
        return Ok(plain);
    }
    cells.set(n, cell)?;
    plain.set(n, cell.to_value(alloc)?);
    Ok(plain)
}

/// The same value at the end of both.
fn push(
    cells: &mut Cells,
    mut plain: PlainValues,
    cell: &Cell<'_>,
    alloc: Global,
) -> Result<PlainValues, OutOfMemory>
    requires { IsOfKind cells.old.kind (value_of cell.now) }
    ensures { IfOk result (λ _. cells.new.kind ≡ cells.old.kind) }
{
    cells.push(cell)?;
    plain.push(cell.to_value(alloc)?)?;
    Ok(plain)
}

/// The same change of both.
fn change(
    alloc: Global,
    draws: &mut Draws,
    cells: &mut Cells,
    plain: PlainValues,
) -> Result<PlainValues, OutOfMemory>
    ensures { IfOk result (λ _. cells.new.kind ≡ cells.old.kind) }
{
    let cell = draw_cell(draws, cells.kind());
    let n = draws.below(80) as usize;
    match draws.below(8) {
        0 => Ok(cut(cells, plain, n)),
        1 => double(cells, plain),
        2 | 3 => put(cells, plain, n, &cell, alloc),
        _ => push(cells, plain, &cell, alloc),
    }
}

/// Whether some changes leave a column and a plain list the same.
pub(super) fn sequence_agrees(
    alloc: Global,
    draws: &mut Draws,
    kind: ColType,
) -> Result<bool, OutOfMemory> {
    let mut cells = Cells::new(alloc, kind);
    let mut plain = List::new(alloc);
    for _ in 0..draws.below(20) {
        plain = change(alloc, draws, &mut cells, plain)?;
    }
    Ok(cells.to_values(alloc)? == plain)
}

/// The bytes of the last of so many texts of one length.
fn last_text(alloc: Global, texts: u32, len: usize) -> Result<Option<usize>, OutOfMemory> {
    let text = vec![in alloc; b'x'; len]?;
    let mut cells = Cells::new(alloc, ColType::Text);
    'texts: for _ in 0..texts {
        cells.push(&Cell::Text(&text))?;
    }
    let Some(last) = cells.len().checked_sub(1) else {
        return Ok(None);
    };
    match cells.get(last) {
        Cell::Text(bytes) => Ok(Some(bytes.len())),
        _ => Ok(None),
    }
}

#[test]
fn texts_of_a_column_may_be_empty_or_long(rt: HostRuntime) -> Result<(), Fail> {
    let alloc = rt.alloc();
    assert_eq!(rt; last_text(alloc, 0, 1)?, None);
    assert_eq!(rt; last_text(alloc, 65, 0)?, Some(0));
    assert_eq!(rt; last_text(alloc, 2, 65_535)?, Some(65_535));
    Ok(())
}

/// The lengths of two holders of one column after the first of them added a value.
fn lengths_of_holders(alloc: Global) -> Result<(usize, usize), OutOfMemory> {
    let mut first = SharedCells::new(alloc, ColType::Int)?;
    first.push(&Cell::Int(1))?;
    let second = first.share()?;
    first.push(&Cell::Int(2))?;
    Ok((first.cells().len(), second.cells().len()))
}

#[test]
fn a_shared_column_changes_for_its_holder_alone(rt: HostRuntime) -> Result<(), Fail> {
    assert_eq!(rt; lengths_of_holders(rt.alloc())?, (2, 1));
    Ok(())
}
