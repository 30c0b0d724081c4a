//! Rows of a vector as they were written last.
ghost use Rattle.std.specs.Prelude.{◌≡◌, ◌<◌, length, IfOk, OnOk};
ghost use Rattle.std.specs.List.{All};
ghost use Rattle.dk_columns.specs.OptionTables.{FitsKinds};
ghost use Rattle.dk_vector.specs.Vectors.{base_at};
ghost use Rattle.dk_vector.specs.Changes.{rows_of, AreBelow, IsWritten};

use dk_columns::OptionRows;
use dk_rows::Rows;
use dk_values::{List, OutOfMemory, Row};
use std::alloc::Global;

/// The values of a row as they were written last.
pub(crate) fn base_row(alloc: Global, base: &OptionRows, row: u16) -> Result<Row, OutOfMemory>
    requires { row < length base.now.rows }
    ensures { IfOk result (λ values. values ≡ base_at row base.now) }
{
    match base.get(row as usize) {
        Some(values) => values.to_row(alloc),
        None => Ok(List::new(alloc)),
    }
}

/// The values of some rows as they were written last.
#[tactic(auto, using(crate::proofs::WriteLemmas::rows_next, crate::proofs::WriteLemmas::below_at))]
pub(crate) fn base_rows(alloc: Global, base: &OptionRows, rows: &[u16]) -> Result<Rows, OutOfMemory>
    requires { AreBelow (length base.now.rows) rows.now }
    ensures { IfOk result (λ values. values ≡ rows_of base.now rows.now) }
{
    let mut values = Rows::new(alloc);
    'rows: for i in 0..rows.len() {
        values.push(base_row(alloc, base, rows[i])?)?;
    }
    Ok(values)
}

/// Writes the values of some rows. Without memory some may be written, or missing.
#[tactic(auto, using(crate::proofs::WriteLemmas::written_none, crate::proofs::WriteLemmas::written_next, crate::proofs::WriteLemmas::below_at, crate::proofs::WriteLemmas::fits_at))]
pub(crate) fn write_rows(
    base: &mut OptionRows,
    rows: &[u16],
    values: &Rows,
) -> Result<(), OutOfMemory>
    requires count { length values.now ≡ length rows.now }
    requires within { AreBelow (length base.old.rows) rows.now }
    requires fits { All (FitsKinds base.old.kinds) values.now }
    ensures { OnOk result (IsWritten rows.now values.now base.old base.new) }
{
    'rows: for k in 0..rows.len() {
        let i = rows.len() - 1 - k;
        base.set(rows[i] as usize, &values.get(i))?;
    }
    Ok(())
}
