//! A row that is lent from columns.
ghost use Rattle.std.specs.Prelude.{◌≡◌, ◌<◌, ◌↔◌, suc, Some, length, slice_get, IsTrue, IfOk};
ghost use Rattle.dk_rows.specs.Cells.{value_of};
ghost use Rattle.dk_columns.specs.OptionTables.{row_at, AreLong};

use crate::lend_row::LendRow;
use crate::shared_cells::SharedCells;
use dk_rows::Cell;
use dk_values::{List, OutOfMemory, Row};
use std::alloc::Global;
use std::marker::Model;

/// A row of `OptionRows`, seen as the list of its values.
#[derive(Drop)]
pub struct OptionRow<'a> {
    columns: &'a [SharedCells],
    place: usize,
}

impl<'a> Model for OptionRow<'a> {
    ghost use Rattle.std.specs.Prelude.{List, suc};
    ghost use Rattle.dk_values.specs.declared.value.Value.{Value as StoredValue};
    ghost use Rattle.dk_columns.specs.OptionTables.{row_at, AreLong};

    ghost Value = { List StoredValue };

    ghost view = { λ row. row_at row.place row.columns.now };

    ghost invariant = { λ row. AreLong (suc row.place) row.columns.now };
}

impl<'a> OptionRow<'a> {
    /// Lends the values at a place of each column.
    pub(crate) fn new(columns: &'a [SharedCells], place: usize) -> OptionRow<'a>
        requires { AreLong (suc place) columns.now }
        ensures { result ≡ row_at place columns.now }
    {
        OptionRow { columns, place }
    }

    #[tactic(auto, using(crate::proofs::PutLemmas::row_len))]
    pub fn len(&self) -> usize
        ensures { result ≡ length self.now }
    {
        self.columns.len()
    }

    /// Lends the j-th value, counted from 0.
    pub fn get(&self, j: usize) -> Cell<'a>
        requires { j < length self.now }
        ensures { slice_get self.now j ≡ Some (value_of result) }
    {
        value_at(self.columns, self.place, j)
    }

    /// A row of its own.
    pub fn to_row(&self, alloc: Global) -> Result<Row, OutOfMemory>
        ensures { IfOk result (λ row. row ≡ self.now) }
    {
        let mut row = List::new(alloc);
        'cells: for j in 0..self.len() {
            row.push(self.get(j).to_value(alloc)?)?;
        }
        Ok(row)
    }

    /// Whether the rows have the same values.
    pub fn is_same(&self, other: &OptionRow<'_>) -> bool
        ensures { IsTrue result ↔ (self.now ≡ other.now) }
    {
        if self.len() != other.len() {
            return false;
        }
        'cells: for j in 0..other.len() {
            if !self.get(j).is_same(&other.get(j)) {
                return false;
            }
        }
        true
    }
}

impl<'a> LendRow for OptionRow<'a> {
    ghost values = { λ row. row };

    fn width(&self) -> usize {
        self.len()
    }

    fn cell(&self, j: usize) -> Cell<'_> {
        self.get(j)
    }
}

/// Lends the value at a place of the j-th column.
fn value_at(columns: &[SharedCells], place: usize, j: usize) -> Cell<'_>
    requires within { j < length columns.now }
    requires long { AreLong (suc place) columns.now }
    ensures { slice_get (row_at place columns.now) j ≡ Some (value_of result) }
{
    columns[j].cells().get(place)
}
