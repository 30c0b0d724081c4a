//! A row that is lent.
ghost use Rattle.std.specs.Prelude.{◌≡◌, ◌<◌, ◌↔◌, Some, length, slice_get, IsTrue, IfOk};
ghost use Rattle.dk_rows.specs.Cells.{value_of};

use crate::cell::Cell;
use crate::values::Values;
use dk_values::{List, OutOfMemory, Row, Value};
use std::alloc::Global;
use std::marker::Model;

/// A row of `Rows`, seen as the list of its values.
#[derive(Drop)]
pub struct RowRef<'a> {
    values: &'a Values,
    start: usize,
    end: usize,
}

impl<'a> Model for RowRef<'a> {
    ghost use Rattle.std.specs.Prelude.{◌-◌, List, length, take, drop};
    ghost use Rattle.dk_rows.specs.Parts.{LiesIn};
    ghost use Rattle.dk_values.specs.declared.value.Value.{Value as StoredValue};

    ghost Value = { List StoredValue };

    ghost view = { λ row. take (row.end - row.start) (drop row.start row.values.now) };

    ghost invariant = { λ row. LiesIn row.start row.end (length row.values.now) };
}

impl<'a> RowRef<'a> {
    ghost use Rattle.std.specs.Prelude.{◌-◌, ◌≤◌, take, drop};

    /// Lends the values from one place to another.
    pub fn new(values: &'a Values, start: usize, end: usize) -> RowRef<'a>
        requires order { start ≤ end }
        requires within { end ≤ length values.now }
        ensures { result ≡ take (end - start) (drop start values.now) }
    {
        RowRef { values, start, end }
    }

    #[tactic(auto, using(crate::proofs::RowLemmas::row_len))]
    pub fn len(&self) -> usize
        ensures { result ≡ length self.now }
    {
        self.end - self.start
    }

    #[tactic(auto, using(crate::proofs::RowLemmas::row_len))]
    pub fn is_empty(&self) -> bool
        ensures { IsTrue result ↔ (length self.now ≡ 0) }
    {
        self.start == self.end
    }

    /// Lends the j-th value, counted from 0.
    pub fn get(&self, j: usize) -> Cell<'a>
        requires { j < length self.now }
        ensures { slice_get self.now j ≡ Some (value_of result) }
    {
        self.values.get(self.start + j)
    }

    /// A row of its own.
    pub fn to_row(&self, alloc: Global) -> Result<Row, OutOfMemory>
        ensures { IfOk result (λ row. row ≡ self.now) }
    {
        let mut row = List::new(alloc);
        'cells: for j in 0..self.len() {
            row.push(self.get(j).to_value(alloc)?)?;
        }
        Ok(row)
    }

    /// Whether the row has these values.
    pub fn is_row(&self, row: &[Value]) -> bool
        ensures { IsTrue result ↔ (self.now ≡ row.now) }
    {
        if self.len() != row.len() {
            return false;
        }
        'cells: for j in 0..row.len() {
            if !self.get(j).is_value(&row[j]) {
                return false;
            }
        }
        true
    }

    /// Whether the rows have the same values.
    pub fn is_same(&self, other: &RowRef<'_>) -> bool
        ensures { IsTrue result ↔ (self.now ≡ other.now) }
    {
        if self.len() != other.len() {
            return false;
        }
        'cells: for j in 0..other.len() {
            if !self.get(j).is_same(&other.get(j)) {
                return false;
            }
        }
        true
    }
}
