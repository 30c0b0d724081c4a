//! Many rows in a few buffers.
ghost use Rattle.std.specs.Prelude.{◌≡◌, ◌<◌, ◌≤◌, ◌↔◌, ◌-◌, ◌∷◌, ◌++◌, [], Some, length, slice_get, take, drop, IsTrue, IfOk, OnOk, OnErr};
ghost use Rattle.dk_rows.specs.Parts.{parts, AreEnds, start_of};

use crate::cell::Cell;
use crate::row_ref::RowRef;
use crate::rows_iter::RowsIter;
use crate::texts::start_at;
use crate::values::Values;
use dk_values::{List, OutOfMemory, Row, TryCopy, Value};
use std::alloc::Global;
use std::marker::Model;

/// Rows, seen as their list: the values of all rows one behind the other, and where each row ends.
///
/// Rows may have any values and any width.
#[derive(Debug, Drop)]
pub struct Rows {
    values: Values,
    ends: Vec<usize>,
}

impl Model for Rows {
    ghost use Rattle.std.specs.Prelude.{List};
    ghost use Rattle.dk_values.specs.declared.value.Value.{Value as StoredValue};
    ghost use Rattle.dk_rows.specs.Parts.{parts, AreEnds};

    ghost Value = { List (List StoredValue) };

    ghost view = { λ rows. parts 0 rows.values rows.ends.items };

    ghost invariant = { λ rows. AreEnds 0 rows.values rows.ends.items };
}

impl Rows {
    /// No rows. It takes no memory yet.
    pub fn new(alloc: Global) -> Rows
        ensures { result ≡ [] }
    {
        Rows {
            values: Values::new(alloc),
            ends: Vec::new(alloc),
        }
    }

    #[tactic(auto, using(crate::proofs::PartsLemmas::parts_len))]
    pub fn len(&self) -> usize
        ensures { result ≡ length self.now }
    {
        self.ends.len()
    }

    pub fn is_empty(&self) -> bool
        ensures { IsTrue result ↔ (self.now ≡ []) }
    {
        self.len() == 0
    }

    /// Lends the i-th row, counted from 0.
    pub fn get(&self, i: usize) -> RowRef<'_>
        requires { i < length self.now }
        ensures { slice_get self.now i ≡ Some result }
    {
        row_at(&self.values, &self.ends, i)
    }

    /// Goes over the rows from the first one on.
    pub fn iter(&self) -> RowsIter<'_>
        ensures { result ≡ self.now }
    {
        RowsIter::new(self)
    }

    /// Adds a row at the end.
    pub fn push(&mut self, row: Row) -> Result<(), OutOfMemory>
        ensures ok { OnOk result (self.new ≡ self.old ++ row ∷ []) }
        ensures err { OnErr result (self.new ≡ self.old) }
    {
        self.push_slice(row.as_slice())
    }

    /// Adds a row of these values at the end.
    pub fn push_slice(&mut self, row: &[Value]) -> Result<(), OutOfMemory>
        ensures ok { OnOk result (self.new ≡ self.old ++ row.now ∷ []) }
        ensures err { OnErr result (self.new ≡ self.old) }
    {
        push_row(&mut self.values, &mut self.ends, row)
    }

    /// Adds a copy of a row at the end.
    pub fn push_copy(&mut self, row: &RowRef<'_>) -> Result<(), OutOfMemory>
        ensures ok { OnOk result (self.new ≡ self.old ++ row.now ∷ []) }
        ensures err { OnErr result (self.new ≡ self.old) }
    {
        push_lent(&mut self.values, &mut self.ends, row)
    }

    /// Moves other rows to the end. Without memory these rows stay, and the others are dropped.
    pub fn append(&mut self, more: Rows) -> Result<(), OutOfMemory>
        ensures ok { OnOk result (self.new ≡ self.old ++ more) }
        ensures err { OnErr result (self.new ≡ self.old) }
    {
        if self.is_empty() {
            *self = more;
            return Ok(());
        }
        self.append_copies(&more)
    }

    /// Adds copies of other rows at the end.
    #[tactic(auto, using(crate::proofs::RowLemmas::taken_back, crate::proofs::RowLemmas::put_next))]
    pub fn append_copies(&mut self, more: &Rows) -> Result<(), OutOfMemory>
        ensures ok { OnOk result (self.new ≡ self.old ++ more.now) }
        ensures err { OnErr result (self.new ≡ self.old) }
    {
        let before = self.len();
        'rows: for i in 0..more.len() {
            if let Err(lack) = self.push_copy(&more.get(i)) {
                self.truncate(before);
                return Err(lack);
            }
        }
        Ok(())
    }

    /// The rows of a list.
    pub fn from_list(alloc: Global, rows: &List<Row>) -> Result<Rows, OutOfMemory>
        ensures { IfOk result (λ made. made ≡ rows.now) }
    {
        let mut made = Rows::new(alloc);
        'rows: for i in 0..rows.len() {
            made.push_slice(rows.get(i).as_slice())?;
        }
        Ok(made)
    }

    /// The rows as a list, with an allocation for each.
    pub fn to_list(&self, alloc: Global) -> Result<List<Row>, OutOfMemory>
        ensures { IfOk result (λ rows. rows ≡ self.now) }
    {
        let mut rows = List::new(alloc);
        'rows: for i in 0..self.len() {
            rows.push(self.get(i).to_row(alloc)?)?;
        }
        Ok(rows)
    }

    /// Whether the same rows stand in the same order.
    pub fn is_same(&self, other: &Rows) -> bool
        ensures { IsTrue result ↔ (self.now ≡ other.now) }
    {
        if self.len() != other.len() {
            return false;
        }
        'rows: for i in 0..other.len() {
            if !self.get(i).is_same(&other.get(i)) {
                return false;
            }
        }
        true
    }

    /// Keeps the first n rows.
    pub fn truncate(&mut self, n: usize)
        ensures { self.new ≡ take n self.old }
    {
        truncate_rows(&mut self.values, &mut self.ends, n);
    }
}

impl TryCopy for Rows {
    fn copy(&self) -> Result<Rows, OutOfMemory> {
        let values = self.values.copy()?;
        let ends = Vec::from_slice(*self.ends.allocator(), &self.ends)?;
        Ok(Rows { values, ends })
    }
}

impl PartialEq for Rows {
    ghost use Rattle.dk_rows.specs.Equal.{rows_eq, rows_per};

    ghost eq = { rows_eq };

    ghost laws = { rows_per };

    fn eq(&self, other: &Rows) -> bool {
        self.is_same(other)
    }
}

/// Lends the i-th row.
fn row_at<'a>(values: &'a Values, ends: &[usize], i: usize) -> RowRef<'a>
    requires within { i < length ends.now }
    requires ends { AreEnds 0 values.now ends.now }
    ensures { slice_get (parts 0 values.now ends.now) i ≡ Some result }
{
    RowRef::new(values, start_at(ends, i), ends[i])
}

/// Adds the values of a row behind the others, and its end.
fn push_row(values: &mut Values, ends: &mut Vec<usize>, row: &[Value]) -> Result<(), OutOfMemory>
    requires { AreEnds 0 values.old ends.old.items }
    ensures ends { AreEnds 0 values.new ends.new.items }
    ensures ok { OnOk result (parts 0 values.new ends.new.items
        ≡ parts 0 values.old ends.old.items ++ row.now ∷ []) }
    ensures err { OnErr result (parts 0 values.new ends.new.items ≡ parts 0 values.old ends.old.items) }
{
    let before = values.len();
    push_values(values, row)?;
    end_row(values, ends, before)
}

/// Adds the values of a lent row behind the others, and its end.
fn push_lent(
    values: &mut Values,
    ends: &mut Vec<usize>,
    row: &RowRef<'_>,
) -> Result<(), OutOfMemory>
    requires { AreEnds 0 values.old ends.old.items }
    ensures ends { AreEnds 0 values.new ends.new.items }
    ensures ok { OnOk result (parts 0 values.new ends.new.items
        ≡ parts 0 values.old ends.old.items ++ row.now ∷ []) }
    ensures err { OnErr result (parts 0 values.new ends.new.items ≡ parts 0 values.old ends.old.items) }
{
    let before = values.len();
    push_cells(values, row)?;
    end_row(values, ends, before)
}

/// Adds values, or none of them.
#[tactic(auto, using(crate::proofs::RowLemmas::taken_back))]
fn push_values(values: &mut Values, row: &[Value]) -> Result<(), OutOfMemory>
    ensures ok { OnOk result (values.new ≡ values.old ++ row.now) }
    ensures err { OnErr result (values.new ≡ values.old) }
{
    let before = values.len();
    'cells: for value in row {
        if let Err(lack) = values.push(&Cell::of(value)) {
            values.truncate(before);
            return Err(lack);
        }
    }
    Ok(())
}

/// Adds the values of a lent row, or none of them.
#[tactic(auto, using(crate::proofs::RowLemmas::taken_back, crate::proofs::RowLemmas::put_next))]
fn push_cells(values: &mut Values, row: &RowRef<'_>) -> Result<(), OutOfMemory>
    ensures ok { OnOk result (values.new ≡ values.old ++ row.now) }
    ensures err { OnErr result (values.new ≡ values.old) }
{
    let before = values.len();
    'cells: for j in 0..row.len() {
        if let Err(lack) = values.push(&row.get(j)) {
            values.truncate(before);
            return Err(lack);
        }
    }
    Ok(())
}

/// Ends a row behind all values, or takes back those that came after `before`.
fn end_row(values: &mut Values, ends: &mut Vec<usize>, before: usize) -> Result<(), OutOfMemory>
    ensures same { OnOk result (values.new ≡ values.old) }
    ensures ended { OnOk result (ends.new.items ≡ ends.old.items ++ length values.old ∷ []) }
    ensures back { OnErr result (values.new ≡ take before values.old) }
    ensures err { OnErr result (ends.new.items ≡ ends.old.items) }
{
    match ends.push(values.len()) {
        Ok(()) => Ok(()),
        Err(_) => {
            values.truncate(before);
            Err(OutOfMemory)
        }
    }
}

/// Keeps the first n rows and their values.
fn truncate_rows(values: &mut Values, ends: &mut Vec<usize>, n: usize)
    requires { AreEnds 0 values.old ends.old.items }
    ensures rows { parts 0 values.new ends.new.items ≡ take n (parts 0 values.old ends.old.items) }
    ensures ends { AreEnds 0 values.new ends.new.items }
{
    if n < ends.len() {
        values.truncate(start_at(ends, n));
        ends.truncate(n);
    }
}
