//! Many rows that may be missing, by column.
ghost use Rattle.std.specs.Prelude.{◌≡◌, ◌≢◌, ◌<◌, ◌↔◌, [], Some, None, length, map, is_some, slice_get, IsTrue, IfSome, IfOk, OnOk, OnErr};
ghost use Rattle.std.specs.List.{All};
ghost use Rattle.dk_rows.specs.Cells.{value_of};
ghost use Rattle.dk_columns.specs.Options.{option_if};
ghost use Rattle.dk_columns.specs.OptionTables.{with_row, with_rows, with_row_set, with_rows_front, with_row_put, with_cell_put, rows_from, kinds_of, table_of, empty_column, FitsKinds, FitsIfThere, IsKindAt, IsFrontPut, IsKeptOrMissing, IsNext, AreLong, SameFront};

use crate::cells::is_same_kind;
use crate::lend_row::{LendRow, Nulls};
use crate::mask::Mask;
use crate::option_row::OptionRow;
use crate::shared_cells::SharedCells;
use dk_rows::Cell;
use dk_values::{ColType, List, OutOfMemory, Row, TryCopy};
use std::alloc::Global;
use std::marker::Model;

/// Rows that may be missing, seen as a record of the types of their columns and the list of the rows.
///
/// A column can be shared with others and is copied before it changes. A column may be longer than the rows: what is
/// behind the last row isn't seen. A row that is missing has nulls in its columns, which contracts don't see.
#[derive(Debug, Drop)]
pub struct OptionRows {
    alloc: Global,
    columns: Vec<SharedCells>,
    present: Mask,
}

impl Model for OptionRows {
    ghost use Rattle.std.specs.Prelude.{length};
    ghost use Rattle.dk_columns.specs.OptionTables.{OptionTable, table_of, AreLong};

    ghost Value = { OptionTable };

    ghost view = { λ rows. table_of rows.present rows.columns.items };

    ghost invariant = { λ rows. AreLong (length rows.present) rows.columns.items };
}

impl OptionRows {
    /// No rows, with columns of these types.
    pub fn new(alloc: Global, kinds: &[ColType]) -> Result<OptionRows, OutOfMemory>
        ensures { IfOk result (λ made. made ≡ record { kinds = kinds.now; rows = [] }) }
    {
        let columns = empty_columns(alloc, kinds)?;
        Ok(OptionRows {
            alloc,
            columns,
            present: Mask::new(alloc),
        })
    }

    /// How many rows there are, with those that are missing.
    pub fn len(&self) -> usize
        ensures { result ≡ length self.now.rows }
    {
        self.present.len()
    }

    /// How many columns there are.
    pub fn width(&self) -> usize
        ensures { result ≡ length self.now.kinds }
    {
        self.columns.len()
    }

    /// Lends the flags of the rows that are there.
    pub fn present(&self) -> &Mask
        ensures { result.now ≡ map is_some self.now.rows }
    {
        &self.present
    }

    /// Whether the i-th row is there.
    pub fn is_there(&self, i: usize) -> bool
        requires { i < length self.now.rows }
        ensures { slice_get (map is_some self.now.rows) i ≡ Some result }
    {
        self.present.get(i)
    }

    /// Lends the i-th row, counted from 0, if it is there.
    pub fn get(&self, i: usize) -> Option<OptionRow<'_>>
        requires { i < length self.now.rows }
        ensures row { slice_get self.now.rows i ≡ Some result }
        ensures fits { IfSome result (λ row. FitsKinds self.now.kinds row) }
    {
        row_if(&self.columns, &self.present, i)
    }

    /// Adds a row that is there.
    pub fn push<R: LendRow>(&mut self, row: &R) -> Result<(), OutOfMemory>
        requires { FitsKinds self.old.kinds (R.values row.now) }
        ensures ok { OnOk result (self.new ≡ with_row (Some (R.values row.now)) self.old) }
        ensures err { OnErr result (self.new ≡ self.old) }
    {
        push_row(&mut self.columns, &mut self.present, row, true)
    }

    /// Adds a row that is missing.
    pub fn push_missing(&mut self) -> Result<(), OutOfMemory>
        ensures ok { OnOk result (self.new ≡ with_row None self.old) }
        ensures err { OnErr result (self.new ≡ self.old) }
    {
        let nulls = Nulls {
            width: self.columns.len(),
        };
        push_row(&mut self.columns, &mut self.present, &nulls, false)
    }

    /// Puts a row in the place of the i-th. Without memory the i-th may be missing then. A column of texts takes time
    /// linear in the texts.
    pub fn set<R: LendRow>(&mut self, i: usize, row: &R) -> Result<(), OutOfMemory>
        requires within { i < length self.old.rows }
        requires fits { FitsKinds self.old.kinds (R.values row.now) }
        ensures ok { OnOk result (self.new ≡ with_row_set i (Some (R.values row.now)) self.old) }
        ensures err { OnErr result (IsKeptOrMissing i self.old self.new) }
    {
        set_row(&mut self.columns, &mut self.present, i, row, true)
    }

    /// Lets the i-th row be missing. Without memory it may be missing then.
    pub fn set_missing(&mut self, i: usize) -> Result<(), OutOfMemory>
        requires { i < length self.old.rows }
        ensures ok { OnOk result (self.new ≡ with_row_set i None self.old) }
        ensures err { OnErr result (IsKeptOrMissing i self.old self.new) }
    {
        let nulls = Nulls {
            width: self.columns.len(),
        };
        set_row(&mut self.columns, &mut self.present, i, &nulls, false)
    }

    /// Keeps the first n rows. A column that others hold stays longer where there is no memory for a copy.
    pub fn truncate(&mut self, n: usize)
        ensures { self.new ≡ with_rows_front n self.old }
    {
        if n < self.present.len() {
            self.present.truncate(n);
            cut_columns(&mut self.columns, n);
        }
    }

    /// Adds copies of the rows of others whose columns have the same types.
    pub fn append(&mut self, more: &OptionRows) -> Result<(), OutOfMemory>
        requires { self.old.kinds ≡ more.now.kinds }
        ensures ok { OnOk result (self.new ≡ with_rows more.now.rows self.old) }
        ensures err { OnErr result (self.new ≡ self.old) }
    {
        let before = self.len();
        'rows: for i in 0..more.len() {
            if let Err(lack) = push_lent(self, more, i) {
                self.truncate(before);
                return Err(lack);
            }
        }
        Ok(())
    }

    /// The rows of a list, with columns of these types.
    pub fn from_list(
        alloc: Global,
        kinds: &[ColType],
        rows: &List<Option<Row>>,
    ) -> Result<OptionRows, OutOfMemory>
        requires { All (FitsIfThere kinds.now) rows.now }
        ensures { IfOk result (λ made. made ≡ record { kinds = kinds.now; rows = rows.now }) }
    {
        let mut made = OptionRows::new(alloc, kinds)?;
        'rows: for i in 0..rows.len() {
            push_if_there(&mut made, rows.get(i))?;
        }
        Ok(made)
    }

    /// The rows as a list, with an allocation for each that is there.
    pub fn to_list(&self, alloc: Global) -> Result<List<Option<Row>>, OutOfMemory>
        ensures { IfOk result (λ rows. rows ≡ self.now.rows) }
    {
        let mut rows = List::new(alloc);
        'rows: for i in 0..self.len() {
            rows.push(own_row(alloc, self.get(i))?)?;
        }
        Ok(rows)
    }

    /// Whether the same rows are there and missing, in columns of the same types.
    pub fn is_same(&self, other: &OptionRows) -> bool
        ensures { IsTrue result ↔ (self.now ≡ other.now) }
    {
        have_same_kinds(&self.columns, &other.columns) && self.has_same_rows(other)
    }

    /// Whether the same rows are there and missing.
    fn has_same_rows(&self, other: &OptionRows) -> bool
        ensures { IsTrue result ↔ (self.now.rows ≡ other.now.rows) }
    {
        if self.len() != other.len() {
            return false;
        }
        'rows: for i in 0..other.len() {
            if !is_same_row(&self.get(i), &other.get(i)) {
                return false;
            }
        }
        true
    }
}

impl PartialEq for OptionRows {
    ghost use Rattle.dk_columns.specs.Equal.{table_eq, table_per};

    ghost eq = { table_eq };

    ghost laws = { table_per };

    fn eq(&self, other: &OptionRows) -> bool {
        self.is_same(other)
    }
}

impl TryCopy for OptionRows {
    /// The copy shares the columns until one of the two changes.
    fn copy(&self) -> Result<OptionRows, OutOfMemory> {
        let columns = share_columns(self.alloc, &self.columns)?;
        let present = self.present.copy()?;
        Ok(OptionRows {
            alloc: self.alloc,
            columns,
            present,
        })
    }
}

/// Columns of these types without values.
fn empty_columns(alloc: Global, kinds: &[ColType]) -> Result<Vec<SharedCells>, OutOfMemory>
    ensures { IfOk result (λ columns. columns.items ≡ map empty_column kinds.now) }
{
    let mut columns = Vec::new(alloc);
    'kinds: for j in 0..kinds.len() {
        columns.push(SharedCells::new(alloc, kind_in(kinds, j))?)?;
    }
    Ok(columns)
}

/// The j-th type.
fn kind_in(kinds: &[ColType], j: usize) -> ColType
    requires { j < length kinds.now }
    ensures { slice_get kinds.now j ≡ Some result }
{
    kinds[j]
}

/// Other holders of the columns.
fn share_columns(alloc: Global, columns: &[SharedCells]) -> Result<Vec<SharedCells>, OutOfMemory>
    ensures { IfOk result (λ shared. shared.items ≡ columns.now) }
{
    let mut shared = Vec::new(alloc);
    'columns: for column in columns {
        shared.push(column.share()?)?;
    }
    Ok(shared)
}

/// Lends the i-th row, if it is there.
fn row_if<'a>(columns: &'a [SharedCells], present: &Mask, i: usize) -> Option<OptionRow<'a>>
    requires within { i < length present.now }
    requires long { AreLong (length present.now) columns.now }
    ensures row { slice_get (rows_from 0 present.now columns.now) i ≡ Some result }
    ensures fits { IfSome result (λ row. FitsKinds (kinds_of columns.now) row) }
{
    if present.get(i) {
        Some(OptionRow::new(columns, i))
    } else {
        None
    }
}

/// Puts the values of a row in a place of each column, or behind its values: without memory in the first ones.
fn put_row<R: LendRow>(columns: &mut Vec<SharedCells>, i: usize, row: &R) -> Result<(), OutOfMemory>
    requires long { AreLong i columns.old.items }
    requires fits { FitsKinds (kinds_of columns.old.items) (R.values row.now) }
    ensures ok { OnOk result (columns.new.items ≡ with_row_put i (R.values row.now) columns.old.items) }
    ensures err { OnErr result (IsFrontPut i (R.values row.now) columns.old.items columns.new.items) }
{
    'columns: for j in 0..columns.len() {
        put_cell(columns, j, i, &row.cell(j))?;
    }
    Ok(())
}

/// Puts a value in a place of the j-th column, or behind its values.
fn put_cell(
    columns: &mut Vec<SharedCells>,
    j: usize,
    i: usize,
    cell: &Cell<'_>,
) -> Result<(), OutOfMemory>
    requires column { j < length columns.old.items }
    requires long { AreLong i columns.old.items }
    requires kind { IsKindAt j (kinds_of columns.old.items) (value_of cell.now) }
    ensures ok { OnOk result (columns.new.items ≡ with_cell_put j i (value_of cell.now) columns.old.items) }
    ensures err { OnErr result (columns.new.items ≡ columns.old.items) }
{
    columns[j].put(i, cell)
}

/// Adds a row, and whether it is there, or neither.
fn push_row<R: LendRow>(
    columns: &mut Vec<SharedCells>,
    present: &mut Mask,
    row: &R,
    there: bool,
) -> Result<(), OutOfMemory>
    requires long { AreLong (length present.old) columns.old.items }
    requires fits { FitsKinds (kinds_of columns.old.items) (R.values row.now) }
    ensures long { AreLong (length present.new) columns.new.items }
    ensures ok { OnOk result (table_of present.new columns.new.items
        ≡ with_row (option_if there (R.values row.now)) (table_of present.old columns.old.items)) }
    ensures err { OnErr result (table_of present.new columns.new.items
        ≡ table_of present.old columns.old.items) }
{
    put_row(columns, present.len(), row)?;
    present.push(there)
}

/// Puts a row in the place of the i-th, and whether it is there. It is missing while its values change.
fn set_row<R: LendRow>(
    columns: &mut Vec<SharedCells>,
    present: &mut Mask,
    i: usize,
    row: &R,
    there: bool,
) -> Result<(), OutOfMemory>
    requires within { i < length present.old }
    requires long { AreLong (length present.old) columns.old.items }
    requires fits { FitsKinds (kinds_of columns.old.items) (R.values row.now) }
    ensures long { AreLong (length present.new) columns.new.items }
    ensures ok { OnOk result (table_of present.new columns.new.items
        ≡ with_row_set i (option_if there (R.values row.now)) (table_of present.old columns.old.items)) }
    ensures err { OnErr result (IsKeptOrMissing i (table_of present.old columns.old.items)
        (table_of present.new columns.new.items)) }
{
    present.set(i, false)?;
    put_row(columns, i, row)?;
    present.set(i, there)
}

/// Keeps the first n values of each column, or more.
fn cut_columns(columns: &mut Vec<SharedCells>, n: usize)
    requires { AreLong n columns.old.items }
    ensures { SameFront n columns.old.items columns.new.items }
{
    'columns: for j in 0..columns.len() {
        columns[j].cut(n);
    }
}

/// Adds a copy of the i-th row of others.
fn push_lent(rows: &mut OptionRows, more: &OptionRows, i: usize) -> Result<(), OutOfMemory>
    requires kinds { rows.old.kinds ≡ more.now.kinds }
    requires within { i < length more.now.rows }
    ensures ok { OnOk result (IsNext i more.now.rows rows.old rows.new) }
    ensures err { OnErr result (rows.new ≡ rows.old) }
{
    match more.get(i) {
        None => rows.push_missing(),
        Some(row) => rows.push(&row),
    }
}

/// Adds a row, or one that is missing.
fn push_if_there(rows: &mut OptionRows, row: &Option<Row>) -> Result<(), OutOfMemory>
    requires { FitsIfThere rows.old.kinds row.now }
    ensures ok { OnOk result (rows.new ≡ with_row row.now rows.old) }
    ensures err { OnErr result (rows.new ≡ rows.old) }
{
    match row {
        None => rows.push_missing(),
        Some(row) => rows.push(row),
    }
}

/// A row of its own, if it is there.
fn own_row(alloc: Global, row: Option<OptionRow<'_>>) -> Result<Option<Row>, OutOfMemory>
    ensures { IfOk result (λ own. own ≡ row.entry) }
{
    match row {
        None => Ok(None),
        Some(row) => Ok(Some(row.to_row(alloc)?)),
    }
}

/// Whether both rows are missing, or both are there and the same.
fn is_same_row(row: &Option<OptionRow<'_>>, other: &Option<OptionRow<'_>>) -> bool
    ensures { IsTrue result ↔ (row.now ≡ other.now) }
{
    match (row, other) {
        (None, None) => true,
        (Some(row), Some(other)) => row.is_same(other),
        _ => false,
    }
}

/// Whether the columns have the same types.
fn have_same_kinds(columns: &[SharedCells], others: &[SharedCells]) -> bool
    ensures { IsTrue result ↔ (kinds_of columns.now ≡ kinds_of others.now) }
{
    if columns.len() != others.len() {
        return false;
    }
    'columns: for j in 0..others.len() {
        if !is_same_kind(kind_at(columns, j), kind_at(others, j)) {
            return false;
        }
    }
    true
}

/// The type of the j-th column.
fn kind_at(columns: &[SharedCells], j: usize) -> ColType
    requires { j < length columns.now }
    ensures { slice_get (kinds_of columns.now) j ≡ Some result }
{
    columns[j].cells().kind()
}
