//! A column that many may hold.
ghost use Rattle.std.specs.Prelude.{◌≡◌, ◌<◌, ◌≤◌, [], length, OnOk, OnErr, IfOk};
ghost use Rattle.dk_rows.specs.Cells.{value_of};
ghost use Rattle.dk_columns.specs.Columns.{IsOfKind, with_value, with_values, with_set, with_front};
ghost use Rattle.dk_columns.specs.OptionTables.{with_put, IsCut};

use crate::cells::Cells;
use dk_rows::Cell;
use dk_values::{ColType, OutOfMemory, TryCopy};
use std::alloc::Global;
use std::marker::Model;
use std::sync::Arc;

/// A column that many may hold, seen as the column. A change is made in place where nobody else holds it, and
/// otherwise in a copy: the other holders keep what they have.
#[derive(Debug, Drop)]
pub struct SharedCells {
    alloc: Global,
    cells: Arc<Cells, Global>,
}

impl Model for SharedCells {
    ghost use Rattle.std.specs.Arc.{arc_value};
    ghost use Rattle.dk_columns.specs.Columns.{Column};

    ghost Value = { Column };

    ghost view = { λ shared. arc_value shared.cells };
}

impl SharedCells {
    /// No values of that type.
    pub fn new(alloc: Global, kind: ColType) -> Result<SharedCells, OutOfMemory>
        ensures { IfOk result (λ made. made ≡ record { kind = kind; values = [] }) }
    {
        SharedCells::of(alloc, Cells::new(alloc, kind))
    }

    /// A column that nobody else holds yet.
    pub fn of(alloc: Global, cells: Cells) -> Result<SharedCells, OutOfMemory>
        ensures { IfOk result (λ made. made ≡ cells) }
    {
        match Arc::new(alloc, cells) {
            Ok(cells) => Ok(SharedCells { alloc, cells }),
            Err(_) => Err(OutOfMemory),
        }
    }

    /// Another holder of the column. No value is copied.
    pub fn share(&self) -> Result<SharedCells, OutOfMemory>
        ensures { IfOk result (λ shared. shared ≡ self.now) }
    {
        Ok(SharedCells {
            alloc: self.alloc,
            cells: Arc::try_clone(&self.cells)?,
        })
    }

    /// Lends the column.
    pub fn cells(&self) -> &Cells
        ensures { result.now ≡ self.now }
    {
        &self.cells
    }

    /// Adds a value at the end.
    pub fn push(&mut self, cell: &Cell<'_>) -> Result<(), OutOfMemory>
        requires { IsOfKind self.old.kind (value_of cell.now) }
        ensures ok { OnOk result (self.new ≡ with_value (value_of cell.now) self.old) }
        ensures err { OnErr result (self.new ≡ self.old) }
    {
        match Arc::get_mut(&mut self.cells) {
            Some(cells) => cells.push(cell),
            None => {
                let mut copied = self.cells.copy()?;
                copied.push(cell)?;
                self.replace(copied)
            }
        }
    }

    /// Puts a value in the place of the i-th. A text takes time linear in the texts.
    pub fn set(&mut self, i: usize, cell: &Cell<'_>) -> Result<(), OutOfMemory>
        requires within { i < length self.old.values }
        requires kind { IsOfKind self.old.kind (value_of cell.now) }
        ensures ok { OnOk result (self.new ≡ with_set i (value_of cell.now) self.old) }
        ensures err { OnErr result (self.new ≡ self.old) }
    {
        match Arc::get_mut(&mut self.cells) {
            Some(cells) => cells.set(i, cell),
            None => {
                let mut copied = self.cells.copy()?;
                copied.set(i, cell)?;
                self.replace(copied)
            }
        }
    }

    /// Puts a value in the place of the i-th, or behind all values.
    pub(crate) fn put(&mut self, i: usize, cell: &Cell<'_>) -> Result<(), OutOfMemory>
        requires within { i ≤ length self.old.values }
        requires kind { IsOfKind self.old.kind (value_of cell.now) }
        ensures ok { OnOk result (self.new ≡ with_put i (value_of cell.now) self.old) }
        ensures err { OnErr result (self.new ≡ self.old) }
    {
        if i < self.cells().len() {
            self.set(i, cell)
        } else {
            self.push(cell)
        }
    }

    /// Adds copies of the values of another column of the same type at the end.
    pub fn append(&mut self, more: &Cells) -> Result<(), OutOfMemory>
        requires { self.old.kind ≡ more.now.kind }
        ensures ok { OnOk result (self.new ≡ with_values more.now.values self.old) }
        ensures err { OnErr result (self.new ≡ self.old) }
    {
        match Arc::get_mut(&mut self.cells) {
            Some(cells) => cells.append(more),
            None => {
                let mut copied = self.cells.copy()?;
                copied.append(more)?;
                self.replace(copied)
            }
        }
    }

    /// Keeps the first n values.
    pub fn truncate(&mut self, n: usize) -> Result<(), OutOfMemory>
        ensures ok { OnOk result (self.new ≡ with_front n self.old) }
        ensures err { OnErr result (self.new ≡ self.old) }
    {
        match Arc::get_mut(&mut self.cells) {
            Some(cells) => {
                cells.truncate(n);
                Ok(())
            }
            None => {
                let mut copied = self.cells.copy()?;
                copied.truncate(n);
                self.replace(copied)
            }
        }
    }

    /// Keeps the first n values. A column that others hold stays as it is where there is no memory for a copy.
    pub(crate) fn cut(&mut self, n: usize)
        ensures { IsCut n self.old self.new }
    {
        match self.truncate(n) {
            Ok(()) | Err(_) => {}
        }
    }

    /// Lets go of the column and holds another one.
    fn replace(&mut self, cells: Cells) -> Result<(), OutOfMemory>
        ensures ok { OnOk result (self.new ≡ cells) }
        ensures err { OnErr result (self.new ≡ self.old) }
    {
        match Arc::new(self.alloc, cells) {
            Ok(cells) => {
                self.cells = cells;
                Ok(())
            }
            Err(_) => Err(OutOfMemory),
        }
    }
}

impl TryCopy for SharedCells {
    fn copy(&self) -> Result<SharedCells, OutOfMemory> {
        self.share()
    }
}
