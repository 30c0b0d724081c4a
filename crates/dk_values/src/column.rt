//! The columns of a table: their names, their types, and which columns are a schema.
ghost use Rattle.std.specs.Prelude.{◌≡◌, ◌<◌, Some, None, length, map, slice_get, MatchResult, IfOk};
ghost use Rattle.dk_values.specs.Names.{is_name};
ghost use Rattle.dk_values.specs.Columns.{first_no_name, is_among, first_repeat};

use crate::list::{List, OutOfMemory, TryCopy};
use crate::value::{Bytes, ColType};
use std::marker::Model;
use thiserror::Error;

/// How many columns a table may have.
pub const MAX_COLUMNS: usize = 64;

/// How many bytes a name may have.
pub const MAX_NAME: usize = 63;

/// Whether the bytes have the length of a name.
pub fn is_name(name: &[u8]) -> bool
    ensures { result ≡ is_name name.now }
{
    !name.is_empty() && name.len() <= MAX_NAME
}

/// A column's name, of 1 to 63 bytes, and its type.
#[derive(Debug, Drop, PartialEq)]
pub struct Column {
    pub name: Bytes,
    pub kind: ColType,
}

pub type Columns = List<Column>;

impl TryCopy for Column {
    fn copy(&self) -> Result<Column, OutOfMemory> {
        Ok(Column {
            name: self.name.copy()?,
            kind: self.kind,
        })
    }
}

/// Why columns are no schema.
#[derive(Clone, Copy, Debug, PartialEq, Eq, Error)]
pub enum SchemaError {
    #[error("a table needs a column")]
    NoColumns,
    #[error("{count} columns are more than 64")]
    TooManyColumns { count: u64 },
    #[error("the name of column {place} has no or more than 63 bytes")]
    NameTooLong { place: u64 },
    #[error("the name of column {place} stands earlier")]
    SameName { place: u64 },
}

/// The columns of a table: 1 to 64, each with a name of 1 to 63 bytes, all of them different.
#[derive(Debug, Drop)]
pub struct Schema {
    columns: Columns,
}

impl Model for Schema {
    ghost use Rattle.std.specs.Prelude.{List};
    ghost use Rattle.std.specs.Coded.{coded_list};
    ghost use Rattle.dk_values.specs.declared.column.Column.{Column};
    ghost use Rattle.dk_values.specs.Columns.{IsSchema};

    ghost Value = { List Column };

    ghost view = { λ schema. schema.columns };

    ghost invariant = { λ schema. IsSchema schema.columns };
}

impl Schema {
    ghost use Rattle.dk_values.specs.Columns.{schema_fault, IsSchema};

    /// Takes columns as a schema. The refusals are tried in the order of their variants, and a place counts
    /// columns from 0.
    pub fn new(columns: Vec<Column>) -> Result<Schema, SchemaError>
        ensures { MatchResult result
            (λ schema. (schema_fault columns.items ≡ None) × (schema ≡ columns.items))
            (λ fault. schema_fault columns.items ≡ Some fault) }
    {
        let count = columns.len();
        if count == 0 {
            return Err(SchemaError::NoColumns);
        }
        if count > MAX_COLUMNS {
            let count = count as u64;
            return Err(SchemaError::TooManyColumns { count });
        }
        if let Some(place) = first_no_name(&columns) {
            let place = place as u64;
            return Err(SchemaError::NameTooLong { place });
        }
        if let Some(place) = first_repeat(&columns) {
            let place = place as u64;
            return Err(SchemaError::SameName { place });
        }
        Ok(Schema {
            columns: List::from_vec(columns),
        })
    }

    pub fn as_slice(&self) -> &[Column]
        ensures columns { result.now ≡ self.now }
        ensures lawful { IsSchema self.now }
    {
        let _ = &self.columns;
        self.columns.as_slice()
    }

    pub fn len(&self) -> usize
        ensures { result ≡ length self.now }
    {
        self.columns.len()
    }

    /// Lends the i-th column, counted from 0.
    pub fn get(&self, i: usize) -> &Column
        requires { i < length self.now }
        ensures { slice_get self.now i ≡ Some result.now }
    {
        self.columns.get(i)
    }
}

impl TryCopy for Schema {
    fn copy(&self) -> Result<Schema, OutOfMemory> {
        Ok(Schema {
            columns: self.columns.copy()?,
        })
    }
}

impl PartialEq for Schema {
    ghost use Rattle.std.specs.Cmp.Lexicographic.{lists_per};
    ghost use Rattle.dk_values.specs.contracts.column.ColumnPartialEq.TheImpl.Laws.{laws-law};

    ghost eq = { λ x y. ⟦<Columns as PartialEq>⟧.eq x y };

    ghost laws = { lists_per laws-law };

    fn eq(&self, other: &Schema) -> bool {
        self.columns == other.columns
    }
}

/// The place of the first column whose name has no or too many bytes.
fn first_no_name(columns: &[Column]) -> Option<usize>
    ensures { result ≡ first_no_name columns.now }
{
    columns
        .iter()
        .position(|column| !is_name(column.name.as_slice()))
}

/// Whether a column of that name stands among these.
fn is_among(columns: &[Column], name: &[u8]) -> bool
    ensures { result ≡ is_among columns.now name.now }
{
    columns.iter().any(|column| column.name.as_slice() == name)
}

/// The place of the first column whose name stands earlier. There are few columns, so each is compared with each.
fn first_repeat(columns: &[Column]) -> Option<usize>
    ensures { result ≡ first_repeat columns.now }
{
    for (i, column) in columns.iter().enumerate() {
        if is_among(&columns[..i], column.name.as_slice()) {
            return Some(i);
        }
    }
    None
}
