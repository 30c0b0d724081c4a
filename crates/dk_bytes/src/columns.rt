//! The columns of a table: their number, and the type and the name of each.
ghost use Rattle.std.specs.Prelude.{◌≡◌, ◌≤◌, ◌<◌, ◌*◌, ◌+◌, ◌++◌, [], List, length, take, Ok, IfOk, OnOk, OnErr, IsOk, vec_len};
ghost use Rattle.std.specs.List.{AllByRecursion};
ghost use Rattle.dk_values.specs.Columns.{is_among, IsSchema};
ghost use Rattle.dk_values.specs.declared.column.Column.{Column};
ghost use Rattle.dk_values.specs.declared.column.TheConstants.{MAX_COLUMNS};
ghost use Rattle.dk_bytes.specs.Fields.{Place};
ghost use Rattle.dk_bytes.specs.Reading.{Reads, Spells, list_at};
ghost use Rattle.dk_bytes.specs.ColumnFields.{IsColumn, column_bytes, each_column, columns_bytes, column_at, columns_at};

use crate::column_type::{put_type, read_type};
use crate::cursor::Cursor;
use crate::field_error::FieldError;
use crate::name::{name_len, put_name, read_name};
use crate::put::{cut_if_failed, put_u16};
use dk_values::{Column, MAX_COLUMNS, OutOfMemory, Schema};
use std::alloc::Global;

/// How many bytes the columns of a table have, with their number.
pub fn columns_len(schema: &Schema) -> usize
    ensures { result ≡ length (columns_bytes schema.now) }
{
    2 + each_len(schema.as_slice())
}

/// How many bytes the columns have.
fn each_len(columns: &[Column]) -> usize
    requires few { length columns.now ≤ MAX_COLUMNS }
    requires names { AllByRecursion IsColumn columns.now }
    ensures length { result ≡ length (each_column columns.now) }
    ensures small { result ≤ 65 * length columns.now }
{
    let mut len = 0;
    let mut left = columns;
    'columns: while let [column, rest @ ..] = left {
        len += 1 + name_len(column.name.as_slice());
        left = rest;
    }
    len
}

/// Appends the columns of a table. Room is taken once.
pub fn put_columns(out: &mut Vec<u8>, schema: &Schema) -> Result<(), OutOfMemory>
    ensures ok { OnOk result (out.new.items ≡ out.old.items ++ columns_bytes schema.now) }
    ensures err { OnErr result (out.new.items ≡ out.old.items) }
{
    let start = out.len();
    out.reserve(columns_len(schema))?;
    let put = put_body(out, schema.as_slice());
    cut_if_failed(out, start, put)
}

/// Appends the number of columns and the columns. Without memory a part may have been appended.
fn put_body(out: &mut Vec<u8>, columns: &[Column]) -> Result<(), OutOfMemory>
    requires few { length columns.now ≤ MAX_COLUMNS }
    requires names { AllByRecursion IsColumn columns.now }
    ensures ok { OnOk result (out.new.items ≡ out.old.items ++ columns_bytes columns.now) }
    ensures kept { take (vec_len out.old) out.new.items ≡ out.old.items }
{
    put_u16(out, columns.len() as u16)?;
    put_each(out, columns)
}

/// Appends a column.
fn put_column(out: &mut Vec<u8>, column: &Column) -> Result<(), OutOfMemory>
    requires { IsColumn column.now }
    ensures ok { OnOk result (out.new.items ≡ out.old.items ++ column_bytes column.now) }
    ensures err { OnErr result (out.new.items ≡ out.old.items) }
{
    let start = out.len();
    put_type(out, column.kind)?;
    let put = put_name(out, column.name.as_slice());
    cut_if_failed(out, start, put)
}

/// Appends columns. Without memory some of them may have been appended.
fn put_each(out: &mut Vec<u8>, columns: &[Column]) -> Result<(), OutOfMemory>
    requires { AllByRecursion IsColumn columns.now }
    ensures ok { OnOk result (out.new.items ≡ out.old.items ++ each_column columns.now) }
    ensures kept { take (vec_len out.old) out.new.items ≡ out.old.items }
{
    let mut left = columns;
    'columns: while let [column, rest @ ..] = left {
        put_column(out, column)?;
        left = rest;
    }
    Ok(())
}

/// Reads the columns of a table. Where it fails the cursor may stand behind fields that were read.
pub fn read_columns(alloc: Global, cursor: &mut Cursor) -> Result<Schema, FieldError>
    ensures found { IfOk result (λ columns. Spells IsSchema columns_bytes columns cursor.old cursor.new) }
    ensures only { (columns : List Column) (behind : Place)
        → Spells IsSchema columns_bytes columns cursor.old behind
        → Reads (λ c. c) result cursor.new (Ok (columns, behind)) }
    ensures place { Reads (λ columns. columns) result cursor.new (columns_at cursor.old) }
{
    // What is left are bytes, and so each number has one spelling.
    let _left = cursor.left();
    next_schema(alloc, cursor)
}

fn next_schema(alloc: Global, cursor: &mut Cursor) -> Result<Schema, FieldError>
    ensures { Reads (λ columns. columns) result cursor.new (columns_at cursor.old) }
{
    // What is left are bytes, and so the columns that are read are a schema.
    let _left = cursor.left();
    let columns = read_list(alloc, cursor)?;
    Ok(schema_of(columns))
}

/// The schema of columns that are one.
fn schema_of(columns: Vec<Column>) -> Schema
    requires { IsSchema columns.items }
    ensures { result ≡ columns.items }
{
    match Schema::new(columns) {
        Ok(schema) => schema,
        Err(_) => unreachable!(),
    }
}

/// Whether a column of that name stands among these.
fn is_among(columns: &[Column], name: &[u8]) -> bool
    ensures { result ≡ is_among columns.now name.now }
{
    columns.iter().any(|column| column.name.as_slice() == name)
}

/// The column that stands next, behind these.
#[tactic(auto, unfolding(crate::specs::ColumnFields::column_at))]
fn read_column(alloc: Global, cursor: &mut Cursor, earlier: &[Column]) -> Result<Column, FieldError>
    ensures { Reads (λ column. column) result cursor.new (column_at earlier.now cursor.old) }
{
    let kind = read_type(cursor)?;
    let at = cursor.at();
    let name = read_name(alloc, cursor)?;
    if is_among(earlier, name.as_slice()) {
        return Err(FieldError::Malformed { at });
    }
    Ok(Column { name, kind })
}

/// So many columns.
fn read_each(alloc: Global, cursor: &mut Cursor, count: usize) -> Result<Vec<Column>, FieldError>
    ensures { Reads (λ columns. columns.items) result cursor.new (list_at column_at count [] cursor.old) }
{
    let mut columns = Vec::with_capacity(alloc, count)?;
    'columns: for _ in 0..count {
        let column = read_column(alloc, cursor, columns.as_slice())?;
        columns.push(column)?;
    }
    Ok(columns)
}

/// The number of columns and the columns.
#[tactic(auto, unfolding(crate::specs::ColumnFields::columns_at))]
fn read_list(alloc: Global, cursor: &mut Cursor) -> Result<Vec<Column>, FieldError>
    ensures { Reads (λ columns. columns.items) result cursor.new (columns_at cursor.old) }
{
    let at = cursor.at();
    let count = cursor.u16()?;
    if count == 0 || count as usize > MAX_COLUMNS {
        return Err(FieldError::Malformed { at });
    }
    read_each(alloc, cursor, count as usize)
}
