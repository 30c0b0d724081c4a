//! Rows: one cell per column, each null or a plain value of the column's type.
ghost use Rattle.std.specs.Prelude.{◌≡◌, ◌≤◌, ◌*◌, ◌++◌, ◌∷◌, List, length, take, Ok, IfOk, OnOk, OnErr, vec_len};
ghost use Rattle.dk_values.specs.declared.value.Value.{Value};
ghost use Rattle.dk_bytes.specs.Fields.{Place};
ghost use Rattle.dk_bytes.specs.Reading.{Reads, Spells};
ghost use Rattle.dk_values.specs.declared.column.TheConstants.{MAX_COLUMNS};
ghost use Rattle.dk_bytes.specs.PlainValue.{IsPlain, plain_bytes};
ghost use Rattle.dk_bytes.specs.RowFields.{IsCell, cell_bytes, cell_at, present_at, IsRow, row_bytes, row_at};

use crate::cursor::Cursor;
use crate::field_error::FieldError;
use crate::plain_value::{plain_len, put_value, read_value};
use crate::put::{cut_if_failed, put_u8};
use dk_values::{ColType, Column, List, OutOfMemory, Row, Schema, Value};
use std::alloc::Global;

/// How many bytes the cell has.
pub fn cell_len(value: &Value, kind: ColType) -> usize
    requires { IsCell kind value.now }
    ensures length { result ≡ length (cell_bytes value.now) }
    ensures small { result ≤ 65538 }
{
    match value {
        Value::Null => 1,
        _ => 1 + plain_len(value, kind).unwrap_or(0),
    }
}

/// Appends a cell.
pub fn put_cell(out: &mut Vec<u8>, value: &Value, kind: ColType) -> Result<(), OutOfMemory>
    requires { IsCell kind value.now }
    ensures ok { OnOk result (out.new.items ≡ out.old.items ++ cell_bytes value.now) }
    ensures err { OnErr result (out.new.items ≡ out.old.items) }
{
    match value {
        Value::Null => put_u8(out, 0),
        _ => put_present(out, value, kind),
    }
}

/// Appends a cell that is not null.
fn put_present(out: &mut Vec<u8>, value: &Value, kind: ColType) -> Result<(), OutOfMemory>
    requires { IsPlain kind value.now }
    ensures ok { OnOk result (out.new.items ≡ out.old.items ++ 1 ∷ plain_bytes value.now) }
    ensures err { OnErr result (out.new.items ≡ out.old.items) }
{
    let start = out.len();
    put_u8(out, 1)?;
    let put = put_value(out, value, kind);
    cut_if_failed(out, start, put)
}

/// Reads a cell. Where it fails the cursor may stand behind fields that were read.
pub fn read_cell(alloc: Global, cursor: &mut Cursor, kind: ColType) -> Result<Value, FieldError>
    ensures found { IfOk result (λ value. Spells (IsCell kind) cell_bytes value cursor.old cursor.new) }
    ensures only { (value : Value) (behind : Place) → Spells (IsCell kind) cell_bytes value cursor.old behind
        → Reads (λ v. v) result cursor.new (Ok (value, behind)) }
    ensures place { Reads (λ value. value) result cursor.new (cell_at kind cursor.old) }
{
    // What is left are bytes, and so each number has one spelling.
    let _left = cursor.left();
    next_cell(alloc, cursor, kind)
}

#[tactic(auto, unfolding(crate::specs::RowFields::cell_at))]
fn next_cell(alloc: Global, cursor: &mut Cursor, kind: ColType) -> Result<Value, FieldError>
    ensures { Reads (λ value. value) result cursor.new (cell_at kind cursor.old) }
{
    let at = cursor.at();
    match cursor.u8()? {
        0 => Ok(Value::Null),
        1 => read_value(alloc, cursor, kind),
        _ => Err(FieldError::Malformed { at }),
    }
}

/// How many bytes a row has: one cell per column of the schema.
pub fn row_len(row: &[Value], schema: &Schema) -> usize
    requires { IsRow schema.now row.now }
    ensures { result ≡ length (row_bytes row.now) }
{
    cells_len(row, schema.as_slice())
}

fn cells_len(row: &[Value], columns: &[Column]) -> usize
    requires row { IsRow columns.now row.now }
    requires few { length columns.now ≤ MAX_COLUMNS }
    ensures { result ≡ length (row_bytes row.now) }
{
    let mut len = 0;
    let mut left = row;
    let mut kinds = columns;
    'columns: while let [column, others @ ..] = kinds {
        let [value, rest @ ..] = left else {
            unreachable!();
        };
        len += cell_len(value, column.kind);
        left = rest;
        kinds = others;
    }
    len
}

/// Appends a row. Room is taken once.
pub fn put_row(out: &mut Vec<u8>, row: &[Value], schema: &Schema) -> Result<(), OutOfMemory>
    requires { IsRow schema.now row.now }
    ensures ok { OnOk result (out.new.items ≡ out.old.items ++ row_bytes row.now) }
    ensures err { OnErr result (out.new.items ≡ out.old.items) }
{
    let start = out.len();
    out.reserve(row_len(row, schema))?;
    let put = put_cells(out, row, schema.as_slice());
    cut_if_failed(out, start, put)
}

/// Appends cells. Without memory some of them may have been appended.
fn put_cells(out: &mut Vec<u8>, row: &[Value], columns: &[Column]) -> Result<(), OutOfMemory>
    requires { IsRow columns.now row.now }
    ensures ok { OnOk result (out.new.items ≡ out.old.items ++ row_bytes row.now) }
    ensures kept { take (vec_len out.old) out.new.items ≡ out.old.items }
{
    let mut left = row;
    let mut kinds = columns;
    'columns: while let [column, others @ ..] = kinds {
        let [value, rest @ ..] = left else {
            unreachable!();
        };
        put_cell(out, value, column.kind)?;
        left = rest;
        kinds = others;
    }
    Ok(())
}

/// Reads a row. Where it fails the cursor may stand behind fields that were read.
pub fn read_row(alloc: Global, cursor: &mut Cursor, schema: &Schema) -> Result<Row, FieldError>
    ensures found { IfOk result (λ row. Spells (IsRow schema.now) row_bytes row cursor.old cursor.new) }
    ensures only { (row : List Value) (behind : Place)
        → Spells (IsRow schema.now) row_bytes row cursor.old behind
        → Reads (λ r. r) result cursor.new (Ok (row, behind)) }
    ensures place { Reads (λ row. row) result cursor.new (row_at schema.now cursor.old) }
{
    // What is left are bytes, and so each number has one spelling.
    let _left = cursor.left();
    read_cells(alloc, cursor, schema.as_slice())
}

fn read_cells(alloc: Global, cursor: &mut Cursor, columns: &[Column]) -> Result<Row, FieldError>
    ensures { Reads (λ row. row) result cursor.new (row_at columns.now cursor.old) }
{
    let mut row = Vec::with_capacity(alloc, columns.len())?;
    let mut kinds = columns;
    'columns: while let [column, others @ ..] = kinds {
        let value = read_cell(alloc, cursor, column.kind)?;
        row.push(value)?;
        kinds = others;
    }
    Ok(List::from_vec(row))
}
