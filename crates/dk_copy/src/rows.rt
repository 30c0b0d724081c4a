//! The rows of the data.
ghost use Rattle.std.specs.Prelude.{◌≡◌, ◌≤◌, [], Ok, length, IfOk};
ghost use Rattle.csv.specs.Records.{fields_of};
ghost use Rattle.dk_copy.specs.Copied.{behind, values_from, row_of, with_row, rows_from, copied_rows, Gives, outcome};

use crate::fault::{CopyError, FieldPlace};
use crate::fields::field_cell;
use crate::records::{behind_mark, field_at, reader_of, take_record};
use csv::ByteRecord;
use dk_rows::values::Values;
use dk_rows::{RowRef, Rows};
use dk_values::{Column, OutOfMemory, Schema};
use std::alloc::Global;

/// Adds the values of a record's fields, or gives the place of the first field that has none.
fn put_values(
    values: &mut Values,
    columns: &[Column],
    fields: &ByteRecord,
) -> Result<Option<u32>, OutOfMemory>
    requires few { length columns.now ≤ 64 }
    requires one_each { length columns.now ≡ length (fields_of fields.now) }
    ensures { IfOk result (λ field. outcome values.new field
        ≡ behind values.old (values_from 0 columns.now (fields_of fields.now))) }
{
    'columns: for (place, column) in columns.iter().enumerate() {
        match field_cell(column.kind, field_at(fields, place)) {
            Some(cell) => values.push(&cell)?,
            None => return Ok(Some(place as u32)),
        }
    }
    Ok(None)
}

/// Makes the values of a record in `values`, whatever stood there, or gives the place of the first field at fault.
fn make_values(
    values: &mut Values,
    columns: &[Column],
    fields: &ByteRecord,
) -> Result<Option<u32>, OutOfMemory>
    requires { length columns.now ≤ 64 }
    ensures { IfOk result (λ field. outcome values.new field ≡ row_of columns.now (fields_of fields.now)) }
{
    let wanted = columns.len();
    let given = fields.len();
    if given != wanted {
        return Ok(Some(wanted.min(given) as u32));
    }
    values.truncate(0);
    put_values(values, columns, fields)
}

/// Adds the row of a record.
fn put_row(
    rows: &mut Rows,
    values: &mut Values,
    columns: &[Column],
    fields: &ByteRecord,
) -> Result<(), CopyError>
    requires { length columns.now ≤ 64 }
    ensures { Gives (λ _. rows.new) result
        (behind rows.old (with_row (row_of columns.now (fields_of fields.now)) (length rows.old) (Ok []))) }
{
    match make_values(values, columns, fields)? {
        Some(field) => {
            let row = rows.len() as u64;
            Err(CopyError::BadField(FieldPlace { row, field }))
        }
        None => {
            rows.push_copy(&RowRef::new(values, 0, values.len()))?;
            Ok(())
        }
    }
}

/// The rows that the data of a COPY into a table of this schema hold, or the first field at fault.
#[tactic(auto, using(crate::proofs::CopiedLemmas::few_columns))]
pub fn copied_rows(alloc: Global, schema: &Schema, bytes: &[u8]) -> Result<Rows, CopyError>
    ensures { Gives (λ rows. rows) result (copied_rows schema.now bytes.now) }
{
    let columns = schema.as_slice();
    let mut reader = reader_of(alloc, bytes);
    let mut fields = ByteRecord::new(alloc);
    let mut values = Values::new(alloc);
    let mut rows = Rows::new(alloc);
    let turns = behind_mark(bytes).len() + 1;
    'records: for _ in 0..turns {
        if !take_record(&mut reader, &mut fields)? {
            return Ok(rows);
        }
        match put_row(&mut rows, &mut values, columns, &fields) {
            Ok(()) => {}
            Err(fault) => return Err(fault),
        }
    }
    Ok(rows)
}
