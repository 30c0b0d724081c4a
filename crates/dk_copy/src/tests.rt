//! Data with the rows that they hold, and data with the first field that has no value.
use crate::{CopyError, FieldPlace, copied_rows};
use dk_rows::{Cell, RowRef};
use dk_values::{ColType, Column, List, OutOfMemory, Schema};
use std::alloc::Global;
use std::process::Abort;
use std::test::Fail;

/// The columns of a table of four, whose names are `a` to `d`.
const ALL: [ColType; 4] = [ColType::Bool, ColType::Int, ColType::Big, ColType::Text];

/// A table of one text.
const TEXT: [ColType; 1] = [ColType::Text];

/// The table of these columns.
fn schema_of(alloc: Global, kinds: &[ColType]) -> Result<Schema, Fail> {
    let mut columns = Vec::new(alloc);
    for (place, kind) in kinds.iter().enumerate() {
        let mut name = List::new(alloc);
        name.push(b'a' + (place % 26) as u8)?;
        columns.push(Column { name, kind: *kind })?;
    }
    match Schema::new(columns) {
        Ok(schema) => Ok(schema),
        Err(_) => Err(Fail::new("these are no columns of a table")),
    }
}

/// Data, how many rows they hold, and the values of these, row by row.
#[derive(Drop)]
struct Held<'a> {
    data: &'a [u8],
    rows: usize,
    cells: &'a [Cell<'a>],
}

/// Whether two values are the same.
fn is_same(left: Cell<'_>, right: Cell<'_>) -> bool {
    match (left, right) {
        (Cell::Null, Cell::Null) => true,
        (Cell::Bool(a), Cell::Bool(b)) => a == b,
        (Cell::Int(a), Cell::Int(b)) => a == b,
        (Cell::Big(a), Cell::Big(b)) => a == b,
        (Cell::Text(a), Cell::Text(b)) => a == b,
        _ => false,
    }
}

/// Whether a row has these values, the first of which stands at that place.
fn is_row(row: &RowRef<'_>, cells: &[Cell<'_>], first: usize) -> bool {
    for place in 0..row.len() {
        match cells.get(first.saturating_add(place)) {
            Some(cell) if is_same(row.get(place), *cell) => {}
            _ => return false,
        }
    }
    true
}

/// Whether data hold the rows that they should.
fn is_held(alloc: Global, schema: &Schema, held: &Held<'_>) -> Result<bool, OutOfMemory> {
    let rows = match copied_rows(alloc, schema, held.data) {
        Ok(rows) => rows,
        Err(CopyError::BadField(_)) => return Ok(false),
        Err(CopyError::OutOfMemory) => return Err(OutOfMemory),
    };
    let mut next = 0;
    for i in 0..rows.len() {
        let row = rows.get(i);
        if !is_row(&row, held.cells, next) {
            return Ok(false);
        }
        next = next.saturating_add(row.len());
    }
    Ok(rows.len() == held.rows && held.cells.len() == next)
}

fn are_held(
    rt: &impl Abort,
    alloc: Global,
    kinds: &[ColType],
    cases: &[Held<'_>],
) -> Result<(), Fail> {
    let schema = schema_of(alloc, kinds)?;
    for (place, held) in cases.iter().enumerate() {
        assert!(rt; is_held(alloc, &schema, held)?, "data {place}");
    }
    Ok(())
}

#[test]
fn each_type_has_its_words(rt: HostRuntime) -> Result<(), Fail> {
    let cases = [
        Held {
            data: b"true,1,2,x\nFalse,-0,007,y z\n",
            rows: 2,
            cells: &[
                Cell::Bool(true),
                Cell::Int(1),
                Cell::Big(2),
                Cell::Text(b"x"),
                Cell::Bool(false),
                Cell::Int(0),
                Cell::Big(7),
                Cell::Text(b"y z"),
            ],
        },
        Held {
            data: b"TRUE,-2147483648,-9223372036854775808, \nfALSE,2147483647,9223372036854775807,\xc3\xa9\n",
            rows: 2,
            cells: &[
                Cell::Bool(true),
                Cell::Int(i32::MIN),
                Cell::Big(i64::MIN),
                Cell::Text(b" "),
                Cell::Bool(false),
                Cell::Int(i32::MAX),
                Cell::Big(i64::MAX),
                Cell::Text(b"\xc3\xa9"),
            ],
        },
    ];
    are_held(&rt, rt.alloc(), &ALL, &cases)
}

#[test]
fn empty_fields_are_null(rt: HostRuntime) -> Result<(), Fail> {
    let nulls = [Cell::Null, Cell::Null, Cell::Null, Cell::Null];
    let cases = [
        Held {
            data: b",,,\n",
            rows: 1,
            cells: &nulls,
        },
        Held {
            data: b"\"\",\"\",\"\",\"\"",
            rows: 1,
            cells: &nulls,
        },
        Held {
            data: b"",
            rows: 0,
            cells: &[],
        },
        Held {
            data: b"\n\r\n\r\n\n",
            rows: 0,
            cells: &[],
        },
    ];
    are_held(&rt, rt.alloc(), &ALL, &cases)
}

#[test]
fn quotes_hold_marks_and_ends_of_lines(rt: HostRuntime) -> Result<(), Fail> {
    let cases = [
        Held {
            data: b"\"a,b\"\n\"say \"\"so\"\"\"\n",
            rows: 2,
            cells: &[Cell::Text(b"a,b"), Cell::Text(b"say \"so\"")],
        },
        Held {
            data: b"\"x\ny\"\n\"open\nto the end",
            rows: 2,
            cells: &[Cell::Text(b"x\ny"), Cell::Text(b"open\nto the end")],
        },
        Held {
            data: b"a\"b\n",
            rows: 1,
            cells: &[Cell::Text(b"a\"b")],
        },
    ];
    are_held(&rt, rt.alloc(), &TEXT, &cases)
}

#[test]
fn lines_end_in_each_way(rt: HostRuntime) -> Result<(), Fail> {
    let three = [Cell::Text(b"p"), Cell::Text(b"q"), Cell::Text(b"r")];
    let cases = [
        Held {
            data: b"p\nq\nr",
            rows: 3,
            cells: &three,
        },
        Held {
            data: b"p\r\nq\r\n\r\nr\r\n",
            rows: 3,
            cells: &three,
        },
        Held {
            data: b"p\rq\rr",
            rows: 3,
            cells: &three,
        },
        Held {
            data: b"\xef\xbb\xbfp\n\nq\nr\n",
            rows: 3,
            cells: &three,
        },
    ];
    are_held(&rt, rt.alloc(), &TEXT, &cases)
}

/// Data, and the first field of them without a value.
type Faulty = (&'static [u8], u64, u32);

/// Faults of values, and of numbers of fields, which go before those of the values of the same record.
const FAULTY: [Faulty; 16] = [
    (b"yes,1,1,x", 0, 0),
    (b"true,+1,1,x", 0, 1),
    (b"true,-,1,x", 0, 1),
    (b"true,1 ,1,x", 0, 1),
    (b"true,2147483648,1,x", 0, 1),
    (b"true,-2147483649,1,x", 0, 1),
    (b"true,1,9223372036854775808,x", 0, 2),
    (b"true,1,-9223372036854775809,x", 0, 2),
    (b"true,1,18446744073709551617,x", 0, 2),
    (b"true,1,0x1,x", 0, 2),
    (b"true,1,1,\xff", 0, 3),
    (b"true,1,1", 0, 3),
    (b"no,1,1", 0, 3),
    (b"true,1,1,x,y", 0, 4),
    (b"true,1,1,x\n\ntrue,1,1.0,x\nx", 1, 2),
    (b"true,1,1,x\ntrue", 1, 1),
];

/// Whether the first field without a value is where it should be.
fn is_refused(alloc: Global, schema: &Schema, faulty: &Faulty) -> bool {
    let (data, row, field) = *faulty;
    match copied_rows(alloc, schema, data) {
        Err(CopyError::BadField(at)) => at == FieldPlace { row, field },
        _ => false,
    }
}

#[test]
fn the_first_field_without_a_value_is_named(rt: HostRuntime) -> Result<(), Fail> {
    let schema = schema_of(rt.alloc(), &ALL)?;
    for (place, faulty) in FAULTY.iter().enumerate() {
        assert!(rt; is_refused(rt.alloc(), &schema, faulty), "data {place}");
    }
    Ok(())
}

/// A text of so many bytes.
fn long_text(alloc: Global, count: usize) -> Result<Vec<u8>, OutOfMemory> {
    let mut text = Vec::new(alloc);
    for _ in 0..count {
        text.push(b'x').map_err(|_| OutOfMemory)?;
    }
    Ok(text)
}

#[test]
fn a_text_has_at_most_65535_bytes(rt: HostRuntime) -> Result<(), Fail> {
    let alloc = rt.alloc();
    let schema = schema_of(alloc, &TEXT)?;
    let longest = long_text(alloc, 65_535)?;
    assert!(rt; copied_rows(alloc, &schema, longest.as_slice()).is_ok());
    let longer = long_text(alloc, 65_536)?;
    let refused = CopyError::BadField(FieldPlace { row: 0, field: 0 });
    assert!(rt;
        copied_rows(alloc, &schema, longer.as_slice()).is_err_and(|error| error == refused)
    );
    Ok(())
}
