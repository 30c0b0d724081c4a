//! Rows with their lines: null, truths, numbers with signs, and texts with and without marks.
use crate::put_row;
use dk_types::{Cell, List, OutOfMemory, Rows};
use std::alloc::Global;
use std::process::Abort;
use std::test::Fail;

/// A row, and its line.
#[derive(Drop)]
struct Case<'a> {
    cells: &'a [Cell<'a>],
    line: &'a [u8],
}

/// What is put for a row behind bytes that stand already.
fn line_of(alloc: Global, cells: &[Cell<'_>]) -> Result<Vec<u8>, OutOfMemory> {
    let mut row = List::new(alloc);
    for cell in cells {
        row.push(cell.to_value(alloc)?)?;
    }
    let mut rows = Rows::new(alloc);
    rows.push(row)?;
    let mut out = Vec::from_slice(alloc, b"rows 1\n")?;
    for row in rows.iter() {
        put_row(&mut out, &row)?;
    }
    Ok(out)
}

fn are_lines(rt: &impl Abort, alloc: Global, cases: &[Case<'_>]) -> Result<(), Fail> {
    for case in cases {
        let mut line = Vec::from_slice(alloc, b"rows 1\n")?;
        line.extend_from_slice(case.line)?;
        let put = line_of(alloc, case.cells)?;
        assert_eq!(rt; put.as_slice(), line.as_slice());
    }
    Ok(())
}

#[test]
fn texts_are_quoted_where_they_have_marks(rt: HostRuntime) -> Result<(), Fail> {
    let cases = [
        Case {
            cells: &[Cell::Text(b"plain words; 'x'\t\\")],
            line: b"plain words; 'x'\t\\\n",
        },
        Case {
            cells: &[Cell::Text(b"x,y"), Cell::Int(1)],
            line: b"\"x,y\",1\n",
        },
        Case {
            cells: &[Cell::Text(b"\"")],
            line: b"\"\"\"\"\n",
        },
        Case {
            cells: &[Cell::Text(b"a \"b\" c")],
            line: b"\"a \"\"b\"\" c\"\n",
        },
        Case {
            cells: &[Cell::Int(1), Cell::Text(b"x\ny")],
            line: b"1,\"x\ny\"\n",
        },
        Case {
            cells: &[Cell::Text(b"x\r")],
            line: b"\"x\r\"\n",
        },
        Case {
            cells: &[Cell::Text(b"\xc3\xa9")],
            line: b"\xc3\xa9\n",
        },
    ];
    are_lines(&rt, rt.alloc(), &cases)
}

#[test]
fn no_line_is_empty(rt: HostRuntime) -> Result<(), Fail> {
    let cases = [
        Case {
            cells: &[],
            line: b"\"\"\n",
        },
        Case {
            cells: &[Cell::Null],
            line: b"\"\"\n",
        },
        Case {
            cells: &[Cell::Text(b"")],
            line: b"\"\"\n",
        },
        Case {
            cells: &[Cell::Null, Cell::Null],
            line: b",\n",
        },
        Case {
            cells: &[Cell::Text(b""), Cell::Null, Cell::Text(b"")],
            line: b",,\n",
        },
        Case {
            cells: &[Cell::Int(0), Cell::Null],
            line: b"0,\n",
        },
        Case {
            cells: &[Cell::Null, Cell::Text(b"x")],
            line: b",x\n",
        },
    ];
    are_lines(&rt, rt.alloc(), &cases)
}

#[test]
fn truths_and_numbers_stand_in_words(rt: HostRuntime) -> Result<(), Fail> {
    let cases = [
        Case {
            cells: &[Cell::Bool(true), Cell::Bool(false)],
            line: b"true,false\n",
        },
        Case {
            cells: &[Cell::Int(-1), Cell::Int(0), Cell::Int(7)],
            line: b"-1,0,7\n",
        },
        Case {
            cells: &[Cell::Int(i32::MIN), Cell::Int(i32::MAX)],
            line: b"-2147483648,2147483647\n",
        },
        Case {
            cells: &[Cell::Big(i64::MIN), Cell::Big(i64::MAX)],
            line: b"-9223372036854775808,9223372036854775807\n",
        },
        Case {
            cells: &[Cell::Huge(-9_223_372_036_854_775_809)],
            line: b"-9223372036854775809\n",
        },
    ];
    are_lines(&rt, rt.alloc(), &cases)
}
