//! What scans find in columns of numbers, truth and texts.
ghost use Rattle.std.specs.Prelude.{◌≡◌, ◌<◌, ◌^◌, length, IfOk};
ghost use Rattle.dk_values.specs.declared.value.ColType.TheVariants.{Big, Text};
ghost use Rattle.dk_rows.specs.Cells.{value_of};
ghost use Rattle.dk_columns.specs.Columns.{IsOfKind};
ghost use Rattle.dk_columns.specs.Stored.{IsNumeric};

use crate::{Extreme, count, extreme_number, extreme_text, sum};
use dk_columns::{Cells, Mask};
use dk_rows::Cell;
use dk_values::{ColType, OutOfMemory};
use std::alloc::Global;
use std::test::Fail;

/// What the scans find in a column of numbers.
#[derive(Clone, Copy, Debug, PartialEq)]
struct Found {
    count: usize,
    sum: i128,
    least: Option<i64>,
    greatest: Option<i64>,
}

const NOTHING: Found = Found {
    count: 0,
    sum: 0,
    least: None,
    greatest: None,
};

/// What the scans find among the rows that are asked for.
fn find_all(cells: &Cells, rows: &Mask) -> Found
    requires numeric { IsNumeric cells.now.kind }
    requires rows { length rows.now ≡ length cells.now.values }
{
    Found {
        count: count(cells, rows),
        sum: sum(cells, rows),
        least: extreme_number(cells, rows, Extreme::Least),
        greatest: extreme_number(cells, rows, Extreme::Greatest),
    }
}

/// The number after i, but null at each `nulls`-th.
fn number_or_null(i: usize, nulls: usize) -> Cell<'static>
    requires { i < 2 ^ 20 }
    ensures { IsOfKind Big (value_of result) }
{
    if nulls > 0 && i % nulls == 0 {
        return Cell::Null;
    }
    Cell::Big(i as i64 + 1)
}

/// The numbers from 1 to `len`, but null at each `nulls`-th, over all rows but each `passed`-th.
fn scanned(alloc: Global, len: usize, nulls: usize, passed: usize) -> Result<Found, OutOfMemory> {
    let mut cells = Cells::new(alloc, ColType::Big);
    let mut rows = Mask::new(alloc);
    'rows: for i in 0..len.min(1_000_000) {
        cells.push(&number_or_null(i, nulls))?;
        rows.push(!(passed > 0 && i % passed == 0))?;
    }
    Ok(find_all(&cells, &rows))
}

/// Nothing is found where each value is null, nor where no row is asked for.
fn finds_nothing(alloc: Global, len: usize) -> Result<bool, OutOfMemory> {
    Ok(scanned(alloc, len, 1, 0)? == NOTHING && scanned(alloc, len, 0, 1)? == NOTHING)
}

#[test]
fn nothing_is_found_in_nulls_and_in_no_rows(rt: HostRuntime) -> Result<(), Fail> {
    for len in [0, 1, 63, 64, 65, 2_048] {
        assert!(rt; finds_nothing(rt.alloc(), len)?);
    }
    Ok(())
}

#[test]
fn numbers_are_found_that_are_asked_for_and_not_null(rt: HostRuntime) -> Result<(), Fail> {
    let want = Found {
        count: 2_048,
        sum: 2_098_176,
        least: Some(1),
        greatest: Some(2_048),
    };
    assert_eq!(rt; scanned(rt.alloc(), 2_048, 0, 0)?, want);
    let want = Found {
        count: 43,
        sum: 2_816,
        least: Some(2),
        greatest: Some(128),
    };
    assert_eq!(rt; scanned(rt.alloc(), 130, 2, 3)?, want);
    Ok(())
}

/// The sum of so many of one number, and the least and the greatest of them.
fn scanned_alike(alloc: Global, len: u32, number: i64) -> Result<Found, OutOfMemory> {
    let mut cells = Cells::new(alloc, ColType::Big);
    'numbers: for _ in 0..len {
        cells.push(&Cell::Big(number))?;
    }
    let rows = Mask::all(alloc, cells.len());
    Ok(find_all(&cells, &rows))
}

#[test]
fn a_sum_has_more_than_64_bits(rt: HostRuntime) -> Result<(), Fail> {
    let greatest = scanned_alike(rt.alloc(), 67, i64::MAX)?;
    assert_eq!(rt; greatest.sum, 617_965_926_469_269_979_069);
    assert_eq!(rt; greatest.least, Some(i64::MAX));
    let least = scanned_alike(rt.alloc(), 67, i64::MIN)?;
    assert_eq!(rt; least.sum, -617_965_926_469_269_979_136);
    assert_eq!(rt; least.greatest, Some(i64::MIN));
    Ok(())
}

/// How many of true and false are true values, the sum of them, and the least.
fn scanned_truth(alloc: Global) -> Result<Found, OutOfMemory> {
    let mut cells = Cells::new(alloc, ColType::Bool);
    cells.push(&Cell::Bool(true))?;
    cells.push(&Cell::Null)?;
    cells.push(&Cell::Bool(false))?;
    let rows = Mask::all(alloc, cells.len());
    Ok(find_all(&cells, &rows))
}

#[test]
fn truth_is_0_and_1(rt: HostRuntime) -> Result<(), Fail> {
    let want = Found {
        count: 2,
        sum: 1,
        least: Some(0),
        greatest: Some(1),
    };
    assert_eq!(rt; scanned_truth(rt.alloc())?, want);
    Ok(())
}

/// The cell of a text.
fn text_or_null<'a>(text: Option<&'a [u8]>) -> Cell<'a>
    ensures { IsOfKind Text (value_of result) }
{
    match text {
        None => Cell::Null,
        Some(text) => Cell::Text(text),
    }
}

/// A column of texts.
fn texts(alloc: Global, list: &[Option<&[u8]>]) -> Result<Cells, OutOfMemory>
    ensures { IfOk result (λ cells. cells.kind ≡ Text) }
{
    let mut cells = Cells::new(alloc, ColType::Text);
    'texts: for text in list {
        cells.push(&text_or_null(*text))?;
    }
    Ok(cells)
}

/// Whether so many of the texts, without the first, are no nulls, and these are the least and the greatest.
fn finds(
    alloc: Global,
    list: &[Option<&[u8]>],
    found: usize,
    bounds: [Option<&[u8]>; 2],
) -> Result<bool, OutOfMemory> {
    let cells = texts(alloc, list)?;
    let mut rows = Mask::all(alloc, cells.len());
    if rows.len() > 0 {
        rows.set(0, false)?;
    }
    Ok(
        count(&cells, &rows) == found
            && extreme_text(&cells, &rows, Extreme::Least) == bounds[0]
            && extreme_text(&cells, &rows, Extreme::Greatest) == bounds[1],
    )
}

#[test]
fn texts_compare_by_bytes(rt: HostRuntime) -> Result<(), Fail> {
    let alloc = rt.alloc();
    assert!(rt; finds(alloc, &[], 0, [None, None])?);
    assert!(rt; finds(alloc, &[Some(b"a"), None], 0, [None, None])?);
    let list: [Option<&[u8]>; 6] = [
        Some(b"zz"),
        Some(b"b"),
        None,
        Some(b"ab"),
        Some(b"abc"),
        Some(b"Z"),
    ];
    assert!(rt; finds(alloc, &list, 4, [Some(b"Z"), Some(b"b")])?);
    let list: [Option<&[u8]>; 4] = [Some(b""), Some(b"ab"), Some(b"a"), Some(b"\xc3\xa9")];
    assert!(rt; finds(alloc, &list, 3, [Some(b"a"), Some(b"\xc3\xa9")])?);
    Ok(())
}
