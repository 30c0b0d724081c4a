//! Queries on a small table. Rows stand as words: a sign for each value, `-` for null, digits, and `a` to `z` for 10 to 35.
use crate::{QueryError, compare_values, select};
use dk_rows::{RowRef, Rows};
use dk_syntax::{Boxed, FoldKind, Op};
use dk_types::{BoundExpr, BoundItem, BoundItems, BoundKey, BoundKeys, BoundQuery};
use dk_values::{List, Offsets, OutOfMemory, Row, Value};
use std::alloc::Global;
use std::test::Fail;

/// The places of the table: the third is empty, and two rows are null in the first column.
const PLACES: [&[u8]; 7] = [b"21", b"-2", b"", b"13", b"2-", b"-5", b"13"];

/// The value that a sign stands for.
fn value_of(sign: u8) -> Value {
    if sign == b'-' {
        Value::Null
    } else {
        Value::Big(i64::from(sign.saturating_sub(b'0')))
    }
}

fn row_of(alloc: Global, word: &[u8]) -> Result<Row, OutOfMemory> {
    let mut row = List::new(alloc);
    for sign in word {
        row.push(value_of(*sign))?;
    }
    Ok(row)
}

fn table(alloc: Global, places: &[&[u8]]) -> Result<Vec<Option<Row>>, OutOfMemory> {
    let mut rows = Vec::new(alloc);
    for word in places {
        let place = if word.is_empty() {
            None
        } else {
            Some(row_of(alloc, word)?)
        };
        rows.push(place).map_err(|_| OutOfMemory)?;
    }
    Ok(rows)
}

/// The sign of a small number.
fn sign_of(number: i128) -> u8 {
    if number < 0 || number > 35 {
        b'?'
    } else if number < 10 {
        b'0' + number as u8
    } else {
        b'a' + (number as u8 - 10)
    }
}

/// The sign of a value.
fn sign(value: &Value) -> u8 {
    match value {
        Value::Null => b'-',
        Value::Big(number) => sign_of(i128::from(*number)),
        Value::Huge(number) => sign_of(*number),
        _ => b'?',
    }
}

/// Adds the word of a row, with a blank behind it.
fn push_word(alloc: Global, words: &mut Vec<u8>, row: &RowRef<'_>) -> Result<(), OutOfMemory> {
    let row = row.to_row(alloc)?;
    for value in row.as_slice() {
        words.push(sign(value)).map_err(|_| OutOfMemory)?;
    }
    words.push(b' ').map_err(|_| OutOfMemory)
}

/// The words of all rows.
fn words_of(alloc: Global, rows: &Rows) -> Result<Vec<u8>, OutOfMemory> {
    let mut words = Vec::new(alloc);
    for i in 0..rows.len() {
        push_word(alloc, &mut words, &rows.get(i))?;
    }
    Ok(words)
}

/// The words of what a query gives on these places, or `!` with the sign of the row that has no value.
fn given(alloc: Global, query: &BoundQuery, places: &[&[u8]]) -> Result<Vec<u8>, OutOfMemory> {
    let table = table(alloc, places)?;
    match select(alloc, query, table.as_slice()) {
        Ok(rows) => words_of(alloc, &rows),
        Err(QueryError::OutOfMemory) => Err(OutOfMemory),
        Err(QueryError::OutOfRange { row }) => {
            let mut words = Vec::new(alloc);
            words.push(b'!').map_err(|_| OutOfMemory)?;
            words
                .push(sign_of(i128::from(row)))
                .map_err(|_| OutOfMemory)?;
            Ok(words)
        }
    }
}

/// The two columns.
fn columns(alloc: Global) -> Result<BoundItems, OutOfMemory> {
    let mut items = List::new(alloc);
    items.push(BoundItem::Plain(BoundExpr::Col(0)))?;
    items.push(BoundItem::Plain(BoundExpr::Col(1)))?;
    Ok(items)
}

/// How many lines, and of the second column how many values, their sum, the least and the greatest.
fn aggregates(alloc: Global) -> Result<BoundItems, OutOfMemory> {
    let mut items = List::new(alloc);
    items.push(BoundItem::CountAll)?;
    for kind in [FoldKind::Count, FoldKind::Sum, FoldKind::Min, FoldKind::Max] {
        let of = BoundExpr::Col(1);
        items.push(BoundItem::Fold { kind, of })?;
    }
    Ok(items)
}

fn key(alloc: Global, column: u16, descending: bool) -> Result<BoundKeys, OutOfMemory> {
    let mut keys = List::new(alloc);
    keys.push(BoundKey { column, descending })?;
    Ok(keys)
}

fn first_column(alloc: Global) -> Result<Offsets, OutOfMemory> {
    let mut columns = List::new(alloc);
    columns.push(0)?;
    Ok(columns)
}

/// A query of these items, without anything else.
fn query(alloc: Global, items: BoundItems, grouped: bool) -> BoundQuery {
    BoundQuery {
        items,
        table: 0,
        filter: None,
        grouped,
        groups: List::new(alloc),
        keys: List::new(alloc),
        limit: None,
    }
}

/// The two columns in the order of one of them, with a limit.
fn ordered(
    alloc: Global,
    column: u16,
    descending: bool,
    limit: Option<u64>,
) -> Result<Vec<u8>, OutOfMemory> {
    let mut query = query(alloc, columns(alloc)?, false);
    query.keys = key(alloc, column, descending)?;
    query.limit = limit;
    given(alloc, &query, &PLACES)
}

/// The aggregates over all rows of these places, or over groups of the first column.
fn totals(alloc: Global, by_first: bool, places: &[&[u8]]) -> Result<Vec<u8>, OutOfMemory> {
    let mut query = query(alloc, aggregates(alloc)?, true);
    if by_first {
        query.groups = first_column(alloc)?;
    }
    given(alloc, &query, places)
}

fn two(alloc: Global, op: Op, left: BoundExpr, right: i64) -> Result<BoundExpr, OutOfMemory> {
    Ok(BoundExpr::Two {
        op,
        left: Boxed::new(alloc, left)?,
        right: Boxed::new(alloc, BoundExpr::Lit(Value::Big(right)))?,
    })
}

/// The rows on which the second column, times a factor, is below a number.
fn below(alloc: Global, factor: i64, most: i64, places: &[&[u8]]) -> Result<Vec<u8>, OutOfMemory> {
    let mut query = query(alloc, columns(alloc)?, false);
    let product = two(alloc, Op::Mul, BoundExpr::Col(1), factor)?;
    query.filter = Some(two(alloc, Op::Lt, product, most)?);
    given(alloc, &query, places)
}

/// The second column times a factor, and behind it the first one.
fn multiples(alloc: Global, factor: i64) -> Result<BoundItems, OutOfMemory> {
    let mut items = List::new(alloc);
    let product = two(alloc, Op::Mul, BoundExpr::Col(1), factor)?;
    items.push(BoundItem::Plain(product))?;
    items.push(BoundItem::Plain(BoundExpr::Col(0)))?;
    Ok(items)
}

/// These items on the first rows.
fn first_rows(
    alloc: Global,
    items: BoundItems,
    limit: Option<u64>,
    places: &[&[u8]],
) -> Result<Vec<u8>, OutOfMemory> {
    let mut query = query(alloc, items, false);
    query.limit = limit;
    given(alloc, &query, places)
}

#[test]
fn rows_stand_in_the_order_of_their_ids(rt: HostRuntime) -> Result<(), Fail> {
    let alloc = rt.alloc();
    let query = query(alloc, columns(alloc)?, false);
    let found = given(alloc, &query, &PLACES)?;
    assert_eq!(rt; found.as_slice(), b"21 -2 13 2- -5 13 ".as_slice());
    Ok(())
}

#[test]
fn where_keeps_what_is_true(rt: HostRuntime) -> Result<(), Fail> {
    let found = below(rt.alloc(), 1, 3, &PLACES)?;
    assert_eq!(rt; found.as_slice(), b"21 -2 ".as_slice());
    Ok(())
}

#[test]
fn a_filter_may_keep_no_row(rt: HostRuntime) -> Result<(), Fail> {
    let found = below(rt.alloc(), 1, 1, &PLACES)?;
    assert!(rt; found.is_empty());
    Ok(())
}

#[test]
fn items_stand_in_their_own_order(rt: HostRuntime) -> Result<(), Fail> {
    let alloc = rt.alloc();
    let mut items = List::new(alloc);
    items.push(BoundItem::Plain(BoundExpr::Col(1)))?;
    items.push(BoundItem::Plain(BoundExpr::Col(0)))?;
    items.push(BoundItem::Plain(BoundExpr::Col(1)))?;
    let found = first_rows(alloc, items, None, &PLACES)?;
    assert_eq!(rt; found.as_slice(), b"121 2-2 313 -2- 5-5 313 ".as_slice());
    Ok(())
}

#[test]
fn an_expression_stands_beside_a_column(rt: HostRuntime) -> Result<(), Fail> {
    let alloc = rt.alloc();
    let found = first_rows(alloc, multiples(alloc, 3)?, None, &PLACES)?;
    assert_eq!(rt; found.as_slice(), b"32 6- 91 -2 f- 91 ".as_slice());
    Ok(())
}

#[test]
fn the_first_rows_have_the_least_ids(rt: HostRuntime) -> Result<(), Fail> {
    let alloc = rt.alloc();
    let found = first_rows(alloc, columns(alloc)?, Some(3), &PLACES)?;
    assert_eq!(rt; found.as_slice(), b"21 -2 13 ".as_slice());
    let found = first_rows(alloc, columns(alloc)?, Some(0), &PLACES)?;
    assert!(rt; found.is_empty());
    Ok(())
}

#[test]
fn a_row_behind_the_limit_may_have_no_value(rt: HostRuntime) -> Result<(), Fail> {
    let alloc = rt.alloc();
    let places = [b"10".as_slice(), b"", b"1-", b"12", b"13"];
    let found = first_rows(alloc, multiples(alloc, i64::MAX)?, Some(1), &places)?;
    assert_eq!(rt; found.as_slice(), b"!3".as_slice());
    let found = first_rows(alloc, multiples(alloc, i64::MAX)?, Some(0), &places)?;
    assert_eq!(rt; found.as_slice(), b"!3".as_slice());
    Ok(())
}

#[test]
fn null_is_the_lowest_and_ties_stay(rt: HostRuntime) -> Result<(), Fail> {
    let found = ordered(rt.alloc(), 0, false, None)?;
    assert_eq!(rt; found.as_slice(), b"-2 -5 13 13 21 2- ".as_slice());
    Ok(())
}

#[test]
fn desc_is_the_reverse_and_ties_stay(rt: HostRuntime) -> Result<(), Fail> {
    let found = ordered(rt.alloc(), 0, true, Some(5))?;
    assert_eq!(rt; found.as_slice(), b"21 2- 13 13 -2 ".as_slice());
    Ok(())
}

#[test]
fn the_limit_stands_behind_the_order(rt: HostRuntime) -> Result<(), Fail> {
    let found = ordered(rt.alloc(), 1, true, Some(1))?;
    assert_eq!(rt; found.as_slice(), b"-5 ".as_slice());
    let found = ordered(rt.alloc(), 1, true, Some(0))?;
    assert!(rt; found.is_empty());
    Ok(())
}

#[test]
fn a_row_without_a_value_is_named_by_its_id(rt: HostRuntime) -> Result<(), Fail> {
    let alloc = rt.alloc();
    let found = below(alloc, i64::MAX, 1, &[b"10", b"", b"1-", b"12", b"13"])?;
    assert_eq!(rt; found.as_slice(), b"!3".as_slice());
    let found = below(alloc, i64::MAX, 1, &[b"10", b"", b"1-"])?;
    assert_eq!(rt; found.as_slice(), b"10 ".as_slice());
    Ok(())
}

#[test]
fn aggregates_pass_over_null(rt: HostRuntime) -> Result<(), Fail> {
    let found = totals(rt.alloc(), false, &PLACES)?;
    assert_eq!(rt; found.as_slice(), b"65e15 ".as_slice());
    Ok(())
}

#[test]
fn no_rows_are_one_group_without_group_by(rt: HostRuntime) -> Result<(), Fail> {
    let alloc = rt.alloc();
    let found = totals(alloc, false, &[])?;
    assert_eq!(rt; found.as_slice(), b"00--- ".as_slice());
    let found = totals(alloc, true, &[])?;
    assert!(rt; found.is_empty());
    Ok(())
}

#[test]
fn groups_ascend_and_null_is_one_of_them(rt: HostRuntime) -> Result<(), Fail> {
    let found = totals(rt.alloc(), true, &PLACES)?;
    assert_eq!(rt; found.as_slice(), b"22725 22633 21111 ".as_slice());
    Ok(())
}

#[test]
fn values_of_all_kinds_are_ordered(rt: HostRuntime) -> Result<(), Fail> {
    let values = [
        Value::Null,
        Value::Bool(false),
        Value::Bool(true),
        Value::Big(-1),
        Value::Int(0),
        Value::Huge(1),
    ];
    for i in 0..values.len() {
        for j in 0..values.len() {
            assert!(rt; compare_values(&values[i], &values[j]) == i.cmp(&j));
        }
    }
    Ok(())
}
