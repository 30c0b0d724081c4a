//! Truth tables, the ends of 64 bits, and aggregates.
use crate::{Accumulator, EvalError, eval};
use dk_syntax::{Boxed, FoldKind, Op};
use dk_types::BoundExpr;
use dk_values::{List, OutOfMemory, Row, Value};
use std::alloc::Global;
use std::test::Fail;

const TRUTHS: [Option<bool>; 3] = [Some(true), Some(false), None];

fn truth(truth: Option<bool>) -> Value {
    match truth {
        Some(truth) => Value::Bool(truth),
        None => Value::Null,
    }
}

fn number(number: i64) -> BoundExpr {
    BoundExpr::Lit(Value::Big(number))
}

fn two(alloc: Global, op: Op, left: BoundExpr, right: BoundExpr) -> Result<BoundExpr, OutOfMemory> {
    Ok(BoundExpr::Two {
        op,
        left: Boxed::new(alloc, left)?,
        right: Boxed::new(alloc, right)?,
    })
}

/// What an expression has for a value, in a byte: `t`, `f`, `n` for null, `o` for out of range, and `?` for others.
fn letter(expr: &BoundExpr, row: &Row) -> u8 {
    match eval(expr, row) {
        Ok(Value::Bool(true)) => b't',
        Ok(Value::Bool(false)) => b'f',
        Ok(Value::Null) => b'n',
        Err(EvalError::OutOfRange) => b'o',
        _ => b'?',
    }
}

/// Whether an expression is this number, or out of range.
fn is_number(expr: &BoundExpr, row: &Row, wanted: Option<i64>) -> bool {
    match eval(expr, row) {
        Ok(Value::Big(number)) => wanted == Some(number),
        Err(EvalError::OutOfRange) => wanted.is_none(),
        _ => false,
    }
}

/// The letters of an operator over true, false and null on the left, and of each over those on the right.
fn letters(alloc: Global, op: Op) -> Result<Vec<u8>, OutOfMemory> {
    let row = List::new(alloc);
    let mut letters = Vec::new(alloc);
    for left in TRUTHS {
        for right in TRUTHS {
            let left = BoundExpr::Lit(truth(left));
            let expr = two(alloc, op, left, BoundExpr::Lit(truth(right)))?;
            letters.push(letter(&expr, &row)).map_err(|_| OutOfMemory)?;
        }
    }
    Ok(letters)
}

#[test]
fn and_and_or_are_kleenes(rt: HostRuntime) -> Result<(), Fail> {
    let alloc = rt.alloc();
    assert_eq!(rt;
        letters(alloc, Op::And)?.as_slice(),
        b"tfnfffnfn".as_slice()
    );
    assert_eq!(rt; letters(alloc, Op::Or)?.as_slice(), b"ttttfntnn".as_slice());
    Ok(())
}

#[test]
fn truths_are_compared(rt: HostRuntime) -> Result<(), Fail> {
    let alloc = rt.alloc();
    assert_eq!(rt; letters(alloc, Op::Eq)?.as_slice(), b"tfnftnnnn".as_slice());
    assert_eq!(rt; letters(alloc, Op::Lt)?.as_slice(), b"ffntfnnnn".as_slice());
    assert_eq!(rt; letters(alloc, Op::Ge)?.as_slice(), b"ttnftnnnn".as_slice());
    Ok(())
}

/// Whether an operator over two numbers is this number, or out of range.
fn gives(alloc: Global, op: Op, left: i64, right: i64, wanted: Option<i64>) -> bool {
    match two(alloc, op, number(left), number(right)) {
        Ok(expr) => is_number(&expr, &List::new(alloc), wanted),
        Err(_) => false,
    }
}

#[test]
fn sums_have_the_range_of_64_bits(rt: HostRuntime) -> Result<(), Fail> {
    let alloc = rt.alloc();
    assert!(rt; gives(alloc, Op::Add, i64::MAX, 0, Some(i64::MAX)));
    assert!(rt; gives(alloc, Op::Add, i64::MAX, 1, None));
    assert!(rt; gives(alloc, Op::Sub, i64::MIN, 1, None));
    Ok(())
}

#[test]
fn products_have_the_range_of_64_bits(rt: HostRuntime) -> Result<(), Fail> {
    let alloc = rt.alloc();
    assert!(rt; gives(alloc, Op::Mul, 1 << 32, 1 << 31, None));
    assert!(rt; gives(alloc, Op::Mul, 1 << 32, -(1 << 31), Some(i64::MIN)));
    assert!(rt; gives(alloc, Op::Mul, i64::MIN, -1, None));
    Ok(())
}

/// An aggregate over three values.
fn over(
    kind: FoldKind,
    first: &Value,
    second: &Value,
    third: &Value,
) -> Result<Value, OutOfMemory> {
    let mut taken = Accumulator::new(kind);
    taken.push(first)?;
    taken.push(second)?;
    taken.push(third)?;
    Ok(taken.finish())
}

#[test]
fn sums_have_128_bits(rt: HostRuntime) -> Result<(), Fail> {
    let most = Value::Big(i64::MAX);
    let sum = over(FoldKind::Sum, &most, &Value::Null, &most)?;
    assert_eq!(rt; sum, Value::Huge(18_446_744_073_709_551_614));
    let none = over(FoldKind::Sum, &Value::Null, &Value::Null, &Value::Null)?;
    assert_eq!(rt; none, Value::Null);
    Ok(())
}

#[test]
fn null_is_passed_over(rt: HostRuntime) -> Result<(), Fail> {
    let (no, yes) = (Value::Bool(false), Value::Bool(true));
    assert_eq!(rt;
        over(FoldKind::Count, &Value::Null, &no, &yes)?,
        Value::Big(2)
    );
    assert_eq!(rt; over(FoldKind::Min, &Value::Null, &yes, &no)?, no);
    assert_eq!(rt; over(FoldKind::Max, &no, &yes, &Value::Null)?, yes);
    Ok(())
}
