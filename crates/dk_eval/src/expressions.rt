//! The value of an expression on a row.
ghost use Rattle.std.specs.Prelude.{◌≡◌, IfOk, slice_get};
ghost use Rattle.std.specs.Option.{option_copied};
ghost use Rattle.dk_eval.specs.Values.{Evaluates, combined, value_at, value_of};

use crate::comparisons::compare;
use crate::fault::EvalError;
use crate::kinds::{known, null_test, number_of, truth_of};
use crate::logic::{and_of, not_of, or_of};
use crate::numbers::{add, multiply, negate, ranged, subtract};
use dk_syntax::Op;
use dk_types::BoundExpr;
use dk_values::{OutOfMemory, Row, TryCopy, Value};

/// Lends the value of a column, if the row is as long.
fn column_of(row: &[Value], column: usize) -> Option<&Value>
    ensures { option_copied result ≡ slice_get row.now column }
{
    row.get(column)
}

/// The value of a row's column. Behind the last one, where no bound expression looks, it is null.
fn value_at(row: &Row, column: u16) -> Result<Value, OutOfMemory>
    ensures { IfOk result (λ value. value ≡ value_at row.now column) }
{
    match column_of(row.as_slice(), usize::from(column)) {
        None => Ok(Value::Null),
        Some(value) => value.copy(),
    }
}

/// The value of an operator over two values.
fn combined(op: Op, left: &Value, right: &Value) -> Result<Value, EvalError>
    ensures { Evaluates result (combined op left.now right.now) }
{
    match op {
        Op::Or => Ok(known(or_of(truth_of(left), truth_of(right)))),
        Op::And => Ok(known(and_of(truth_of(left), truth_of(right)))),
        Op::Eq => Ok(known(compare(left, right).map(|order| order.is_eq()))),
        Op::Ne => Ok(known(compare(left, right).map(|order| order.is_ne()))),
        Op::Lt => Ok(known(compare(left, right).map(|order| order.is_lt()))),
        Op::Le => Ok(known(compare(left, right).map(|order| order.is_le()))),
        Op::Gt => Ok(known(compare(left, right).map(|order| order.is_gt()))),
        Op::Ge => Ok(known(compare(left, right).map(|order| order.is_ge()))),
        Op::Add => ranged(add(number_of(left), number_of(right))),
        Op::Sub => ranged(subtract(number_of(left), number_of(right))),
        Op::Mul => ranged(multiply(number_of(left), number_of(right))),
    }
}

/// The value of an expression on a row.
pub fn eval(expr: &BoundExpr, row: &Row) -> Result<Value, EvalError>
    ensures { Evaluates result (value_of row.now expr.now) }
{
    match expr {
        BoundExpr::Lit(value) => Ok(value.copy()?),
        BoundExpr::Col(column) => Ok(value_at(row, *column)?),
        BoundExpr::Neg(of) => {
            let value = eval(of.get(), row)?;
            ranged(negate(number_of(&value)))
        }
        BoundExpr::Not(of) => {
            let value = eval(of.get(), row)?;
            Ok(known(not_of(truth_of(&value))))
        }
        BoundExpr::IsNull { of, negated } => {
            let value = eval(of.get(), row)?;
            Ok(Value::Bool(null_test(*negated, &value)))
        }
        BoundExpr::Two { op, left, right } => {
            let left = eval(left.get(), row)?;
            let right = eval(right.get(), row)?;
            combined(*op, &left, &right)
        }
    }
}
