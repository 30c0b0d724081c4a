//! Arithmetic, whose results have 64 bits.
ghost use Rattle.std.specs.Prelude.{◌≡◌, ◌+ℤ◌, ◌-ℤ◌, ◌*ℤ◌};
ghost use Rattle.dk_eval.specs.Values.{Evaluates, of_both, negated, within, ranged};

use crate::fault::EvalError;
use dk_values::Value;

/// The value of a number, if 64 bits hold it.
fn within(number: i128) -> Result<Value, EvalError>
    ensures { Evaluates result (within number) }
{
    if -9_223_372_036_854_775_808 <= number && number <= 9_223_372_036_854_775_807 {
        Ok(Value::Big(number as i64))
    } else {
        Err(EvalError::OutOfRange)
    }
}

/// The same, and null where there is no number.
pub fn ranged(number: Option<i128>) -> Result<Value, EvalError>
    ensures { Evaluates result (ranged number) }
{
    match number {
        None => Ok(Value::Null),
        Some(number) => within(number),
    }
}

pub fn add(left: Option<i64>, right: Option<i64>) -> Option<i128>
    ensures { result ≡ of_both (λ x y. x +ℤ y) left right }
{
    match left {
        None => None,
        Some(x) => match right {
            None => None,
            Some(y) => Some(i128::from(x) + i128::from(y)),
        },
    }
}

pub fn subtract(left: Option<i64>, right: Option<i64>) -> Option<i128>
    ensures { result ≡ of_both (λ x y. x -ℤ y) left right }
{
    match left {
        None => None,
        Some(x) => match right {
            None => None,
            Some(y) => Some(i128::from(x) - i128::from(y)),
        },
    }
}

pub fn multiply(left: Option<i64>, right: Option<i64>) -> Option<i128>
    ensures { result ≡ of_both (λ x y. x *ℤ y) left right }
{
    match left {
        None => None,
        Some(x) => match right {
            None => None,
            Some(y) => Some(i128::from(x) * i128::from(y)),
        },
    }
}

pub fn negate(number: Option<i64>) -> Option<i128>
    ensures { result ≡ negated number }
{
    match number {
        None => None,
        Some(x) => Some(-i128::from(x)),
    }
}
