//! Comparisons: numbers by value, texts by bytes, and false is below true.
ghost use Rattle.std.specs.Prelude.{◌≡◌};
ghost use Rattle.dk_eval.specs.Values.{number_order, order_of};

use crate::kinds::{number_of, text_of, truth_of};
use dk_values::Value;
use std::cmp::Ordering;

fn number_order(left: Option<i64>, right: Option<i64>) -> Option<Ordering>
    ensures { result ≡ number_order left right }
{
    match left {
        None => None,
        Some(x) => match right {
            None => None,
            Some(y) => Some(x.cmp(&y)),
        },
    }
}

/// The order of two values of one kind. There is none beside null, or where the kinds differ.
pub fn compare(left: &Value, right: &Value) -> Option<Ordering>
    ensures { result ≡ order_of left.now right.now }
{
    match left {
        Value::Bool(x) => match truth_of(right) {
            None => None,
            Some(y) => Some(x.cmp(&y)),
        },
        Value::Text(x) => match text_of(right) {
            None => None,
            Some(y) => Some(x.as_slice().cmp(&y)),
        },
        Value::Null | Value::Int(_) | Value::Big(_) | Value::Huge(_) => number_order(
            number_of(left),
            number_of(right),
        ),
    }
}
