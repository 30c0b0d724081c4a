//! What a value is, where it is of a kind.
ghost use Rattle.std.specs.Prelude.{◌≡◌, option_map};
ghost use Rattle.dk_eval.specs.Values.{is_null, number_of, truth_of, text_of, null_test, is_true, known};

use dk_values::Value;

pub fn is_null(value: &Value) -> bool
    ensures { result ≡ is_null value.now }
{
    matches!(value, Value::Null)
}

/// The number that a value is. A sum of 128 bits stands in no expression.
pub fn number_of(value: &Value) -> Option<i64>
    ensures { result ≡ number_of value.now }
{
    match value {
        Value::Int(number) => Some(i64::from(*number)),
        Value::Big(number) => Some(*number),
        _ => None,
    }
}

pub fn truth_of(value: &Value) -> Option<bool>
    ensures { result ≡ truth_of value.now }
{
    match value {
        Value::Bool(truth) => Some(*truth),
        _ => None,
    }
}

pub fn text_of(value: &Value) -> Option<&[u8]>
    ensures { option_map (λ text. text.now) result ≡ text_of value.now }
{
    match value {
        Value::Text(bytes) => Some(bytes.as_slice()),
        _ => None,
    }
}

/// A truth, or null where it is not known.
pub fn known(truth: Option<bool>) -> Value
    ensures { result ≡ known truth }
{
    match truth {
        None => Value::Null,
        Some(truth) => Value::Bool(truth),
    }
}

/// Whether a value is null, or, denied, whether it is not.
pub fn null_test(denied: bool, value: &Value) -> bool
    ensures { result ≡ null_test denied value.now }
{
    if denied {
        !is_null(value)
    } else {
        is_null(value)
    }
}

/// Whether WHERE keeps a row on which it has this value.
pub fn is_true(value: &Value) -> bool
    ensures { result ≡ is_true value.now }
{
    match truth_of(value) {
        None => false,
        Some(truth) => truth,
    }
}
