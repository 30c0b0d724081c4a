//! The values that are not null.
ghost use Rattle.std.specs.Prelude.{◌≡◌, ◌<◌, ◌≤◌, [], ◌∷◌, length, IfSome, IsNone};
ghost use Rattle.dk_bytes.specs.PlainValue.{is_present, present};

use dk_values::Value;

/// Whether the value is not null.
pub fn is_present(value: &Value) -> bool
    ensures { result ≡ is_present value.now }
{
    match value {
        Value::Null => false,
        _ => true,
    }
}

/// How many values are not null.
#[tactic(auto, using(crate::proofs::PresenceLemmas::count_is, crate::proofs::PresenceLemmas::present_few))]
pub fn present_count(values: &[Value]) -> usize
    ensures count { result ≡ length (present values.now) }
    ensures within { result ≤ length values.now }
{
    values.iter().filter(|value| is_present(value)).count()
}

/// The first value that is not null, and the values behind it.
pub fn split_present(values: &[Value]) -> Option<(&Value, &[Value])>
    ensures none { IsNone result → present values.now ≡ [] }
    ensures some { IfSome result (λ split. present values.now ≡ split.0.now ∷ present split.1.now) }
    ensures shorter { IfSome result (λ split. length split.1.now < length values.now) }
{
    let mut left = values;
    'values: while let [first, rest @ ..] = left {
        if is_present(first) {
            return Some((first, rest));
        }
        left = rest;
    }
    None
}
