//! Numbers in fields: `-` at most once and digits.
ghost use Rattle.std.specs.Prelude.{◌≡◌, ◌≤◌, ◌^◌, ◌-◌, pos, true, false, Some, IfSome, IfNone};
ghost use Rattle.std.specs.List.{list_all};
ghost use Rattle.dk_copy.specs.Numbers.{is_digit, value_from, digits_value, IsOver, signed, number_in};

fn is_digit(byte: u8) -> bool
    ensures { result ≡ is_digit byte }
{
    b'0' <= byte && byte <= b'9'
}

/// The number that digits spell, if it is below 2^64.
fn value_of(digits: &[u8]) -> Option<u64>
    ensures value { IfSome result (λ value. value ≡ value_from 0 digits.now) }
    ensures none { IfNone result (2 ^ 64 ≤ value_from 0 digits.now) }
{
    let mut value = 0u64;
    'digits: for d in digits {
        let digit = u64::from(d.saturating_sub(b'0'));
        if value > (u64::MAX - digit) / 10 {
            return None;
        }
        value = 10 * value + digit;
    }
    Some(value)
}

fn are_digits(bytes: &[u8]) -> bool
    ensures { result ≡ list_all is_digit bytes.now }
{
    bytes.iter().all(|b| is_digit(*b))
}

/// The number that bytes spell without a sign, if it is below 2^64.
fn digits_value(bytes: &[u8]) -> Option<u64>
    ensures value { IfSome result (λ value. digits_value bytes.now ≡ Some value) }
    ensures none { IfNone result (IsOver (digits_value bytes.now)) }
{
    if bytes.is_empty() || !are_digits(bytes) {
        return None;
    }
    value_of(bytes)
}

/// A number without a sign, if it is not above `most`.
fn raised(most: u64, number: u64) -> Option<i64>
    requires { most ≤ 2 ^ 63 - 1 }
    ensures { result ≡ signed most false (Some number) }
{
    if number <= most {
        Some(number as i64)
    } else {
        None
    }
}

/// A number behind `-`, if it is not below `-most - 1`.
fn lowered(most: u64, number: u64) -> Option<i64>
    requires { most ≤ 2 ^ 63 - 1 }
    ensures { result ≡ signed most true (Some number) }
{
    if number <= most {
        Some(-(number as i64))
    } else if number == most + 1 {
        Some(-(most as i64) - 1)
    } else {
        None
    }
}

/// The number that bytes spell, if it lies from `-most - 1` to `most`.
pub fn number_in(most: u64, bytes: &[u8]) -> Option<i64>
    requires { most ≤ 2 ^ 63 - 1 }
    ensures { result ≡ number_in most bytes.now }
{
    match bytes {
        [b'-', digits @ ..] => match digits_value(digits) {
            Some(number) => lowered(most, number),
            None => None,
        },
        _ => match digits_value(bytes) {
            Some(number) => raised(most, number),
            None => None,
        },
    }
}
