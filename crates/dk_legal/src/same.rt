//! Whether rows are the same, value by value.
ghost use Rattle.std.specs.Prelude.{◌≡◌, Bool};
ghost use lib.Pointwise.{pointwise};
ghost use Rattle.dk_si.specs.Meaning.{same_value, same_rows};

use dk_types::{Row, Value};

/// What is compared with another of its type.
pub trait Same {
    ghost same: { Self → Self → Bool };

    fn same(&self, other: &Self) -> bool
        ensures { result ≡ same self.now other.now };
}

fn all_same<T: Same>(items: &[T], others: &[T]) -> bool
    ensures { result ≡ pointwise T.same items.now others.now }
{
    let mut left = items;
    let mut right = others;
    'items: while let ([item, more @ ..], [other, others @ ..]) = (left, right) {
        if !item.same(other) {
            return false;
        }
        left = more;
        right = others;
    }
    left.is_empty() && right.is_empty()
}

impl Same for Value {
    ghost use Rattle.dk_si.specs.Meaning.{same_value};

    ghost same = { same_value };

    fn same(&self, other: &Value) -> bool {
        match (self, other) {
            (Value::Null, Value::Null) => true,
            (Value::Bool(a), Value::Bool(b)) => *a == *b,
            (Value::Int(a), Value::Int(b)) => *a == *b,
            (Value::Big(a), Value::Big(b)) => *a == *b,
            (Value::Text(a), Value::Text(b)) => a.as_slice() == b.as_slice(),
            (Value::Huge(a), Value::Huge(b)) => *a == *b,
            _ => false,
        }
    }
}

impl Same for Row {
    ghost use lib.Pointwise.{pointwise};
    ghost use Rattle.dk_si.specs.Meaning.{same_value};

    ghost same = { pointwise same_value };

    fn same(&self, other: &Row) -> bool {
        all_same(self.as_slice(), other.as_slice())
    }
}

/// Whether these are the same rows in the same order.
pub fn same_rows(rows: &[Row], others: &[Row]) -> bool
    ensures { result ≡ same_rows rows.now others.now }
{
    all_same(rows, others)
}
