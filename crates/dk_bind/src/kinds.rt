//! The kinds of values, and which of them an operator takes.
ghost use Rattle.std.specs.Prelude.{◌≡◌};
ghost use Rattle.dk_bind.specs.Expressions.{kind_of_type, kind_of_value, fits, are_alike, takes, kind_of_result, is_too_long};

use dk_syntax::Op;
use dk_values::{ColType, Value};

/// How many bytes a text may have.
pub const MAX_TEXT: usize = 65_535;

/// What values are to operators and columns.
#[derive(Clone, Copy, Debug, PartialEq, Eq)]
pub enum Kind {
    Truth,
    Number,
    Text,
    /// NULL, which fits every kind.
    Null,
}

pub fn kind_of_type(kind: ColType) -> Kind
    ensures { result ≡ kind_of_type kind }
{
    match kind {
        ColType::Bool => Kind::Truth,
        ColType::Int | ColType::Big => Kind::Number,
        ColType::Text => Kind::Text,
    }
}

pub fn kind_of_value(value: &Value) -> Kind
    ensures { result ≡ kind_of_value value.now }
{
    match value {
        Value::Null => Kind::Null,
        Value::Bool(_) => Kind::Truth,
        Value::Text(_) => Kind::Text,
        Value::Int(_) | Value::Big(_) | Value::Huge(_) => Kind::Number,
    }
}

/// Whether a value of a kind that was found stands for one that is wanted.
pub fn fits(wanted: Kind, found: Kind) -> bool
    ensures { result ≡ fits wanted found }
{
    match found {
        Kind::Null => true,
        Kind::Truth => matches!(wanted, Kind::Truth),
        Kind::Number => matches!(wanted, Kind::Number),
        Kind::Text => matches!(wanted, Kind::Text),
    }
}

/// Whether two sides of a comparison have one kind.
fn are_alike(left: Kind, right: Kind) -> bool
    ensures { result ≡ are_alike left right }
{
    fits(left, right) || fits(right, left)
}

/// Whether an operator takes operands of these kinds.
pub fn takes(op: Op, left: Kind, right: Kind) -> bool
    ensures { result ≡ takes op left right }
{
    match op {
        Op::Or | Op::And => fits(Kind::Truth, left) && fits(Kind::Truth, right),
        Op::Add | Op::Sub | Op::Mul => fits(Kind::Number, left) && fits(Kind::Number, right),
        Op::Eq | Op::Ne | Op::Lt | Op::Le | Op::Gt | Op::Ge => are_alike(left, right),
    }
}

pub fn kind_of_result(op: Op) -> Kind
    ensures { result ≡ kind_of_result op }
{
    match op {
        Op::Add | Op::Sub | Op::Mul => Kind::Number,
        _ => Kind::Truth,
    }
}

/// Whether a literal is a text of more bytes than any column takes.
pub fn is_too_long(value: &Value) -> bool
    ensures { result ≡ is_too_long value.now }
{
    match value {
        Value::Text(bytes) => bytes.len() > MAX_TEXT,
        _ => false,
    }
}
