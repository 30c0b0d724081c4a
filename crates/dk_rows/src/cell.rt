//! A value that is lent.
ghost use Rattle.std.specs.Prelude.{◌≡◌, ◌↔◌, IsTrue, IfOk};
ghost use Rattle.dk_rows.specs.Cells.{value_of};

use dk_values::{List, OutOfMemory, Value};
use std::alloc::Global;

/// A value whose text is lent. `value_of` says which value it stands for.
#[derive(Clone, Copy, Debug)]
pub enum Cell<'a> {
    Null,
    Bool(bool),
    Int(i32),
    Big(i64),
    Text(&'a [u8]),
    Huge(i128),
}

impl<'a> Cell<'a> {
    /// Lends a value.
    pub fn of(value: &'a Value) -> Cell<'a>
        ensures { value_of result ≡ value.now }
    {
        match value {
            Value::Null => Cell::Null,
            Value::Bool(truth) => Cell::Bool(*truth),
            Value::Int(number) => Cell::Int(*number),
            Value::Big(number) => Cell::Big(*number),
            Value::Text(bytes) => Cell::Text(bytes.as_slice()),
            Value::Huge(number) => Cell::Huge(*number),
        }
    }

    /// A value of its own. Only a text takes memory.
    pub fn to_value(&self, alloc: Global) -> Result<Value, OutOfMemory>
        ensures { IfOk result (λ value. value ≡ value_of self.now) }
    {
        match self {
            Cell::Null => Ok(Value::Null),
            Cell::Bool(truth) => Ok(Value::Bool(*truth)),
            Cell::Int(number) => Ok(Value::Int(*number)),
            Cell::Big(number) => Ok(Value::Big(*number)),
            Cell::Text(text) => Ok(Value::Text(List::from_vec(Vec::from_slice(alloc, text)?))),
            Cell::Huge(number) => Ok(Value::Huge(*number)),
        }
    }

    /// Whether the cells stand for the same value.
    pub fn is_same(&self, other: &Cell<'_>) -> bool
        ensures { IsTrue result ↔ (value_of self.now ≡ value_of other.now) }
    {
        match (self, other) {
            (Cell::Null, Cell::Null) => true,
            (Cell::Bool(ours), Cell::Bool(theirs)) => ours == theirs,
            (Cell::Int(ours), Cell::Int(theirs)) => ours == theirs,
            (Cell::Big(ours), Cell::Big(theirs)) => ours == theirs,
            (Cell::Text(ours), Cell::Text(theirs)) => *ours == *theirs,
            (Cell::Huge(ours), Cell::Huge(theirs)) => ours == theirs,
            _ => false,
        }
    }

    /// Whether the cell stands for this value.
    pub fn is_value(&self, value: &Value) -> bool
        ensures { IsTrue result ↔ (value_of self.now ≡ value.now) }
    {
        self.is_same(&Cell::of(value))
    }
}
