//! What stands in a cell of a table, and the types of columns.
use crate::list::{List, OutOfMemory, TryCopy};

/// The type of a column: BOOLEAN, INTEGER of 32 bits, BIGINT of 64 bits, and VARCHAR, a text of at most 65,535 bytes.
#[derive(Clone, Copy, Debug, PartialEq, Eq)]
pub enum ColType {
    Bool,
    Int,
    Big,
    Text,
}

impl TryCopy for ColType {
    fn copy(&self) -> Result<ColType, OutOfMemory> {
        Ok(*self)
    }
}

/// A cell of a row.
#[derive(Debug, Drop, PartialEq)]
pub enum Value {
    Null,
    Bool(bool),
    Int(i32),
    Big(i64),
    /// UTF-8, of at most 65,535 bytes where it is stored.
    Text(Bytes),
    /// The sum of a column. It stands in results alone and is never stored.
    Huge(i128),
}

impl TryCopy for Value {
    fn copy(&self) -> Result<Value, OutOfMemory> {
        match self {
            Value::Null => Ok(Value::Null),
            Value::Bool(truth) => Ok(Value::Bool(*truth)),
            Value::Int(number) => Ok(Value::Int(*number)),
            Value::Big(number) => Ok(Value::Big(*number)),
            Value::Text(bytes) => Ok(Value::Text(bytes.copy()?)),
            Value::Huge(number) => Ok(Value::Huge(*number)),
        }
    }
}

pub type Bytes = List<u8>;

/// One value per column.
pub type Row = List<Value>;

/// Row ids or block numbers.
pub type Ids = List<u64>;

/// Places of rows in a group or a vector, or of columns in a schema.
pub type Offsets = List<u32>;
