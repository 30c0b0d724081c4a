//! Statements as their texts have them, with the names not looked up yet.
use crate::expression::{Expr, Exprs};
use crate::query::{Query, Spot};
use dk_values::{Bytes, ColType, List, OutOfMemory, TryCopy};

/// A column of CREATE TABLE.
#[derive(Debug, Drop, PartialEq)]
pub struct ColumnSpot {
    pub column: Spot,
    pub kind: ColType,
}

pub type ColumnSpots = List<ColumnSpot>;

impl TryCopy for ColumnSpot {
    fn copy(&self) -> Result<ColumnSpot, OutOfMemory> {
        Ok(ColumnSpot {
            column: self.column.copy()?,
            kind: self.kind,
        })
    }
}

/// A row of VALUES. The place is that of its `(`, and each value is a literal.
#[derive(Debug, Drop, PartialEq)]
pub struct Tuple {
    pub at: u32,
    pub values: Exprs,
}

pub type Tuples = List<Tuple>;

impl TryCopy for Tuple {
    fn copy(&self) -> Result<Tuple, OutOfMemory> {
        Ok(Tuple {
            at: self.at,
            values: self.values.copy()?,
        })
    }
}

/// What an UPDATE puts into a column.
#[derive(Debug, Drop, PartialEq)]
pub struct Set {
    pub column: Spot,
    pub value: Expr,
}

pub type Sets = List<Set>;

impl TryCopy for Set {
    fn copy(&self) -> Result<Set, OutOfMemory> {
        Ok(Set {
            column: self.column.copy()?,
            value: self.value.copy()?,
        })
    }
}

/// A statement. The data of a COPY stand outside its text and are its `bytes`.
#[derive(Debug, Drop, PartialEq)]
pub enum Statement {
    Create {
        table: Spot,
        columns: ColumnSpots,
    },
    Insert {
        table: Spot,
        tuples: Tuples,
    },
    /// An INSERT of a query's rows. The place is that of the word SELECT.
    InsertSelect {
        table: Spot,
        at: u32,
        query: Query,
    },
    Copy {
        table: Spot,
        bytes: Bytes,
    },
    Select {
        query: Query,
    },
    Update {
        table: Spot,
        sets: Sets,
        filter: Option<Expr>,
    },
    Delete {
        table: Spot,
        filter: Option<Expr>,
    },
    Begin,
    Commit,
    Rollback,
    Checkpoint,
}

impl TryCopy for Statement {
    fn copy(&self) -> Result<Statement, OutOfMemory> {
        match self {
            Statement::Create { table, columns } => Ok(Statement::Create {
                table: table.copy()?,
                columns: columns.copy()?,
            }),
            Statement::Insert { table, tuples } => Ok(Statement::Insert {
                table: table.copy()?,
                tuples: tuples.copy()?,
            }),
            Statement::InsertSelect { table, at, query } => Ok(Statement::InsertSelect {
                table: table.copy()?,
                at: *at,
                query: query.copy()?,
            }),
            Statement::Copy { table, bytes } => Ok(Statement::Copy {
                table: table.copy()?,
                bytes: bytes.copy()?,
            }),
            Statement::Select { query } => Ok(Statement::Select {
                query: query.copy()?,
            }),
            Statement::Update {
                table,
                sets,
                filter,
            } => Ok(Statement::Update {
                table: table.copy()?,
                sets: sets.copy()?,
                filter: filter.copy()?,
            }),
            Statement::Delete { table, filter } => Ok(Statement::Delete {
                table: table.copy()?,
                filter: filter.copy()?,
            }),
            Statement::Begin => Ok(Statement::Begin),
            Statement::Commit => Ok(Statement::Commit),
            Statement::Rollback => Ok(Statement::Rollback),
            Statement::Checkpoint => Ok(Statement::Checkpoint),
        }
    }
}
