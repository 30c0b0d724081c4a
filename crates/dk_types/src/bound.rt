//! Statements whose names are looked up.
//!
//! Tables and columns are numbers, and places in the text are gone.
ghost use Rattle.std.specs.Prelude.{◌≡◌, IfOk};

use dk_rows::Rows;
use dk_syntax::{Boxed, FoldKind, Op};
use dk_values::{Bytes, List, Offsets, OutOfMemory, Schema, TryCopy, Value};

/// An expression over the columns of one table.
#[derive(Debug, Drop, PartialEq)]
pub enum BoundExpr {
    Lit(Value),
    Col(u16),
    /// Unary `-`.
    Neg(Boxed<BoundExpr>),
    Not(Boxed<BoundExpr>),
    /// IS NULL, or IS NOT NULL where it is negated.
    IsNull {
        of: Boxed<BoundExpr>,
        negated: bool,
    },
    Two {
        op: Op,
        left: Boxed<BoundExpr>,
        right: Boxed<BoundExpr>,
    },
}

impl TryCopy for BoundExpr {
    #[cycle(copy)]
    fn copy(&self) -> Result<BoundExpr, OutOfMemory> {
        match self {
            BoundExpr::Lit(value) => Ok(BoundExpr::Lit(value.copy()?)),
            BoundExpr::Col(column) => Ok(BoundExpr::Col(*column)),
            BoundExpr::Neg(of) => Ok(BoundExpr::Neg(copy_operand(of)?)),
            BoundExpr::Not(of) => Ok(BoundExpr::Not(copy_operand(of)?)),
            BoundExpr::IsNull { of, negated } => Ok(BoundExpr::IsNull {
                of: copy_operand(of)?,
                negated: *negated,
            }),
            BoundExpr::Two { op, left, right } => Ok(BoundExpr::Two {
                op: *op,
                left: copy_operand(left)?,
                right: copy_operand(right)?,
            }),
        }
    }
}

/// A copy of an operand.
#[cycle(copy)]
fn copy_operand(operand: &Boxed<BoundExpr>) -> Result<Boxed<BoundExpr>, OutOfMemory>
    ensures { IfOk result (λ copied. copied ≡ operand.now) }
{
    operand.another(operand.get().copy()?)
}

/// What an UPDATE puts into a column.
#[derive(Debug, Drop, PartialEq)]
pub struct BoundSet {
    pub column: u16,
    pub value: BoundExpr,
}

pub type BoundSets = List<BoundSet>;

impl TryCopy for BoundSet {
    fn copy(&self) -> Result<BoundSet, OutOfMemory> {
        Ok(BoundSet {
            column: self.column,
            value: self.value.copy()?,
        })
    }
}

/// A column of a query's result.
#[derive(Debug, Drop, PartialEq)]
pub enum BoundItem {
    Plain(BoundExpr),
    CountAll,
    Fold { kind: FoldKind, of: BoundExpr },
}

pub type BoundItems = List<BoundItem>;

impl TryCopy for BoundItem {
    fn copy(&self) -> Result<BoundItem, OutOfMemory> {
        match self {
            BoundItem::Plain(expr) => Ok(BoundItem::Plain(expr.copy()?)),
            BoundItem::CountAll => Ok(BoundItem::CountAll),
            BoundItem::Fold { kind, of } => Ok(BoundItem::Fold {
                kind: *kind,
                of: of.copy()?,
            }),
        }
    }
}

/// A column of ORDER BY.
#[derive(Clone, Copy, Debug, PartialEq, Eq)]
pub struct BoundKey {
    pub column: u16,
    pub descending: bool,
}

pub type BoundKeys = List<BoundKey>;

impl TryCopy for BoundKey {
    fn copy(&self) -> Result<BoundKey, OutOfMemory> {
        Ok(*self)
    }
}

/// A SELECT over one table, where `*` is one plain item per column.
///
/// It is grouped where it has GROUP BY or an aggregate.
#[derive(Debug, Drop, PartialEq)]
pub struct BoundQuery {
    pub items: BoundItems,
    pub table: u32,
    pub filter: Option<BoundExpr>,
    pub grouped: bool,
    pub groups: Offsets,
    pub keys: BoundKeys,
    pub limit: Option<u64>,
}

impl TryCopy for BoundQuery {
    fn copy(&self) -> Result<BoundQuery, OutOfMemory> {
        Ok(BoundQuery {
            items: self.items.copy()?,
            table: self.table,
            filter: self.filter.copy()?,
            grouped: self.grouped,
            groups: self.groups.copy()?,
            keys: self.keys.copy()?,
            limit: self.limit,
        })
    }
}

/// A statement whose names are looked up.
#[derive(Debug, Drop, PartialEq)]
pub enum Bound {
    Create {
        name: Bytes,
        schema: Schema,
    },
    Insert {
        table: u32,
        rows: Rows,
    },
    InsertSelect {
        table: u32,
        query: BoundQuery,
    },
    Copy {
        table: u32,
        bytes: Bytes,
    },
    Select {
        query: BoundQuery,
    },
    Update {
        table: u32,
        sets: BoundSets,
        filter: Option<BoundExpr>,
    },
    Delete {
        table: u32,
        filter: Option<BoundExpr>,
    },
    /// BEGIN, COMMIT, ROLLBACK or CHECKPOINT.
    Other,
}

impl TryCopy for Bound {
    fn copy(&self) -> Result<Bound, OutOfMemory> {
        match self {
            Bound::Create { name, schema } => Ok(Bound::Create {
                name: name.copy()?,
                schema: schema.copy()?,
            }),
            Bound::Insert { table, rows } => Ok(Bound::Insert {
                table: *table,
                rows: rows.copy()?,
            }),
            Bound::InsertSelect { table, query } => Ok(Bound::InsertSelect {
                table: *table,
                query: query.copy()?,
            }),
            Bound::Copy { table, bytes } => Ok(Bound::Copy {
                table: *table,
                bytes: bytes.copy()?,
            }),
            Bound::Select { query } => Ok(Bound::Select {
                query: query.copy()?,
            }),
            Bound::Update {
                table,
                sets,
                filter,
            } => Ok(Bound::Update {
                table: *table,
                sets: sets.copy()?,
                filter: filter.copy()?,
            }),
            Bound::Delete { table, filter } => Ok(Bound::Delete {
                table: *table,
                filter: filter.copy()?,
            }),
            Bound::Other => Ok(Bound::Other),
        }
    }
}
