//! Queries as a statement's text has them.
use crate::expression::Expr;
use dk_values::{Bytes, List, OutOfMemory, TryCopy};

/// A name and its place, a byte of the statement's text.
///
/// A name has 1 to 63 bytes, and its letters are folded to lower case.
#[derive(Debug, Drop, PartialEq)]
pub struct Spot {
    pub at: u32,
    pub name: Bytes,
}

pub type Spots = List<Spot>;

impl TryCopy for Spot {
    fn copy(&self) -> Result<Spot, OutOfMemory> {
        Ok(Spot {
            at: self.at,
            name: self.name.copy()?,
        })
    }
}

/// An aggregate over one expression.
#[derive(Clone, Copy, Debug, PartialEq, Eq)]
pub enum FoldKind {
    Count,
    Sum,
    Min,
    Max,
}

/// A column of a query's result.
#[derive(Debug, Drop, PartialEq)]
pub enum Item {
    Plain(Expr),
    /// `count(*)`. The place is that of the word.
    CountAll { at: u32 },
    /// An aggregate, its place that of its word.
    Fold { kind: FoldKind, at: u32, of: Expr },
}

pub type ItemList = List<Item>;

impl TryCopy for Item {
    fn copy(&self) -> Result<Item, OutOfMemory> {
        match self {
            Item::Plain(expr) => Ok(Item::Plain(expr.copy()?)),
            Item::CountAll { at } => Ok(Item::CountAll { at: *at }),
            Item::Fold { kind, at, of } => Ok(Item::Fold {
                kind: *kind,
                at: *at,
                of: of.copy()?,
            }),
        }
    }
}

/// The columns of a query's result: all of the table's for `*`, or those that are listed.
#[derive(Debug, Drop, PartialEq)]
pub enum Items {
    All { at: u32 },
    Listed(ItemList),
}

impl TryCopy for Items {
    fn copy(&self) -> Result<Items, OutOfMemory> {
        match self {
            Items::All { at } => Ok(Items::All { at: *at }),
            Items::Listed(items) => Ok(Items::Listed(items.copy()?)),
        }
    }
}

/// A column of ORDER BY.
#[derive(Debug, Drop, PartialEq)]
pub struct Key {
    pub column: Spot,
    pub descending: bool,
}

pub type Keys = List<Key>;

impl TryCopy for Key {
    fn copy(&self) -> Result<Key, OutOfMemory> {
        Ok(Key {
            column: self.column.copy()?,
            descending: self.descending,
        })
    }
}

/// A SELECT over one table. `groups` are the columns of GROUP BY and `keys` those of ORDER BY.
#[derive(Debug, Drop, PartialEq)]
pub struct Query {
    pub items: Items,
    pub table: Spot,
    pub filter: Option<Expr>,
    pub groups: Spots,
    pub keys: Keys,
    pub limit: Option<u64>,
}

impl TryCopy for Query {
    fn copy(&self) -> Result<Query, OutOfMemory> {
        Ok(Query {
            items: self.items.copy()?,
            table: self.table.copy()?,
            filter: self.filter.copy()?,
            groups: self.groups.copy()?,
            keys: self.keys.copy()?,
            limit: self.limit,
        })
    }
}
