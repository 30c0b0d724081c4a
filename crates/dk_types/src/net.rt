//! What a transaction changes, and what a commit is.
ghost use Rattle.std.specs.Prelude.{◌≡◌, ◌<◌, ◌++◌, ◌∷◌, ◌↔◌, [], true, Some, length, slice_get, IsTrue, IfOk, OnOk, OnErr};
ghost use Rattle.dk_types.specs.Nets.{IsNet, all_below, changes};

use dk_rows::Rows;
use dk_values::{Bytes, Ids, List, OutOfMemory, Row, Schema, TryCopy};
use std::alloc::Global;
use std::marker::Model;

/// Row ids with the new rows in their places.
pub type Updates = List<(u64, Row)>;

/// What a transaction changes in one table: rows that get new values, rows that go, and new rows in their order.
///
/// Updates and deletes ascend by row id and share none.
#[derive(Debug, Drop, PartialEq)]
pub struct TableNet {
    pub table: u32,
    pub updates: Updates,
    pub deletes: Ids,
    pub rows: Rows,
}

impl TableNet {
    /// Whether it changes something.
    pub fn changes(&self) -> bool
        ensures { result ≡ changes self.now }
    {
        !(self.updates.is_empty() && self.deletes.is_empty() && self.rows.is_empty())
    }
}

impl TryCopy for TableNet {
    fn copy(&self) -> Result<TableNet, OutOfMemory> {
        Ok(TableNet {
            table: self.table,
            updates: self.updates.copy()?,
            deletes: self.deletes.copy()?,
            rows: self.rows.copy()?,
        })
    }
}

pub type TableNets = List<TableNet>;

/// What a transaction changes in all: a part for each table that it changes, ascending by table.
#[derive(Debug, Drop)]
pub struct Net {
    parts: TableNets,
}

impl Model for Net {
    ghost use Rattle.std.specs.Prelude.{List};
    ghost use Rattle.std.specs.Coded.{coded_list};
    ghost use Rattle.dk_types.specs.declared.net.TableNet.{TableNet};
    ghost use Rattle.dk_types.specs.Nets.{IsNet};

    ghost Value = { List TableNet };

    ghost view = { λ net. net.parts };

    ghost invariant = { λ net. IsNet net.parts };
}

impl Net {
    /// A net that changes nothing. It takes no memory yet.
    pub fn new(alloc: Global) -> Net
        ensures { result ≡ [] }
    {
        Net {
            parts: List::new(alloc),
        }
    }

    /// Takes parts as a net, in place.
    pub fn from_vec(parts: Vec<TableNet>) -> Net
        requires { IsNet parts.items }
        ensures { result ≡ parts.items }
    {
        Net {
            parts: List::from_vec(parts),
        }
    }

    pub fn as_slice(&self) -> &[TableNet]
        ensures parts { result.now ≡ self.now }
        ensures lawful { IsNet self.now }
    {
        let _ = &self.parts;
        self.parts.as_slice()
    }

    pub fn len(&self) -> usize
        ensures { result ≡ length self.now }
    {
        self.parts.len()
    }

    pub fn is_empty(&self) -> bool
        ensures { IsTrue result ↔ (self.now ≡ []) }
    {
        self.parts.is_empty()
    }

    /// Lends the i-th part, counted from 0.
    pub fn get(&self, i: usize) -> &TableNet
        requires { i < length self.now }
        ensures { slice_get self.now i ≡ Some result.now }
    {
        self.parts.get(i)
    }

    /// Adds the changes of a further table, which stands behind those that are there.
    pub fn push(&mut self, part: TableNet) -> Result<(), OutOfMemory>
        requires changes { changes part ≡ true }
        requires above { all_below part.table self.old ≡ true }
        ensures ok { OnOk result (self.new ≡ self.old ++ part ∷ []) }
        ensures err { OnErr result (self.new ≡ self.old) }
    {
        self.parts.push(part)
    }
}

impl TryCopy for Net {
    fn copy(&self) -> Result<Net, OutOfMemory> {
        Ok(Net {
            parts: self.parts.copy()?,
        })
    }
}

impl PartialEq for Net {
    ghost use Rattle.std.specs.Cmp.Lexicographic.{lists_per};
    ghost use Rattle.dk_types.specs.contracts.net.TableNetPartialEq.TheImpl.Laws.{laws-law};

    ghost eq = { λ x y. ⟦<TableNets as PartialEq>⟧.eq x y };

    ghost laws = { lists_per laws-law };

    fn eq(&self, other: &Net) -> bool {
        self.parts == other.parts
    }
}

/// What a commit does: it creates an empty table behind the others, or changes rows.
#[derive(Debug, Drop, PartialEq)]
pub enum Commit {
    Create { name: Bytes, schema: Schema },
    Change { net: Net },
}

impl TryCopy for Commit {
    fn copy(&self) -> Result<Commit, OutOfMemory> {
        match self {
            Commit::Create { name, schema } => Ok(Commit::Create {
                name: name.copy()?,
                schema: schema.copy()?,
            }),
            Commit::Change { net } => Ok(Commit::Change { net: net.copy()? }),
        }
    }
}
