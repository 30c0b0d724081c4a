//! What the crates of the column store speak in: statements, what a transaction changes, replies, damages, statuses.
//!
//! Values and schemas are those of `dk_values`, many rows those of `dk_rows`, and statements as their texts have them
//! those of `dk_syntax`; all are given out again here. A `Net` is always lawful, and a `copy` equals what it copies.
//! It stands on these and on `thiserror`.
#![tactic(auto)]

pub mod bound;
pub mod damage;
pub mod net;
pub mod reply;
pub mod status;
#[cfg(test)]
mod tests;
pub mod vector;

pub use bound::{
    Bound, BoundExpr, BoundItem, BoundItems, BoundKey, BoundKeys, BoundQuery, BoundSet, BoundSets,
};
pub use damage::{Damage, Part};
pub use dk_rows::{Cell, RowRef, Rows};
pub use dk_syntax::{
    Boxed, ColumnSpot, ColumnSpots, Expr, Exprs, FoldKind, Item, ItemList, Items, Key, Keys, Node,
    Op, Query, Set, Sets, Spot, Spots, Statement, Tuple, Tuples, literals,
};
pub use dk_values::{
    Bytes, ColType, Column, Columns, Ids, List, MAX_COLUMNS, MAX_NAME, Offsets, OutOfMemory, Row,
    Schema, SchemaError, TryCopy, Value, is_name,
};
pub use net::{Commit, Net, TableNet, TableNets, Updates};
pub use reply::{Exhausted, Holder, Receipt, Refusal, Reply};
pub use status::Status;
pub use vector::VectorId;
