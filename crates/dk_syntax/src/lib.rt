//! Statements as their texts have them: the syntax trees, with the place of what a refusal may name.
//!
//! A tree is plain data to a contract, with no pointer in it, and a `copy` equals what it copies. Which trees a text can
//! say is told by `specs/LawfulStatements.antt`. `dk_types` gives all of it out again. It stands on `dk_values`, and on the
//! lists and boxes of `sqlite_items`.
#![tactic(auto)]

pub mod boxed;
pub mod expression;
pub mod query;
pub mod statement;
#[cfg(test)]
mod tests;

pub use boxed::Boxed;
pub use expression::{Expr, Exprs, Node, Op, literals};
pub use query::{FoldKind, Item, ItemList, Items, Key, Keys, Query, Spot, Spots};
pub use statement::{ColumnSpot, ColumnSpots, Set, Sets, Statement, Tuple, Tuples};
