//! What a query gives on the rows of its table: its filter, its items, their order and its limit.
//!
//! `select` answers the rows that `specs/Selected.antt` tells, and `OutOfRange` with the id of the first row on which the
//! filter or an item has no value, exactly where there is one. Rows that tie stay in their order.
//!
//! The crate stands on `dk_eval`, which has the values of expressions, the bound queries of `dk_types`, the rows of
//! `dk_rows`, the values of `dk_values`, and on `thiserror`.
#![tactic(auto)]

mod direct;
mod fault;
mod groups;
pub mod laws;
mod lines;
mod order;
mod query;
#[cfg(test)]
mod tests;

pub use fault::QueryError;
pub use lines::{Line, passes};
pub use order::compare_values;
pub use query::select;
