//! Statements whose names are looked up and whose kinds fit, or the first refusal by its place in the text.
//!
//! `bind` gives what `specs/Statements.antt` says of a statement and the tables of a view, which are 64 at most: the
//! bound statement, or the first refusal. The tables are looked up first, then the parts are bound in the order of the
//! text: of an operator the left side, the right side, and then whether it takes both. What comes behind a refusal
//! isn't looked at.
//!
//! The crate stands on the statements of `dk_syntax`, the bound statements of `dk_types`, the tree of tables of
//! `dk_pages`, the rows of `dk_rows`, the values of `dk_values`, and on `thiserror`.
#![tactic(auto)]

mod expressions;
mod fault;
mod kinds;
pub mod laws;
mod lists;
mod queries;
mod statements;

pub use expressions::{Typed, bind_expr};
pub use fault::BindError;
pub use kinds::Kind;
pub use statements::{MAX_TABLES, bind};
