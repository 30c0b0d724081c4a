//! The text of a statement: its tokens, its grammar, and the syntax tree that it is.
//!
//! [`parse`] reads a statement, or answers the place of the text's first fault, and its contract says exactly which, by
//! the definitions of `specs/Statements.antt`: each rule of the grammar is a reader over the bytes that are left, in the
//! order of the files `Tokens`, `Lists`, `Expressions`, `Queries` and `Statements`. No word is copied to be compared,
//! and nothing is read by recursion but what an expression nests, which is limited.
//!
//! The crate stands on the trees of `dk_syntax`, the values and names of `dk_values`, and on `thiserror`.
#![tactic(auto)]

mod expressions;
mod fault;
mod lists;
mod queries;
#[cfg(test)]
mod show;
mod statements;
#[cfg(test)]
mod tests;
mod tokens;

pub use fault::ParseError;
pub use statements::parse;
