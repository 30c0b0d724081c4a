//! Stamps of versions, and which of them a snapshot sees.
//!
//! A stamp is a number: 0 for what the file held at opening, `n` for commit n of this opening, `2^62 + k` for
//! transaction k, counted from 0, while it has no commit number, and `2^64 - 1`, [`NEVER`], for what did not happen:
//! a row that is not deleted, or that is not there. A contract tells which stamps are seen by a predicate on stamps,
//! and [`Snapshot`] is one such predicate. None of these functions takes memory. The crate stands on `thiserror`.
#![tactic(auto)]

mod error;
pub mod laws;
mod snapshot;
#[cfg(test)]
mod tests;

pub use error::GroupError;
pub use snapshot::{FIRST_ID, NEVER, Pending, SESSIONS, Snapshot};
