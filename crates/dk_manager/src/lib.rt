//! The manager: which transactions are alive, which commits are pending, and which versions nobody can miss any more.
//!
//! It gives a transaction its identifier and its snapshot, and a commit its number. From its number on a commit is
//! pending until all its versions are stamped: a snapshot that is taken meanwhile sees them all the same, since it
//! notes the pending commits of its moment. The bound is the oldest start of a live snapshot: what every commit up to
//! it replaced is missed by nobody. Begin, commit and bound are those of Neumann, Mühlbauer and Kemper's versions in
//! memory, without their lists: sessions are few, so each has a fixed place.
//!
//! A contract sees the manager as its state (`ManagerState`): the last commit's number, the transactions begun, the
//! committed rows, and the live snapshot of each session. None of its calls takes memory. The crate stands on
//! `dk_stamp` and `dk_types`.
#![tactic(auto)]

pub mod laws;
mod live;
mod manager;
#[cfg(test)]
mod tests;

pub use live::LiveSnapshot;
pub use manager::{MAX_ROWS, MAX_TRANSACTIONS, Manager, OPEN_ROWS};
