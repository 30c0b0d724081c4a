//! A call to the outside that failed, and the count in which it shows.
//!
//! A source, a sink and a disk each count how often they have failed. The count never falls, and a fault is answered
//! only where it rose, so that a caller's contract can say that no fault is made up. The count stands still at the
//! greatest number of 64 bits; there each fault is believed. The crate stands on std and `thiserror`.
#![tactic(auto)]

mod count;
mod failed;
#[cfg(test)]
mod tests;

pub use count::{capped_sum, next_count};
pub use failed::Failed;
