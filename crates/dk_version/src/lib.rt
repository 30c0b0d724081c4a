//! The insert and the delete stamps of the rows of one vector.
//!
//! A row is there for a reader that sees its insert stamp and not its delete stamp. [`Stamps`] has both for each row of
//! a vector. Where all rows have the same two, as after rows were put in by one transaction, they are kept once. Room
//! for stamps of their own is made by `split`, before rows are deleted, and for rows to come by `add_spare`: a spare row
//! has the insert stamp that nobody sees. All else takes no memory. Stands on `dk_stamp` and on the
//! places of `dk_types`.
#![tactic(auto)]

mod stamps;
#[cfg(test)]
mod tests;
mod version;

pub use stamps::{Kept, Stamp, Stamps};
pub use version::{Version, VersionKind};
