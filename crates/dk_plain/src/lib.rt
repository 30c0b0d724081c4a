//! What a transaction sees and changes, by a plain, slow program: the database behind commits, the view of a
//! transaction, how its changes join, which commits changed a row, how long the log's record of changes is, and whether
//! they are too large.
//!
//! Each function is proved to give what the definition of its name in `dk_si` says. `dk_states`, above, has the states
//! that come of it. The crate stands on `dk_si`, and on `dk_fault` for sums that end at the greatest number.
#![tactic(auto)]

pub mod database;
pub mod log;
pub mod nets;
pub mod runs;
pub mod size;
pub mod slices;
pub mod weights;
pub mod writers;

pub use log::{CommitLog, Inside};
