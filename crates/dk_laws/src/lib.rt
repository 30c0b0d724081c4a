//! Laws of the machine of snapshot isolation, over every list of its steps.
//!
//! Statements mean what their kind can be answered by; receipts count the commits; a conflict names
//! a row that the statement changes, and who holds it; sessions leave one another alone (`laws`).
//! Rows, commits and the nets of open transactions fit the databases that they stand in, which is
//! what a record of the log must be (`row_laws`). It stands on `dk_si`, and nothing in it runs.
#![tactic(auto)]

pub mod laws;
pub mod row_laws;
