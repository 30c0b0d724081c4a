//! A row group with the versions of its rows in place.
//!
//! A contract tells of one row by its stack (`specs/Stacks.antt`): its newest values, its nodes, newest first, and its
//! two stamps. What a reader sees of it is told over any test on stamps, and so are the laws (`laws`): what a session
//! does leaves what another one reads, wherever the other sees the stamps that are there alike before and after. It
//! stands on `dk_version` and `dk_chain`.
#![tactic(auto)]

pub mod laws;
mod pages;
mod vector;
mod writes;

pub use vector::{Blocked, Vector};
