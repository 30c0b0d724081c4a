//! Histories of one thread, in which the entries of each call stand together.
//!
//! Each list of calls has one: the history that `answer` gives is legal, and it is the only one,
//! moments, faults and stops aside (`one_thread`). So on one thread the replies are a function of
//! the calls. It stands on `dk_laws` and `dk_si`, and nothing in it runs.
#![tactic(auto)]

pub mod one_thread;
