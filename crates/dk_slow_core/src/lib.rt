//! The plain core as a slow program over plain lists.
//!
//! `dk_core` defines the core: what an event makes of it, which event may come, and what a session reads. Here it runs:
//! a `Core` is seen by contracts as a core of these definitions, and each of its calls does what the definition of its
//! name says. It keeps the commits and makes a database from them wherever one is asked for, so it is slow; a faster
//! core is compared with it. A call that finds no memory changes nothing. Whether an event may come is the caller's to
//! know.
//!
//! The parts, in the order of reading: what an event tells (`outcome`), the core and its events, each in a call of its
//! own (`plain_core`), an event of whichever kind (`steps`), and what a session reads (`reads`). The crate stands on
//! `dk_slow_state` and `dk_slow_seats`, which have the parts of the core, on `dk_core`, and on `dk_states` and `dk_plain`,
//! which compute what the machine's definitions say.
#![tactic(auto)]

pub mod outcome;
pub mod plain_core;
pub mod reads;
pub mod steps;

pub use outcome::Outcome;
pub use plain_core::Core;
