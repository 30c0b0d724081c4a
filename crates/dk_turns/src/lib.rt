//! Turns: who holds which part of what threads share, and one history for all their events.
//!
//! There are 67 turns, each with a part, and a clock. A `Pass` is a session's seat: it takes turns, changes their
//! parts and makes events. Each event is one atomic step of the clock, which gives it its place, and is made while
//! the turn of the part that it changes is held.
//!
//! Promised, for every `Shared`: the fact that it states, on the key, all events by place and all parts, holds
//! between any two steps; each place belongs to one event of one pass, above all places that the pass had seen; a
//! turn's word says "taken" exactly where one pass holds it (`taken_by_one`); `try_take` answers `None` exactly
//! where the word said "taken" at its one step; a lasting fact that a pass noted, which may depend on the pass's
//! own events before and since, still holds of the part when the pass takes the turn again; and `close` gives back
//! parts that meet the fact for the key that the turns were made with, and the one history, in which each event
//! stands at its place, as many places as events. Nothing is promised of waiting, fairness or deadlock.
//!
//! It stands on the words and slots of `atomic_table`, and takes memory only in `new`.
#![tactic(auto)]

mod acquire;
mod clock;
mod knowledge;
mod layout;
mod lifecycle;
mod part_mut;
mod pass;
mod rule;
mod shared;
mod spare;
mod steps;
mod turns;

pub use knowledge::{EndedPass, Event, Knowledge, MidStep, Observation};
pub use layout::TURNS;
pub use pass::{Held, Pass};
pub use rule::taken_by_one;
pub use shared::Shared;
pub use turns::Turns;

#[cfg(test)]
mod tests;
#[cfg(test)]
mod ticket_tests;
