//! The plain core: the machine of snapshot isolation over events.
//!
//! A session's call is answered by many small events, and events of other sessions may stand between any two of them: a
//! change makes a version of its rows, a commit puts its new rows into groups, makes its point, and then stamps its
//! versions one by one. The core (`Core`) has the machine's state as a part and steps it by the machine's own `next`;
//! beside it stands a seat for each session: its snapshot, the versions that it has not stamped or undone, those since
//! its call, and what an event of the call refused.
//!
//! The definitions stand in `specs`, in the order of reading: where rows stand (`Layout`), the core (`Core`), who made
//! the newest version of a row (`Findings`), what a Change may have (`Changes`), what a reply asks of the events before
//! it (`Replies`), how a commit goes (`Commits`), which event is an entry of the machine (`Entries`), which event may
//! come (`Allows`), what it makes of the core (`Step`), what a session reads (`Reading`), what holds of snapshots and
//! versions (`Versions`), and what is proved (`Laws`).
//!
//! No event asks whether a row is held: that the machine then allows the entry is proved (`laws`). It stands on
//! `dk_si`.
#![tactic(auto)]

pub mod event;
pub mod laws;
pub mod layout;
pub mod seat;

pub use event::{Done, Event};
pub use seat::{NewTable, Seat, Snapshot};
