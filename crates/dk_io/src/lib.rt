//! The outside of the store: where bytes come from, where they go, and where a run may be held up.
//!
//! A [`Source`] and a [`Sink`] say what they have left and what they took, where they tell it, and count their faults,
//! so that a caller's contract can say that a fault is answered only where one was met. The two in memory fail at the
//! calls that a test lists; the two over the runtime tell nothing of content. [`write_all`] and the line reader of
//! [`lines`] stand on the traits alone. The crate stands on `dk_fault`, std, `memchr` and `thiserror`.
#![tactic(auto)]

mod begun_line;
mod call_plan;
mod host;
pub mod lines;
mod memory;
mod pausing;
mod pieces;
mod streams;
#[cfg(test)]
mod tests;
mod writing;

pub use dk_fault::Failed;
pub use host::StdStream;
pub use memory::{MemorySink, MemorySource};
pub use pausing::{NoPause, Pause, Point};
pub use streams::{Sink, Source};
pub use writing::write_all;
