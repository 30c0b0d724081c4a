//! Scripts: their lines, the statements on them, the replies, and the run that goes from a source to a sink.
//!
//! [`serve::serve`] promises what it prints, to the byte, and the cause of each status: there is a history, legal on one
//! thread, whose calls are what the lines of the script ask, in their order, and what is printed is the texts of its
//! replies, and a last line where something stopped the run. The definitions are in `specs/RunEnds.antt` (how a run
//! ends), `specs/Histories.antt` (what a history prints), `specs/Calls.antt` (what a text asks), `specs/Script.antt` and
//! `specs/GrammarLines.antt` (the lines). So it is for every source and sink, in whatever pieces they give and take.
//! While nothing fails, what is printed is a function of the script ([`laws::outputs_are_one`]).
//!
//! The loop over the lines stands on the trait [`runner::Runner`] alone, whose meaning is the histories that may have
//! been made so far; [`engine_runner`] is the one over the engine in memory of `dk_plain_engine`. Texts are read by
//! `dk_sql`, and what a statement means is the machine's, in `dk_si`. [`plain::plain_output`] writes the texts of a list
//! of answers plainly, to compare with.
//!
//! The crate stands on `dk_plain_engine`, `dk_sql`, on the texts of replies in `dk_texts`, on the laws of `dk_alone` and the
//! machine of `dk_si`, on the types and rows of `dk_types`, `dk_syntax`, `dk_rows` and `dk_values`, on the sources, sinks
//! and lines of `dk_io`, the faults of `dk_fault`, the disk's trait of `dk_device`, and on `itoa`.
#![tactic(auto)]

mod engine_runner;
pub mod laws;
mod line;
mod output;
pub mod plain;
mod run;
pub mod runner;
pub mod serve;
#[cfg(test)]
mod tests;
mod trouble;
