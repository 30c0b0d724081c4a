//! The three headers at the front of the main file, and the header of the log.
//!
//! The main header has the version; of the two database headers the open one with the higher iteration is current.
//! Each is read and written exactly by its layout, and each refusal has the numbers that show it. The header of the
//! log stands here for all that write one. Stands on the checksum and on the kinds of damage.
#![tactic(auto)]

mod choice;
mod decode;
mod encode;
mod header;
mod log;
#[cfg(test)]
mod tests;

pub use choice::choose;
pub use decode::{read_main, version_of};
pub use encode::{body_of, main_header};
pub use header::{
    BODY_BYTES, CLOSED_GATE, Current, DbHeader, HEADER_BYTES, MOST_ITERATIONS, MainFault, NO_ROOT,
    OPEN_GATE, SUM_BYTES, VERSION,
};
pub use log::{LOG_HEADER_BYTES, LOG_MAGIC, log_header};
