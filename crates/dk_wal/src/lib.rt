//! The write-ahead log: commits as records, the log read, and the calls that change it, with what a crash leaves.
//!
//! A record is a payload behind its length and its checksum. `specs/Payload.antt` says which commits are in the grammar
//! with the tables that are there, which bytes each has, and how bytes are read again. `record_of` gives exactly these
//! bytes, `payload_len` tells how many the payload has, and `read_payload` answers a commit exactly where its payload
//! stands, and else a fault. Whether the rows and groups that a payload names are there is not looked at.
//!
//! `scan` reads a log from its header to the first place where no record stands whole (`specs/Logs.antt` has the grammar
//! of a log, `specs/LogReading.antt` the reading). `append`, `reset` and `cut_tail` change it, and each says what a crash
//! at each moment inside may leave of it (`specs/Crashes.antt`): what the log said, or that and the one record; an empty
//! or a stale log; the same. `specs/Chance.antt` says when a torn record matches by chance. Stands on the fields of
//! `dk_bytes`, the header of `dk_header`, the disk of `dk_device`, the commits and tables of `dk_pages`, and the rows of
//! `dk_rows`.
#![tactic(auto)]

mod changes;
#[cfg(test)]
mod disk_tests;
mod each;
mod front;
mod limits;
mod log_header;
mod log_scan;
mod part;
mod payload_size;
mod put;
mod read;
mod records;
#[cfg(test)]
mod scan_tests;
mod scanning;
mod shared_ids;
#[cfg(test)]
mod tests;

pub use changes::{append, cut_tail, reset};
pub use limits::{FRAME_BYTES, GROUP_ROWS, MAX_TABLES, MOST_PAYLOAD};
pub use log_scan::{LogError, Scan};
pub use payload_size::payload_len;
pub use read::read_payload;
pub use records::record_of;
pub use scanning::scan;
