//! The text of each reply, to the byte.
//!
//! `specs/Texts.antt` gives the text of a reply and `specs/Fields.antt` that of a value; the functions here put pieces of
//! such a text behind what a buffer already holds. A line of a result is a record of comma-separated fields, as the
//! default writer of the `csv` library writes it ([`laws::lines_are_records_of_csv`]): null is an empty field, a text
//! stands between quotes where it has a comma, a quote or an end of line, with each quote in it doubled, and a line that
//! would be empty is two quotes.
//!
//! The crate stands on the replies of `dk_types`, the rows of `dk_rows`, the values of `dk_values`, on `itoa`, and on
//! the definitions of `csv`.
#![tactic(auto)]

mod fields;
pub mod laws;
mod pieces;
mod refusals;
mod row_lines;
#[cfg(test)]
mod tests;

pub use pieces::{put, put_counted, put_number};
pub use refusals::put_refusal;
pub use row_lines::put_row;
