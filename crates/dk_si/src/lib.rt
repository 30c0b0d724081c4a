//! The machine of snapshot isolation: what sessions may be answered, on plain lists of rows.
//!
//! The definitions in `specs` are what the product is measured by: the database and its commits (`Database`), a
//! transaction's changes (`Nets`), the length of their log record (`Weight`) and how large they may be (`Size`), values as
//! columns hold them (`Stored`), the rows that are updated or deleted (`Picked`), what a statement means (`Meaning`: what
//! it is bound to, on the rows of its tables), the machine's state and what each entry makes of it (`Machine`), rows held against a
//! transaction (`HeldRows`), what a call may be answered by what its session knows (`MayAnswer`), the step (`IsStep`),
//! legal histories (`IsLegal`), stops and iterations carried from entry to entry (`Standing`), and histories of one thread
//! (`OneThread`, `Answer`). Three look into a statement: `Meaning`, the `LawfulStatements` of `dk_syntax`, and `kind_of` of
//! `Machine`; all others ask these.
//!
//! What holds of each list of steps stands in `laws`: the commits that a transaction sees stay as they are, each front
//! of a legal history is legal, and of two overlapping transactions that change one row never both commit. Further laws
//! are in `dk_laws` and, of one thread, in `dk_alone`; the program that decides whether a history is legal is `dk_legal`:
//! all three above this crate. It stands on the definitions of binding in `dk_bind`, of queries in `dk_query` and of values
//! in `dk_eval`, on the tree of tables of `dk_pages`, and on `dk_types`.
#![tactic(auto)]

pub mod database;
pub mod exchange;
pub mod history;
pub mod kind;
pub mod laws;
pub mod limits;
pub mod machine;
pub mod meaning;
pub mod names;
mod needs;
pub mod replies;
pub mod row_laws;
pub mod standing;

pub use database::{Database, Table};
pub use history::{Asked, Entries, Entry};
pub use limits::MAX_TABLES;
pub use meaning::Meaning;
