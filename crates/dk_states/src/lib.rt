//! The machine of `dk_si` as a plain, slow program: what a statement means in a transaction, what it changes there, and
//! the state behind each entry.
//!
//! Each function is proved to give what the definition of its name in `dk_si` says. `dk_legal`, above, decides with
//! these whether a history is legal. A statement is bound by `dk_bind`, a query answered by `dk_query`, and rows are
//! updated by the values of `dk_eval`. The crate stands on these, on `dk_pages` for the tables that binding sees, and on
//! `dk_plain`, which has what a transaction sees.
#![tactic(auto)]

pub mod call;
pub mod machine;
pub mod meaning;
mod picks;
mod stored;
