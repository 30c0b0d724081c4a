//! The text of a statement, bound to the tables of a view.
//!
//! `bind_text` reads a text and binds what it is. Its answer is that of `specs/Texts.antt`: the bound statement, or the
//! one refusal that the text has, be it of its grammar or of its names and kinds.
//!
//! The crate stands on the texts of `dk_sql`, the binding of `dk_bind`, the tree of tables of `dk_pages`, and the bound
//! statements and refusals of `dk_types`; its tests on the lists of `dk_values` too.
#![tactic(auto)]

#[cfg(test)]
mod refused_tests;
#[cfg(test)]
mod scene;
mod texts;

pub use texts::bind_text;
