//! What a bound expression is worth on a row.
//!
//! Logic is three-valued by Kleene, a comparison or arithmetic with null is null, and arithmetic has the range of 64
//! bits. `eval` answers the value that `specs/Values.antt` gives, and `OutOfRange` exactly where that gives none. Both
//! sides of an operator are always evaluated. An `Accumulator` is an aggregate over the values that it took, by
//! `specs/Aggregates.antt`; `laws` tells in one line each what count and sum come to.
//!
//! The crate stands on the bound expressions of `dk_types`, the operators of `dk_syntax`, the values of `dk_values`, and
//! on `thiserror`.
#![tactic(auto)]

mod aggregates;
mod comparisons;
mod expressions;
mod fault;
mod kinds;
pub mod laws;
mod logic;
mod numbers;
#[cfg(test)]
mod tests;

pub use aggregates::Accumulator;
pub use comparisons::compare;
pub use expressions::eval;
pub use fault::EvalError;
pub use kinds::is_true;
