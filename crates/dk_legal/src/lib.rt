//! Whether a history is legal.
//!
//! A history lists calls, begun transactions and replies. `run_slow` answers whether it is legal: whether each entry is
//! a step of the machine from the state after the entries before it, and whether stops and checkpoints stand as they
//! must over the whole list. `run_slow_alone` answers whether it is a legal history of one thread, in which the entries
//! of each call stand together. What a call may be answered by what its session knows (`answers`), which calls a text can
//! make (`lawful`), and whether rows are the same (`same`) serve `dk_slow_rules` too. Each function is proved to give what
//! the definition of its name in `dk_si` says. The crate stands on `dk_states`, which has the machine's states.
#![tactic(auto)]

#[cfg(test)]
mod acts;
mod alone;
pub mod answers;
mod exchanges;
mod founded;
mod held;
#[cfg(test)]
mod histories;
pub mod lawful;
mod legal;
#[cfg(test)]
mod machine_tests;
mod refusals;
pub mod same;
mod scene;
mod since;
mod step;
#[cfg(test)]
mod tests;

pub use alone::run_slow_alone;
pub use legal::run_slow;
