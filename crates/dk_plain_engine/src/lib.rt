//! The plain engine: statements of up to 32 sessions answered on one thread, in memory.
//!
//! The machine of `dk_si` says what sessions may be answered, and `dk_alone` that on one thread the answers are a
//! function of the calls. The engine computes them, one call at a time. `Engine::run` is proved to answer as that
//! function does, or to tell want of memory where memory may want: a relation between the engine and the history behind
//! it, which is legal, holds of a new engine, and each call carries it on (`specs/Stands.antt`). It keeps all commits, and
//! the tables behind them: a transaction that sees all commits and has changed nothing so far reads those tables as they
//! are, and its new rows of one table are added in place. For any other it makes the database from the commits.
//!
//! The parts, in the order of reading: what surrounds a call (`scene`), what a reply makes of a transaction (`effect`),
//! rows that are held (`held`), the tables behind all commits (`now`), the answer to a call (`answers`), what contracts
//! see of an engine (`state`), and the engine (`engine`). The crate stands on `dk_states` and `dk_plain`, which compute
//! what a transaction sees, and on the laws of `dk_alone`.
#![tactic(auto)]

pub mod answers;
pub mod effect;
pub mod engine;
pub mod held;
pub mod now;
pub mod scene;
pub mod state;

pub use engine::{Answer, Engine};
