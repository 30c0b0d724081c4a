//! The machine's state as a slow program over plain lists, and what a session reads of it.
//!
//! Each function is proved to give what the definition of its name in `dk_si` or `dk_core` says. The parts, in the order
//! of reading: the machine's state and what an entry makes of it (`state`), and the rows that a session sees, cut into
//! the pages of vectors (`reading`). `dk_slow_core`, above, joins them with the seats of the sessions. The crate stands
//! on `dk_slow_seats`, and on `dk_states` and `dk_plain`, which compute what the machine's definitions say.
#![tactic(auto)]

pub mod reading;
pub mod state;
