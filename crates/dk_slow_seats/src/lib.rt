//! What the slow core has beside the machine: the seats of the sessions, and where rows stand.
//!
//! Each function is proved to give what the definition of its name in `dk_core` says. The parts, in the order of
//! reading: where rows stand (`layout`), the seats and what an event makes of one (`seats`), whether a further
//! transaction can begin (`room`), up to which commit every snapshot sees (`bounds`), and whether a session may change
//! rows, or who has changed them (`conflicts`). `dk_slow_core`, above, joins them with the machine's state. The crate
//! stands on `dk_core`, and on `dk_states` and `dk_plain`, which compute what the machine's definitions say.
#![tactic(auto)]

pub mod bounds;
pub mod conflicts;
pub mod layout;
pub mod room;
pub mod seats;
