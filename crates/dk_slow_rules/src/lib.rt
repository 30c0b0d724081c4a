//! What the rules of the plain core ask of a core before an event may come.
//!
//! `dk_core` defines which event may come to a core; here that is computed (`allows`), from the parts of a core, which a
//! `Scene` borrows. Each function is proved to give what the definition of its name in `dk_core` says, and only reads.
//! What stands of stops and iterations is one of the parts: what `dk_si` keeps of it behind entries that stand well, as
//! they do after events that were allowed, and it is carried from entry to entry. The parts, in the order of reading:
//! what is borrowed (`scene`), where rows stand (`places`), which rows a Change may have (`changes`), what a reply asks of
//! the events before it (`replies`), how a commit goes (`commits`), whether stops and iterations stand well with the
//! event's entry (`stands`), what each other event asks, and that nobody else places rows or creates a table (`rules`),
//! and what joins them all (`events`). The crate stands on `dk_core`, on `dk_slow_seats`, which has the seats and groups
//! of a core, and on `dk_legal` and those below, which compute what the machine's definitions say.
#![tactic(auto)]

pub mod changes;
pub mod commits;
pub mod events;
pub mod places;
pub mod replies;
pub mod rules;
pub mod scene;
pub mod stands;

pub use events::allows;
pub use scene::Scene;
