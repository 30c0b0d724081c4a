//! Where the words and slots of the turns lie in their table.

/// How many turns there are.
pub const TURNS: usize = 67;

/// The word that counts the events. Behind it lies the word of each turn, which says whether it is taken.
pub(crate) const CLOCK: usize = 0;

/// The first of the words that count, for each turn, the passes that wait for it.
pub(crate) const WAITERS: usize = 68;

/// How many words there are.
pub(crate) const WORDS: usize = 135;

/// The word of a turn that no pass holds.
pub(crate) const FREE: u64 = 0;

/// The word of a turn that a pass holds.
pub(crate) const TAKEN: u64 = 1;
