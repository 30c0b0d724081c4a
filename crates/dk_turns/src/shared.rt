//! What is shared, as its user describes it.

/// What is shared in parts, each under a turn, and what its events keep.
pub trait Shared {
    ghost use Rattle.dk_turns.specs.Events.{Fact, LastingFact};

    /// What is fixed as the turns are made, so that the fact can name it.
    type Key;

    /// What one turn guards.
    type Part;

    /// What an event says of itself. It is made of numbers and of snapshots.
    type Note: Drop;

    /// The fact on the key, on all events, in the order of their places, and on all parts, each with the number of the
    /// pass that holds its turn.
    ghost holds: { Self.Key → Fact Self.Part Self.Note };

    /// The lasting facts: of a pass's number, its own events before and after it noted the part of a turn, that turn,
    /// that part, and the part now. The events before and after are all that the history has of the pass.
    ghost lasts: { LastingFact Self.Part Self.Note };
}
