//! What a pass knows. No value of these types is made: they are for the proofs alone.
use std::collections::LinkedList;

/// An event.
pub struct Event<N> {
    /// The number of the pass that made it.
    pub by: u64,
    /// The turn under which it was made, if it needed one.
    pub turn: Option<u64>,
    /// What it says of itself.
    pub note: N,
}

/// What the part of a turn showed as a pass made an event under that turn or put the part back.
pub struct Observation<P, N> {
    pub turn: u64,
    pub part: P,
    /// The pass's own events up to then.
    pub before: LinkedList<Event<N>>,
    /// The pass's own events since then.
    pub after: LinkedList<Event<N>>,
}

/// A pass that was joined to another, with its events and their places.
pub struct EndedPass<N> {
    pub number: u64,
    pub events: LinkedList<(u64, Event<N>)>,
}

/// What a pass knows.
pub struct Knowledge<P, N> {
    pub number: u64,
    /// How many numbers were given, where this pass gives them, or 0.
    pub given: u64,
    /// The turns that it holds, each with what the part shows.
    pub held: LinkedList<(u64, P)>,
    /// The turns whose words said "taken" at its steps.
    pub refused: LinkedList<u64>,
    /// Its own events, each with its place.
    pub events: LinkedList<(u64, Event<N>)>,
    /// The least place that it has not seen.
    pub seen: u64,
    /// What it has noted of parts.
    pub noted: LinkedList<Observation<P, N>>,
    /// The passes that were joined to it.
    pub ended: LinkedList<EndedPass<N>>,
}

/// What a pass knows between two steps of one call.
pub struct MidStep<P, N> {
    /// Whether the pass was joined to another.
    pub spent: bool,
    /// 0, or 1 more than the turn whose slot the pass has out.
    pub hand: u64,
    pub knowledge: Knowledge<P, N>,
}
