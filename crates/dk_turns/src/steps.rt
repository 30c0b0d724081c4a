//! What each step on the table tells its pass. These types are for the proofs alone.
ghost use Rattle.dk_turns.specs.StepOutcomes.{FetchOutcome, GiveOutcome, SettleOutcome, StayOutcome, TryOutcome};
ghost use Rattle.dk_turns.specs.StepOutcomes.{LookOutcome, TickFreeOutcome, TickOutcome};
ghost use Rattle.dk_turns.specs.StepOutcomes.{joining_pass, new_pass, spent_pass, splitting_pass};

use crate::knowledge::MidStep;
use crate::shared::Shared;
use atomic_table::{Join, Play, Split};
use std::marker::{Brand, PhantomData};

/// A compare-exchange on a turn's word: the pass takes the turn, with its slot in hand, or learns that it is taken.
pub struct Try<S> {
    of: PhantomData<S>,
}

impl<S: Shared> Play<Option<S::Part>, MidStep<S::Part, S::Note>> for Try<S> {
    ghost then = { TryOutcome S.lasts };
}

/// The slot goes home, once its part was taken out.
pub struct Settle;

impl<P, N> Play<Option<P>, MidStep<P, N>> for Settle {
    ghost then = { SettleOutcome };
}

/// The empty slot comes into the hand again.
pub struct Fetch;

impl<P, N> Play<Option<P>, MidStep<P, N>> for Fetch {
    ghost then = { FetchOutcome };
}

/// A store to a turn's word: the slot goes home with its part, and the turn is free.
pub struct Give;

impl<P, N> Play<Option<P>, MidStep<P, N>> for Give {
    ghost then = { GiveOutcome };
}

/// A step on a word that the rule does not read.
pub struct Stay;

impl<P, N> Play<Option<P>, MidStep<P, N>> for Stay {
    ghost then = { StayOutcome };
}

/// A load of the clock.
pub struct Look;

impl<P, N> Play<Option<P>, MidStep<P, N>> for Look {
    ghost then = { LookOutcome };
}

/// The turn, the part and the note of an event, which the step itself can't carry. Each call picks them.
pub trait EventArgs<P, N> {
    ghost use Rattle.std.specs.Prelude.{ℕ, Option};

    ghost turn: { ℕ };

    ghost part: { Option P };

    ghost note: { Option N };
}

impl<P, N> EventArgs<P, N> for Brand {
    ghost use Rattle.std.specs.Prelude.{None};

    ghost turn = { 0 };

    ghost part = { None };

    ghost note = { None };
}

/// One more event, made under a turn.
pub struct Tick<J> {
    of: PhantomData<J>,
}

impl<P, N, J: EventArgs<P, N>> Play<Option<P>, MidStep<P, N>> for Tick<J> {
    ghost then = { TickOutcome J.turn J.part J.note };
}

/// One more event, made without a turn.
pub struct TickFree<J> {
    of: PhantomData<J>,
}

impl<P, N, J: EventArgs<P, N>> Play<Option<P>, MidStep<P, N>> for TickFree<J> {
    ghost then = { TickFreeOutcome J.note };
}

/// How numbers are given as a pass is split, and kept as two are joined.
pub struct Numbering;

impl<P, N> Split<MidStep<P, N>> for Numbering {
    ghost left = { splitting_pass };

    ghost right = { new_pass };
}

impl<P, N> Join<MidStep<P, N>> for Numbering {
    ghost both = { joining_pass };

    ghost spent = { spent_pass };
}
