//! Events, each at its place in the one history.
ghost use Rattle.std.specs.Prelude.{◌≡◌, ℕ, ◌<◌, ◌≤◌, ◌%◌, ◌^◌, Some};
ghost use Rattle.dk_turns.specs.declared.layout.TheConstants.{TURNS};
ghost use Rattle.dk_turns.specs.KnowledgeAfter.{after_event, after_free_event, after_look};
ghost use Rattle.dk_turns.specs.LawfulSteps.{IsLawfulEvent, IsLawfulFreeEvent, MayMakeEvent};
ghost use Rattle.dk_turns.specs.PassViews.{IsTurnsTable};
ghost use Rattle.dk_turns.specs.StepOutcomes.{IsIdle, IsNextPlace};
ghost use Rattle.dk_turns.specs.TurnStates.{Holds};

use crate::layout::CLOCK;
use crate::pass::{Held, Pass, SeatOf};
use crate::shared::Shared;
use crate::steps::{EventArgs, Look, Tick, TickFree};
use crate::turns::{Board, Turns};
use std::marker::Brand;

// One more event, of the part of a turn that the seat holds.
fn tick<S: Shared, J: EventArgs<S::Part, S::Note>>(
    board: &Board<S>,
    seat: &mut SeatOf<S>,
    turn: u32,
    part: &S::Part,
    note: &S::Note,
) -> u64
    requires board { IsTurnsTable board.now.table_id }
    requires seat { (seat.old.table_id ≡ board.now.table_id) × IsIdle seat.old.me }
    requires says { (J.turn ≡ turn) × (J.part ≡ Some part.now) × (J.note ≡ Some note.now) }
    requires step { (turn < TURNS) × ((shown : S.Part) × Holds seat.old.me.0.knowledge.held turn shown
        × IsLawfulEvent (S.holds board.now.key) S.lasts seat.old.me.0.knowledge turn shown note.now part.now) }
    ensures seat { (seat.new.table_id ≡ seat.old.table_id) × IsIdle seat.new.me }
    ensures knowledge { (place : ℕ) × IsNextPlace seat.old.me.0.knowledge result place
        × (seat.new.me.0.knowledge ≡ after_event turn part.now note.now place seat.old.me.0.knowledge) }
{
    board.fetch_add::<Tick<J>>(seat, CLOCK, 1)
}

// One more event, which needs no turn.
fn tick_free<S: Shared, J: EventArgs<S::Part, S::Note>>(
    board: &Board<S>,
    seat: &mut SeatOf<S>,
    note: &S::Note,
) -> u64
    requires board { IsTurnsTable board.now.table_id }
    requires seat { (seat.old.table_id ≡ board.now.table_id) × IsIdle seat.old.me }
    requires says { J.note ≡ Some note.now }
    requires step { IsLawfulFreeEvent (S.holds board.now.key) S.lasts seat.old.me.0.knowledge note.now }
    ensures seat { (seat.new.table_id ≡ seat.old.table_id) × IsIdle seat.new.me }
    ensures knowledge { (place : ℕ) × IsNextPlace seat.old.me.0.knowledge result place
        × (seat.new.me.0.knowledge ≡ after_free_event note.now place seat.old.me.0.knowledge) }
{
    board.fetch_add::<TickFree<J>>(seat, CLOCK, 1)
}

impl<S: Shared> Turns<S> {
    /// Makes an event of the part, as it is now, and answers its place.
    pub fn event(&self, pass: &mut Pass<S>, held: &mut Held<S>, note: S::Note) -> u64
        requires pass { pass.old.turns ≡ self.now.id }
        requires step { MayMakeEvent (S.holds self.now.key) S.lasts pass.old.knowledge held.old note }
        ensures pass { pass.new.turns ≡ pass.old.turns }
        ensures held { held.new ≡ held.old }
        ensures made { (place : ℕ) × IsNextPlace pass.old.knowledge result place
            × (pass.new.knowledge ≡ after_event held.old.turn held.old.part note place pass.old.knowledge) }
    {
        tick::<S, Brand>(
            &self.table.shared,
            &mut pass.seat,
            held.turn,
            &held.part,
            &note,
        )
    }

    /// Makes an event that needs no turn, and answers its place.
    pub fn free_event(&self, pass: &mut Pass<S>, note: S::Note) -> u64
        requires pass { pass.old.turns ≡ self.now.id }
        requires step { IsLawfulFreeEvent (S.holds self.now.key) S.lasts pass.old.knowledge note }
        ensures pass { pass.new.turns ≡ pass.old.turns }
        ensures made { (place : ℕ) × IsNextPlace pass.old.knowledge result place
            × (pass.new.knowledge ≡ after_free_event note place pass.old.knowledge) }
    {
        tick_free::<S, Brand>(&self.table.shared, &mut pass.seat, &note)
    }

    /// Reads the clock. From now on all places below it count as seen.
    pub fn look(&self, pass: &mut Pass<S>) -> u64
        requires pass { pass.old.turns ≡ self.now.id }
        ensures pass { pass.new.turns ≡ pass.old.turns }
        ensures seen { (events : ℕ) × IsNextPlace pass.old.knowledge result events
            × (pass.new.knowledge ≡ after_look events pass.old.knowledge) }
    {
        self.table.shared.load::<Look>(&mut pass.seat, CLOCK)
    }
}
