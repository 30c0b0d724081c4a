//! How a pass takes a turn and puts it back, and how it waits for one.
ghost use Rattle.std.specs.Prelude.{◌≡◌, ℕ, ◌<◌, [], ◌∷◌, IfSome, IfNone, MatchOption};
ghost use Rattle.dk_turns.specs.declared.layout.TheConstants.{TURNS};
ghost use Rattle.dk_turns.specs.KnowledgeAfter.{AfterWait, NotedFactsHold, after_refusals, after_release, after_take};
ghost use Rattle.dk_turns.specs.LawfulSteps.{IsLawfulPutBack, MayPutBack};
ghost use Rattle.dk_turns.specs.PassViews.{IsTurnsTable};
ghost use Rattle.dk_turns.specs.StepOutcomes.{IsIdle};
ghost use Rattle.dk_turns.specs.TurnStates.{Holds};

use crate::layout::{FREE, TAKEN, WAITERS};
use crate::pass::{Held, Pass, SeatOf};
use crate::shared::Shared;
use crate::steps::{Fetch, Give, Settle, Stay, Try};
use crate::turns::{Board, Turns};
use std::sync::Wait;

// Takes the turn by one compare-exchange, if its word does not say "taken". The slot is then empty.
fn claim<S: Shared>(board: &Board<S>, seat: &mut SeatOf<S>, turn: u32) -> Option<S::Part>
    requires board { IsTurnsTable board.now.table_id }
    requires seat { (seat.old.table_id ≡ board.now.table_id) × IsIdle seat.old.me }
    requires turn { turn < TURNS }
    ensures seat { (seat.new.table_id ≡ seat.old.table_id) × IsIdle seat.new.me }
    ensures knowledge { MatchOption result
        (seat.new.me.0.knowledge ≡ after_refusals (turn ∷ []) seat.old.me.0.knowledge)
        (λ part. (seat.new.me.0.knowledge ≡ after_take turn part seat.old.me.0.knowledge)
        × NotedFactsHold S.lasts seat.old.me.0.knowledge turn part) }
{
    let word = turn as usize + 1;
    if board.compare_exchange::<Try<S>>(seat, word, FREE, TAKEN) != FREE {
        return None;
    }
    let slot = board.exchange(seat, turn as usize, None);
    board.load::<Settle>(seat, word);
    Some(slot.unwrap())
}

// Puts the part into the empty slot of a turn that the seat holds, and frees the turn.
fn put_back<S: Shared>(board: &Board<S>, seat: &mut SeatOf<S>, turn: u32, part: S::Part)
    requires board { IsTurnsTable board.now.table_id }
    requires seat { (seat.old.table_id ≡ board.now.table_id) × IsIdle seat.old.me }
    requires turn { (turn < TURNS) × ((shown : S.Part) × Holds seat.old.me.0.knowledge.held turn shown
        × IsLawfulPutBack (S.holds board.now.key) S.lasts seat.old.me.0.knowledge turn shown part) }
    ensures seat { (seat.new.table_id ≡ seat.old.table_id) × IsIdle seat.new.me }
    ensures knowledge { seat.new.me.0.knowledge ≡ after_release turn part seat.old.me.0.knowledge }
{
    let word = turn as usize + 1;
    board.load::<Fetch>(seat, word);
    match board.exchange(seat, turn as usize, Some(part)) {
        None => {}
        Some(_) => unreachable!(),
    }
    board.store::<Give>(seat, word, FREE);
}

// Adds one to the number of those that wait for the turn.
fn enlist<S: Shared>(board: &Board<S>, seat: &mut SeatOf<S>, turn: u32)
    requires board { IsTurnsTable board.now.table_id }
    requires seat { (seat.old.table_id ≡ board.now.table_id) × IsIdle seat.old.me }
    requires turn { turn < TURNS }
    ensures { (seat.new.table_id ≡ seat.old.table_id) × (seat.new.me ≡ seat.old.me) }
{
    board.fetch_add::<Stay>(seat, turn as usize + WAITERS, 1);
}

// Takes one from it.
fn strike_off<S: Shared>(board: &Board<S>, seat: &mut SeatOf<S>, turn: u32)
    requires board { IsTurnsTable board.now.table_id }
    requires seat { (seat.old.table_id ≡ board.now.table_id) × IsIdle seat.old.me }
    requires turn { turn < TURNS }
    ensures { (seat.new.table_id ≡ seat.old.table_id) × (seat.new.me ≡ seat.old.me) }
{
    board.fetch_sub::<Stay>(seat, turn as usize + WAITERS, 1);
}

impl<S: Shared> Turns<S> {
    /// Takes the turn if it is free. It waits for nobody.
    pub fn try_take(&self, pass: &mut Pass<S>, turn: u32) -> Option<Held<S>>
        requires pass { pass.old.turns ≡ self.now.id }
        requires turn { turn < TURNS }
        ensures pass { pass.new.turns ≡ pass.old.turns }
        ensures none { IfNone result (pass.new.knowledge ≡ after_refusals (turn ∷ []) pass.old.knowledge) }
        ensures some { IfSome result (λ held. (held.turn ≡ turn)
            × (pass.new.knowledge ≡ after_take turn held.part pass.old.knowledge)) }
        ensures lasting { IfSome result (λ held. NotedFactsHold S.lasts pass.old.knowledge turn held.part) }
    {
        match claim(&self.table.shared, &mut pass.seat, turn) {
            Some(part) => Some(Held { turn, part }),
            None => None,
        }
    }

    /// Takes the turn, and waits until it is free.
    pub fn take<R: Wait>(&self, rt: &R, pass: &mut Pass<S>, turn: u32) -> Held<S>
        requires pass { pass.old.turns ≡ self.now.id }
        requires turn { turn < TURNS }
        ensures pass { pass.new.turns ≡ pass.old.turns }
        ensures turn { result.turn ≡ turn }
        ensures knowledge { AfterWait turn result.part pass.old.knowledge pass.new.knowledge }
        ensures lasting { NotedFactsHold S.lasts pass.old.knowledge turn result.part }
    {
        if let Some(held) = self.try_take(pass, turn) {
            return held;
        }
        self.wait_for(rt, pass, turn)
    }

    // Whoever frees the turn wakes one of those that wait, if there are any.
    fn wait_for<R: Wait>(&self, rt: &R, pass: &mut Pass<S>, turn: u32) -> Held<S>
        requires pass { pass.old.turns ≡ self.now.id }
        requires turn { turn < TURNS }
        ensures pass { pass.new.turns ≡ pass.old.turns }
        ensures turn { result.turn ≡ turn }
        ensures knowledge { AfterWait turn result.part pass.old.knowledge pass.new.knowledge }
        ensures lasting { NotedFactsHold S.lasts pass.old.knowledge turn result.part }
    {
        enlist(&self.table.shared, &mut pass.seat, turn);
        for _ in rt.forever() {
            if let Some(held) = self.try_take(pass, turn) {
                strike_off(&self.table.shared, &mut pass.seat, turn);
                return held;
            }
            self.table.shared.park(rt, turn as usize + 1, TAKEN as u32);
        }
        unreachable!()
    }

    /// Puts the part back, and frees the turn.
    pub fn release(&self, pass: &mut Pass<S>, held: Held<S>)
        requires pass { pass.old.turns ≡ self.now.id }
        requires held { MayPutBack (S.holds self.now.key) S.lasts pass.old.knowledge held }
        ensures pass { pass.new.turns ≡ pass.old.turns }
        ensures knowledge { pass.new.knowledge ≡ after_release held.turn held.part pass.old.knowledge }
    {
        let Held { turn, part } = held;
        put_back(&self.table.shared, &mut pass.seat, turn, part);
        if self.table.shared.peek(turn as usize + WAITERS) != 0 {
            self.table.shared.wake_one(turn as usize + 1);
        }
    }
}
