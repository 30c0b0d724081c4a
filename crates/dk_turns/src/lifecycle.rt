//! How the turns are made, how passes come to be, and how all end.
ghost use Rattle.std.specs.Prelude.{◌≡◌, ◌≢◌, ℕ, ◌<◌, ◌≤◌, List, [], length, map, Some, false, slice_index_or, IfOk, IfErr, vec_len, vec_capacity};
ghost use Rattle.std.specs.Mem.Slots.{slots_items, slots_filled, slots_len, IsFull};
ghost use mathlib.Core.Option.{some};
ghost use lib.ListN.{get_elem?};
ghost use Rattle.dk_turns.specs.declared.layout.TheConstants.{TURNS};
ghost use Rattle.dk_turns.specs.History.{History};
ghost use Rattle.dk_turns.specs.KnowledgeAfter.{after_split, newcomer};
ghost use Rattle.dk_turns.specs.PassViews.{AllIdle, IsTurnsTable, IsWhole, JoinsAll};
ghost use Rattle.dk_turns.specs.Rule.{IsLast, Wider};
ghost use Rattle.dk_turns.specs.StepOutcomes.{IsIdle};
ghost use Rattle.dk_turns.specs.TurnStates.{TurnState, free_turn};

use crate::layout::{TURNS, WORDS};
use crate::pass::{Pass, SeatOf};
use crate::shared::Shared;
use crate::spare::{Spare, empty_slots, fill_slots};
use crate::steps::Numbering;
use crate::turns::{Board, Turns};
use atomic_table::{Closed, Refused, Table};
use std::alloc::{AllocError as OutOfMemory, Global};
use std::sync::Mutex;

impl<S: Shared> Turns<S> {
    /// Makes the turns of these parts, and their first pass. The key stays what it is from then on. All memory is taken
    /// before a part is moved in, and a refusal hands the parts back.
    pub fn new(
        alloc: Global,
        mut parts: Vec<S::Part>,
        key: &S::Key,
    ) -> Result<(Turns<S>, Pass<S>), (OutOfMemory, Vec<S::Part>)>
        requires parts { vec_len parts ≡ TURNS }
        requires fact { (states : List (TurnState S.Part)) → Wider (map free_turn parts.items) states
            → S.holds key.now [] states }
        ensures key { IfOk result (λ made. made.0.key ≡ key.now) }
        ensures pass { IfOk result (λ made. (made.1.turns ≡ made.0.id) × (made.1.knowledge ≡ newcomer 0 1 0)) }
        ensures err { IfErr result (λ refusal. refusal.1.items ≡ parts.items) }
    {
        let Ok(mut slots) = Vec::with_capacity(alloc, TURNS) else {
            return Err((OutOfMemory, parts));
        };
        fill_slots(&mut parts, &mut slots);
        match Table::new(alloc, &[0; WORDS], slots, key) {
            Ok((table, seat)) => {
                let spare = Mutex::new(Spare { parts });
                Ok((Turns { table, spare }, Pass { seat }))
            }
            Err(Refused { mut slots }) => {
                empty_slots(&mut slots, &mut parts);
                slots.destroy_empty();
                Err((OutOfMemory, parts))
            }
        }
    }

    /// Cuts a new pass off, with the next number.
    pub fn split(&self, pass: &mut Pass<S>) -> Pass<S>
        requires pass { pass.old.turns ≡ self.now.id }
        requires giver { pass.old.knowledge.given ≢ 0 }
        ensures pass { (pass.new.turns ≡ pass.old.turns) × (pass.new.knowledge ≡ after_split pass.old.knowledge) }
        ensures new { (result.turns ≡ self.now.id)
            × (result.knowledge ≡ newcomer pass.old.knowledge.given 0 pass.old.knowledge.seen) }
    {
        let seat = self.table.shared.split_seat::<Numbering>(&mut pass.seat);
        Pass { seat }
    }

    /// Ends all passes, and hands the parts out in the vector that they came in.
    pub fn close(self, passes: Vec<Pass<S>>) -> Vec<S::Part>
        requires idle { AllIdle self.id passes.items }
        requires whole { IsWhole passes.items }
        ensures history { History (S.holds self.key) passes.items result.items }
    {
        let Turns { table, spare } = self;
        let keeper = gather(&table.shared, passes);
        let Spare { mut parts } = spare.into_inner();
        let mut closed = table.close_with(keeper);
        unload(&mut closed, &mut parts);
        closed.free();
        parts
    }
}

// Joins all passes to one.
fn gather<S: Shared>(board: &Board<S>, mut passes: Vec<Pass<S>>) -> SeatOf<S>
    requires board { IsTurnsTable board.now.table_id }
    requires idle { AllIdle board.now.table_id passes.items }
    requires whole { IsWhole passes.items }
    ensures last { (result.table_id ≡ board.now.table_id) × IsLast result.me.0 }
    ensures joined { JoinsAll passes.items result.me.0 }
{
    let Some(first) = passes.pop() else {
        unreachable!()
    };
    let mut keeper = first.into_seat();
    while let Some(pass) = passes.pop() {
        board.join_seat::<Numbering>(&mut keeper, pass.into_seat());
    }
    passes.destroy_empty();
    keeper
}

// Takes each part out of its slot.
fn unload<T>(closed: &mut Closed<Option<T>, Global>, parts: &mut Vec<T>)
    requires full { IsFull closed.old.slots × (slots_len closed.old.slots ≡ TURNS) }
    requires home { (length (slots_items closed.old.slots) ≡ TURNS)
        × ((k : ℕ) → k < TURNS → (part : T) × (get_elem? (slots_items closed.old.slots) k ≡ some (Some part))) }
    requires parts { (parts.old.items ≡ []) × (TURNS ≤ vec_capacity parts.old) }
    ensures parts { map Some parts.new.items ≡ slots_items closed.old.slots }
    ensures empty { (slots_len closed.new.slots ≡ TURNS)
        × ((k : ℕ) → k < TURNS → slice_index_or (slots_filled closed.new.slots) k false ≡ false) }
{
    for turn in 0..TURNS {
        parts.push_reserved(closed.take(turn).unwrap());
    }
}
