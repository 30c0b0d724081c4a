//! The rule of the table that the turns lie in.
ghost use Rattle.std.specs.Prelude.{ℕ, ◌<◌};
ghost use Rattle.dk_turns.specs.declared.layout.TheConstants.{TURNS};
ghost use Rattle.dk_turns.specs.Rule.{Rule, TableState, TakenByOne};

use crate::knowledge::MidStep;
use crate::shared::Shared;
use atomic_table::TableRule;
use std::marker::PhantomData;

pub struct Discipline<S> {
    marker: PhantomData<S>,
}

impl<S: Shared> TableRule<Option<S::Part>, MidStep<S::Part, S::Note>, S::Key> for Discipline<S> {
    ghost use Rattle.std.specs.Prelude.{false};
    ghost use Rattle.dk_turns.specs.KnowledgeAfter.{newcomer};
    ghost use Rattle.dk_turns.specs.Rule.{Rule};

    ghost holds = { λ key. Rule (S.holds key) S.lasts };

    ghost first = { λ _. record { spent = false; hand = 0; knowledge = newcomer 0 1 0 } };
}

/// Between any two steps, a turn's word says "taken" exactly where one pass holds the turn, and only then is its slot
/// empty.
pub fn taken_by_one<S: Shared>()
    ensures { (key : S.Key) (s : TableState S.Part S.Note) → Rule (S.holds key) S.lasts s
        → (t : ℕ) → t < TURNS → TakenByOne s t }
{}
