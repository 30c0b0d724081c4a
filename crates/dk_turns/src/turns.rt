//! The turns, each with its part, in their table.
use crate::knowledge::MidStep;
use crate::rule::Discipline;
use crate::shared::Shared;
use crate::spare::Spare;
use atomic_table::Table;
use std::alloc::Global;
use std::marker::Model;
use std::sync::Mutex;

/// The words and slots that all passes step on.
pub(crate) type Board<S> = atomic_table::Shared<
    Option<<S as Shared>::Part>,
    MidStep<<S as Shared>::Part, <S as Shared>::Note>,
    <S as Shared>::Key,
    Discipline<S>,
>;

/// Turns that threads take, each with its part. A contract sees which turns they are, and the key that they were made
/// with.
pub struct Turns<S: Shared> {
    pub(crate) table: Table<
        Option<S::Part>,
        MidStep<S::Part, S::Note>,
        S::Key,
        Discipline<S>,
        Global,
    >,
    pub(crate) spare: Mutex<Spare<S::Part>>,
}

impl<S: Shared> Model for Turns<S> {
    ghost use Rattle.dk_turns.specs.PassViews.{IsTurnsTable, TurnsView};

    ghost Value = { TurnsView S.Key };

    ghost view = { λ t. record { id = t.table.shared.table_id; key = t.table.shared.key } };

    ghost invariant = { λ t. IsTurnsTable t.table.shared.table_id };
}
