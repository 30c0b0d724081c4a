//! What a session holds: its pass, and the turns that it has taken.
ghost use Rattle.std.specs.Prelude.{◌≡◌};
ghost use Rattle.dk_turns.specs.StepOutcomes.{IsIdle};

use crate::knowledge::MidStep;
use crate::shared::Shared;
use atomic_table::Seat;
use std::marker::Model;

/// A pass's seat at the table.
pub(crate) type SeatOf<S> = Seat<
    Option<<S as Shared>::Part>,
    MidStep<<S as Shared>::Part, <S as Shared>::Note>,
>;

/// A session's seat at the turns. It has no bytes. A contract sees what it knows: its number, the turns that it holds,
/// the places of its own events, the least place that it has not seen, and what it has noted.
pub struct Pass<S: Shared> {
    pub(crate) seat: SeatOf<S>,
}

impl<S: Shared> Model for Pass<S> {
    ghost use Rattle.dk_turns.specs.PassViews.{PassView};
    ghost use Rattle.dk_turns.specs.StepOutcomes.{IsIdle};

    ghost Value = { PassView S.Part S.Note };

    ghost view = { λ p. record { turns = p.seat.table_id; knowledge = p.seat.me.0.knowledge } };

    ghost invariant = { λ p. IsIdle p.seat.me };
}

impl<S: Shared> Pass<S> {
    pub(crate) fn into_seat(self) -> SeatOf<S>
        ensures { (result.table_id ≡ self.turns) × IsIdle result.me × (result.me.0.knowledge ≡ self.knowledge) }
    {
        let Pass { seat } = self;
        seat
    }
}

// So that a closure can hold one. Turns whose pass was dropped can't be closed.
impl<S: Shared> Drop for Pass<S> {
    fn drop(self) {
        let Self { seat: _ } = self;
    }
}

/// A turn that is held, with its part.
pub struct Held<S: Shared> {
    pub(crate) turn: u32,
    pub(crate) part: S::Part,
}

impl<S: Shared> Model for Held<S> {
    ghost use Rattle.dk_turns.specs.PassViews.{HeldView};

    ghost Value = { HeldView S.Part };

    ghost view = { λ h. record { turn = h.turn; part = h.part } };
}

impl<S: Shared> Held<S> {
    /// The turn's number.
    pub fn turn(&self) -> u32
        ensures { result ≡ self.now.turn }
    {
        self.turn
    }

    /// The part, as it is now.
    pub fn part(&self) -> &S::Part
        ensures { result.now ≡ self.now.part }
    {
        &self.part
    }
}
