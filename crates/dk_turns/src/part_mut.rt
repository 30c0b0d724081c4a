//! How a held turn lends its part to be changed. It has a file of its own, since its clause names the row of `Held`,
//! which the file that declares `Held` cannot import.
ghost use Rattle.std.specs.Prelude.{◌≡◌};
ghost use Rattle.std.specs.Borrow.{sem, Lends};
ghost use Rattle.dk_turns.specs.contracts.pass.Held.{the_row};
ghost use Rattle.dk_turns.specs.PassViews.{with_part};

use crate::pass::Held;
use crate::shared::Shared;

impl<S: Shared> Held<S> {
    /// When the borrow ends, the held turn has what was written.
    pub fn part_mut(&mut self) -> &mut S::Part
        ensures* writes_back { sem 𝓛 (Lends (the_row S.row S.Key.row S.Part.row S.Note.row S.Shared)
            S.Part.row self.entry result (with_part self.old)) }
        ensures value { result.now ≡ self.old.part }
    {
        &mut self.part
    }
}
