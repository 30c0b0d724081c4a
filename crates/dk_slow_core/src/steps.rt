//! An event of whichever kind.
ghost use Rattle.std.specs.Prelude.{◌≡◌, true, IfOk, IsErr, OnOk, OnErr};
ghost use Rattle.dk_core.specs.Allows.{allows};
ghost use Rattle.dk_slow_core.specs.Moves.{core_behind};
ghost use Rattle.dk_slow_core.specs.Outcomes.{outcome_of, takes_memory};

use crate::outcome::Outcome;
use crate::plain_core::Core;
use dk_core::Event;
use dk_types::OutOfMemory;

impl Core {
    /// Makes of the core what an event that may come makes of it, and answers what it tells.
    #[tactic(auto, using(crate::proofs::FitsLemmas::append_fits, crate::proofs::FitsLemmas::adopt_fits))]
    pub fn step(&mut self, event: Event) -> Result<Outcome, OutOfMemory>
        requires { allows self.old event ≡ true }
        ensures ok { OnOk result (self.new ≡ core_behind self.old event) }
        ensures err { OnErr result (self.new ≡ self.old) }
        ensures outcome { IfOk result (λ outcome. outcome ≡ outcome_of self.old event) }
        ensures memory { IsErr result → takes_memory event ≡ true }
    {
        match event {
            Event::Call { session, asked } => {
                self.call(session, asked)?;
                Ok(Outcome::Done)
            }
            Event::Begin { session } => self.begin(session),
            Event::Change { session, part, .. } => self.change(session, part),
            Event::Append {
                session,
                table,
                group,
                rows,
                ..
            } => {
                self.append(session, table, group, rows)?;
                Ok(Outcome::Done)
            }
            Event::Adopt {
                session,
                table,
                group,
                rows,
                ..
            } => {
                self.adopt(session, table, group, rows)?;
                Ok(Outcome::Done)
            }
            Event::Point {
                session,
                done,
                moment,
            } => self.point(session, done, moment),
            Event::Stamp { session } => {
                self.stamp(session);
                Ok(Outcome::Done)
            }
            Event::Finish { session } => {
                self.finish(session);
                Ok(Outcome::Done)
            }
            Event::Undo { session } => {
                self.undo(session);
                Ok(Outcome::Done)
            }
            Event::Drop { .. } => {
                self.drop_versions();
                Ok(Outcome::Done)
            }
            Event::Settle { .. } => {
                self.settle();
                Ok(Outcome::Done)
            }
            Event::Reply { session, reply } => {
                self.reply(session, reply)?;
                Ok(Outcome::Done)
            }
            Event::Mark { session } => {
                self.mark(session);
                Ok(Outcome::Done)
            }
            Event::Leave { session } => {
                self.leave(session);
                Ok(Outcome::Done)
            }
        }
    }
}
