//! Whether stops and iterations stand well behind the entry that an event is, and what is then kept of them.
ghost use Rattle.std.specs.Prelude.{◌≡◌, ◌++◌, ◌∷◌, [], ℕ, true, Some, option_map, IfOk};
ghost use Rattle.dk_si.specs.declared.history.Entry.TheVariants as entry;
ghost use Rattle.dk_si.specs.Standing.{standing_after, stands_on};
ghost use Rattle.dk_core.specs.Core.{point_reply};
ghost use Rattle.dk_core.specs.Entries.{entry_of, stands_with};
ghost use Rattle.dk_slow_rules.specs.Scenes.{core_in, StandWell};

use crate::scene::Scene;
use dk_core::{Done, Event};
use dk_si::history::Entry;
use dk_si::standing::{Need, Standing};
use dk_types::{List, OutOfMemory, Reply, TryCopy};
use std::alloc::Global;

/// What is kept of stops and iterations before the first entry.
pub fn first_standing(alloc: Global) -> Standing
    ensures { (iteration : ℕ) → StandWell iteration [] result }
{
    Standing::new(alloc)
}

fn copy_of_needs(alloc: Global, needs: &[Need]) -> Result<List<Need>, OutOfMemory>
    ensures { IfOk result (λ copy. copy ≡ needs.now) }
{
    let mut copy = List::new(alloc);
    for need in needs {
        copy.push(*need)?;
    }
    Ok(copy)
}

fn copy_of(alloc: Global, standing: &Standing) -> Result<Standing, OutOfMemory>
    ensures { IfOk result (λ copy. copy ≡ standing.now) }
{
    Ok(Standing {
        place: standing.place,
        well: standing.well,
        stop: standing.stop,
        stopped: standing.stopped,
        flights: standing.flights.copy()?,
        greatest: standing.greatest,
        spent: standing.spent,
        written: standing.written.copy()?,
        needs: copy_of_needs(alloc, standing.needs.as_slice())?,
    })
}

/// Whether they stand well behind one more entry.
#[tactic(auto, using(crate::proofs::StandLemmas::stands_alike))]
fn entry_stands(alloc: Global, scene: &Scene<'_>, entry: &Entry) -> Result<bool, OutOfMemory>
    requires { StandWell scene.now.iteration scene.now.entries.now scene.now.standing.now }
    ensures { IfOk result (λ stands. stands ≡ stands_on scene.now.iteration
        (standing_after scene.now.iteration scene.now.entries.now) entry.now) }
{
    scene.standing.stands_on(alloc, scene.iteration, entry)
}

/// What is kept of them behind one more entry, where they stand well behind it.
#[tactic(auto, using(crate::proofs::StandLemmas::place_is))]
pub fn standing_behind(
    alloc: Global,
    scene: &Scene<'_>,
    entry: &Entry,
) -> Result<Standing, OutOfMemory>
    requires stand { StandWell scene.now.iteration scene.now.entries.now scene.now.standing.now }
    requires stands { stands_with (core_in scene.now) (Some entry.now) ≡ true }
    ensures { IfOk result (λ behind. StandWell scene.now.iteration (scene.now.entries.now ++ entry.now ∷ []) behind) }
{
    let mut standing = copy_of(alloc, scene.standing)?;
    standing.next(alloc, scene.iteration, entry)?;
    Ok(standing)
}

/// The reply that a Point is; the first one of a creation is none yet.
fn point_reply(scene: &Scene<'_>, done: &Done, moment: u64) -> Option<Reply>
    ensures { result ≡ point_reply (core_in scene.now).now done.now moment }
{
    let receipt = scene.next_receipt(moment);
    match done {
        Done::Create { .. } => None,
        Done::Created => Some(Reply::Created { receipt }),
        Done::Changed { count } => Some(Reply::Changed {
            count: *count,
            receipt: Some(receipt),
        }),
        Done::Commit => Some(Reply::Committed { receipt }),
    }
}

/// Whether they stand well behind the reply of a session, if there is one.
fn reply_stands(
    alloc: Global,
    scene: &Scene<'_>,
    session: u32,
    reply: Option<Reply>,
) -> Result<bool, OutOfMemory>
    requires { StandWell scene.now.iteration scene.now.entries.now scene.now.standing.now }
    ensures { IfOk result (λ stands. stands ≡ stands_with (core_in scene.now)
        (option_map (entry.Reply session) reply)) }
{
    match reply {
        None => Ok(true),
        Some(reply) => entry_stands(alloc, scene, &Entry::Reply { session, reply }),
    }
}

/// Whether stops and iterations stand well behind the entry that an event is, if it is one.
#[tactic(auto, using(crate::proofs::StandLemmas::begin_stands))]
pub fn stands_with(alloc: Global, scene: &Scene<'_>, event: &Event) -> Result<bool, OutOfMemory>
    requires { StandWell scene.now.iteration scene.now.entries.now scene.now.standing.now }
    ensures { IfOk result (λ stands. stands ≡ stands_with (core_in scene.now)
        (entry_of (core_in scene.now) event.now)) }
{
    match event {
        Event::Point {
            session,
            done,
            moment,
        } => reply_stands(alloc, scene, *session, point_reply(scene, done, *moment)),
        Event::Reply { session, reply } => {
            reply_stands(alloc, scene, *session, Some(reply.copy()?))
        }
        _ => Ok(true),
    }
}
