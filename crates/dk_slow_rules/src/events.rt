//! Whether an event may come: what it asks of its session, and what it asks of what the sessions share.
ghost use Rattle.std.specs.Prelude.{◌≡◌, ◌&&◌, IfOk};
ghost use Rattle.dk_core.specs.Allows.{allows, allows_locally};
ghost use Rattle.dk_slow_rules.specs.Rules.{session_of, may_come, suits_session, suits_others};
ghost use Rattle.dk_slow_rules.specs.Scenes.{core_in, StandWell};

use crate::commits::{Placing, may_adopt, may_append, may_point};
use crate::places::has_vector;
use crate::rules::{
    has_group, is_bound, may_begin, may_call, may_change, may_finish, may_leave, may_mark,
    may_reply, may_stamp, may_undo, nobody_creates, nobody_places,
};
use crate::scene::{Held, Scene};
use crate::stands::stands_with;
use dk_core::Event;
use dk_types::OutOfMemory;
use std::alloc::Global;

/// The session of an event, if it is of one.
fn session_of(event: &Event) -> Option<u32>
    ensures { result ≡ session_of event.now }
{
    match event {
        Event::Drop { .. } | Event::Settle { .. } => None,
        Event::Call { session, .. }
        | Event::Begin { session }
        | Event::Change { session, .. }
        | Event::Append { session, .. }
        | Event::Adopt { session, .. }
        | Event::Point { session, .. }
        | Event::Stamp { session }
        | Event::Finish { session }
        | Event::Undo { session }
        | Event::Reply { session, .. }
        | Event::Mark { session }
        | Event::Leave { session } => Some(*session),
    }
}

/// Whether an event may come by what its session knows and has.
fn may_come(
    alloc: Global,
    scene: &Scene<'_>,
    event: &Event,
    held: &Held<'_>,
) -> Result<bool, OutOfMemory>
    ensures { IfOk result (λ may. may ≡ may_come (core_in scene.now) event.now held.now.session.now
        held.now.seat.now) }
{
    match event {
        Event::Call { asked, .. } => Ok(may_call(asked, held)),
        Event::Begin { .. } => Ok(may_begin(held)),
        Event::Change { at, part, .. } => may_change(alloc, scene, *at, part, held),
        Event::Append {
            table,
            group,
            first,
            rows,
            ..
        } => {
            let placing = Placing {
                table: *table,
                group: *group,
                first: *first,
                rows,
            };
            may_append(alloc, scene, held, &placing)
        }
        Event::Adopt {
            table,
            group,
            first,
            rows,
            ..
        } => {
            let placing = Placing {
                table: *table,
                group: *group,
                first: *first,
                rows,
            };
            may_adopt(alloc, scene, held, &placing)
        }
        Event::Point { done, moment, .. } => may_point(alloc, scene, held, done, *moment),
        Event::Stamp { .. } => Ok(may_stamp(held)),
        Event::Finish { .. } => Ok(may_finish(held)),
        Event::Undo { .. } => Ok(may_undo(held)),
        Event::Reply { reply, .. } => may_reply(alloc, scene, reply, held),
        Event::Mark { .. } => Ok(may_mark(held)),
        Event::Leave { .. } => Ok(may_leave(held)),
        Event::Drop { .. } | Event::Settle { .. } => Ok(true),
    }
}

/// Whether the session of an event, if it is of one, is there and lets it come.
fn suits_session(alloc: Global, scene: &Scene<'_>, event: &Event) -> Result<bool, OutOfMemory>
    ensures { IfOk result (λ suits. suits ≡ suits_session (core_in scene.now) event.now) }
{
    let Some(number) = session_of(event) else {
        return Ok(true);
    };
    match scene.held(number) {
        None => Ok(false),
        Some(held) => may_come(alloc, scene, event, &held),
    }
}

/// Whether an event may come by the other sessions and by what all share.
fn suits_others(scene: &Scene<'_>, event: &Event) -> bool
    ensures { result ≡ suits_others (core_in scene.now) event.now }
{
    match event {
        Event::Append { session, .. } | Event::Adopt { session, .. } => {
            nobody_places(scene, *session)
        }
        Event::Point { session, .. } => {
            nobody_places(scene, *session) && nobody_creates(scene, *session)
        }
        Event::Drop { at, bound } => has_vector(scene.layout, *at) && is_bound(scene, *bound),
        Event::Settle { table, group, .. } => has_group(scene, *table, *group),
        _ => true,
    }
}

/// Whether an event may come by its session and by what the sessions share.
#[tactic(auto, using(crate::proofs::RuleLemmas::locally))]
pub fn allows_locally(alloc: Global, scene: &Scene<'_>, event: &Event) -> Result<bool, OutOfMemory>
    ensures { IfOk result (λ may. may ≡ allows_locally (core_in scene.now) event.now) }
{
    let suits = suits_session(alloc, scene, event)?;
    Ok(suits && suits_others(scene, event))
}

/// Whether an event may come.
pub fn allows(alloc: Global, scene: &Scene<'_>, event: &Event) -> Result<bool, OutOfMemory>
    requires { StandWell scene.now.iteration scene.now.entries.now scene.now.standing.now }
    ensures { IfOk result (λ may. may ≡ allows (core_in scene.now) event.now) }
{
    let may = allows_locally(alloc, scene, event)?;
    let stands = stands_with(alloc, scene, event)?;
    Ok(may && stands)
}
