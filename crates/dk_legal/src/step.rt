//! Which entry may come after which.
ghost use Rattle.std.specs.Prelude.{◌≡◌, [], IfOk};
ghost use Rattle.dk_si.specs.Machine.{first_state};
ghost use Rattle.dk_si.specs.IsStep.{may_call, may_begin, may_reply, is_step, are_steps};

use crate::answers::may_answer;
use crate::founded::is_founded;
use crate::lawful::is_lawful_call;
use crate::scene::{Scene, Seat};
use dk_si::database::Table;
use dk_si::history::{Asked, Entry};
use dk_si::limits::MAX_TRANSACTIONS;
use dk_si::machine::{Machine, Session, Transaction};
use dk_states::call::asks_to_begin;
use dk_states::machine::{first_state, next, session_at};
use dk_types::{OutOfMemory, Reply};
use std::alloc::Global;

fn may_call(asked: &Asked, session: &Session) -> bool
    ensures { result ≡ may_call asked.now session.now }
{
    session.asked.is_none() && is_lawful_call(asked)
}

/// Whether a call is in flight with which a transaction begins, and there is none.
fn may_begin(machine: &Machine, number: u64, start: u64, session: &Session) -> bool
    ensures { result ≡ may_begin machine.now number start session.now }
{
    (asks_to_begin(&session.asked) && matches!(session.transaction, Transaction::Outside))
        && ((number == machine.begun && number < MAX_TRANSACTIONS)
            && start == machine.commits.len() as u64)
}

/// Whether the session's state allows the reply, and the other sessions do.
fn may_reply(alloc: Global, scene: &Scene<'_>, reply: &Reply) -> Result<bool, OutOfMemory>
    ensures { IfOk result (λ may. may ≡ may_reply scene.now.seat.opened.now scene.now.seat.number
        scene.now.before.now scene.now.seat.machine.now reply.now scene.now.session.now) }
{
    let Scene { seat, session, .. } = *scene;
    let Some(asked) = &session.asked else {
        return Ok(false);
    };
    if !may_answer(alloc, &seat.log(), &session.transaction, asked, reply)? {
        return Ok(false);
    }
    is_founded(alloc, scene, reply)
}

/// Whether an entry may come behind those before it, where this is the state.
pub fn is_step(
    alloc: Global,
    opened: &[Table],
    before: &[Entry],
    machine: &Machine,
    entry: &Entry,
) -> Result<bool, OutOfMemory>
    ensures { IfOk result (λ may. may ≡ is_step opened.now before.now machine.now entry.now) }
{
    let number = match entry {
        Entry::Call { session, .. } | Entry::Begun { session, .. } | Entry::Reply { session, .. } =>
            *session,
    };
    let Some(session) = session_at(machine, number) else {
        return Ok(false);
    };
    match entry {
        Entry::Call { asked, .. } => Ok(may_call(asked, session)),
        Entry::Begun { number, start, .. } => Ok(may_begin(machine, *number, *start, session)),
        Entry::Reply { reply, .. } => {
            let seat = Seat {
                opened,
                machine,
                number,
            };
            let scene = Scene {
                seat,
                session,
                before,
            };
            may_reply(alloc, &scene, reply)
        }
    }
}

/// Whether each entry is a step from the state after those before it.
pub fn are_steps(alloc: Global, opened: &[Table], entries: &[Entry]) -> Result<bool, OutOfMemory>
    ensures { IfOk result (λ steps. steps ≡ are_steps opened.now [] first_state entries.now) }
{
    let mut machine = first_state(alloc)?;
    for (i, entry) in entries.iter().enumerate() {
        if !is_step(alloc, opened, &entries[..i], &machine, entry)? {
            return Ok(false);
        }
        next(&mut machine, alloc, opened, entry)?;
    }
    Ok(true)
}
