//! Turns whose parts count the events made under them, by one pass, by two and by eight.
ghost use Rattle.std.specs.Prelude.{◌≡◌, ℕ, ◌<◌, [], ◌∷◌, ◌++◌, false, length, slice_index_or, IfSome};
ghost use Rattle.dk_turns.specs.declared.layout.TheConstants.{TURNS};
ghost use Rattle.dk_turns.specs.KnowledgeAfter.{newcomer};
ghost use Rattle.dk_turns.specs.PassViews.{AllIdle};
ghost use Rattle.dk_turns.specs.IdlePasses.{CanClose, StaysIdle};

use crate::{Pass, Shared, TURNS, Turns};
use std::alloc::Global;
use std::sync::Wait;
use std::sync::atomic::{AtomicU64, Ordering};
use std::test::Fail;
use std::thread::{Threads, for_each_mut};

// Each part counts the events made under its turn. So the parts add up to the number of events, and none ever falls.
struct Counters;

impl Shared for Counters {
    ghost use Rattle.dk_turns.specs.Counters.{AddsUp, NeverFalls};

    type Key = ();

    type Part = u64;

    type Note = ();

    ghost holds = { λ _. AddsUp };

    ghost lasts = { NeverFalls };
}

// Makes one event under the turn, and answers its place.
fn count<R: Wait>(
    rt: &R,
    turns: &Turns<Counters>,
    pass: &mut Pass<Counters>,
    turn: u32,
) -> Option<u64>
    requires { (pass.old.turns ≡ turns.now.id) × (pass.old.knowledge.held ≡ []) × (turn < TURNS) }
    ensures { StaysIdle pass.old pass.new }
{
    let mut held = turns.take(rt, pass, turn);
    let Some(next) = held.part().checked_add(1) else {
        turns.release(pass, held);
        return None;
    };
    *held.part_mut() = next;
    let place = turns.event(pass, &mut held, ());
    turns.release(pass, held);
    Some(place)
}

// Makes events under one turn after another, and marks their places.
fn count_on<R: Wait>(
    rt: &R,
    turns: &Turns<Counters>,
    pass: &mut Pass<Counters>,
    steps: u32,
    marks: &[AtomicU64],
)
    requires { (pass.old.turns ≡ turns.now.id) × (pass.old.knowledge.held ≡ []) }
    ensures { StaysIdle pass.old pass.new }
{
    for step in 0..steps {
        let place = count(rt, turns, pass, step % TURNS as u32).and_then(|place| usize::try_from(
            place,
        ).ok());
        if let Some(mark) = place.and_then(|place| marks.get(place)) {
            mark.fetch_add(1, Ordering::SeqCst);
        }
    }
}

// Whether the pass can take the turn now. If it can, it releases it at once.
fn is_free(turns: &Turns<Counters>, pass: &mut Pass<Counters>, turn: u32) -> bool
    requires { (pass.old.turns ≡ turns.now.id) × (pass.old.knowledge.held ≡ []) × (turn < TURNS) }
    ensures { StaysIdle pass.old pass.new }
{
    match turns.try_take(pass, turn) {
        Some(held) => {
            turns.release(pass, held);
            true
        }
        None => false,
    }
}

// Whether the second pass can take turn 5 and turn 6 while the first holds turn 5, and turn 5 after its release.
fn beside<R: Wait>(
    rt: &R,
    turns: &Turns<Counters>,
    first: &mut Pass<Counters>,
    second: &mut Pass<Counters>,
) -> (bool, bool, bool)
    requires { CanClose turns.now.id (second.old ∷ first.old ∷ []) }
    ensures { CanClose turns.now.id (second.new ∷ first.new ∷ []) }
{
    let held = turns.take(rt, first, 5);
    let five = is_free(turns, second, 5);
    let six = is_free(turns, second, 6);
    turns.release(first, held);
    (five, six, is_free(turns, second, 5))
}

// Appends the pass. True if there is no memory for it.
fn lacks<S: Shared>(all: &mut Vec<Pass<S>>, pass: Pass<S>) -> bool
    ensures { result ≡ false → all.new.items ≡ all.old.items ++ pass ∷ [] }
{
    all.push(pass).is_err()
}

// Passes with the numbers from 0 on, the last of which gives numbers.
fn passes(
    alloc: Global,
    turns: &Turns<Counters>,
    mut first: Pass<Counters>,
    more: u32,
) -> Option<Vec<Pass<Counters>>>
    requires { (first.turns ≡ turns.now.id) × (first.knowledge ≡ newcomer 0 1 0) }
    ensures { IfSome result (λ ps. CanClose turns.now.id ps.items) }
{
    let mut all = Vec::new(alloc);
    for _ in 0..more {
        if lacks(&mut all, turns.split(&mut first)) {
            return None;
        }
    }
    if lacks(&mut all, first) {
        return None;
    }
    Some(all)
}

// Each pass makes as many events, in a thread of its own.
fn spread<R: Threads + Wait + Sync>(
    rt: &R,
    turns: &Turns<Counters>,
    passes: &mut [Pass<Counters>],
    steps: u32,
    marks: &[AtomicU64],
)
    requires { AllIdle turns.now.id passes.old }
    ensures { (i : ℕ) (d : _) → i < length passes.old
        → StaysIdle (slice_index_or passes.old i d) (slice_index_or passes.new i d) }
{
    for_each_mut(
        rt,
        passes,
        8,
        &|_, pass: &mut Pass<Counters>|
            requires { (pass.old.turns ≡ turns.now.id) × (pass.old.knowledge.held ≡ []) }
            ensures { StaysIdle pass.old pass.new }
        { count_on(rt, turns, pass, steps, marks) },
    );
}

// All passes, and then what the parts come to.
fn run<R: Threads + Wait + Sync>(
    rt: &R,
    turns: Turns<Counters>,
    mut passes: Vec<Pass<Counters>>,
    steps: u32,
    marks: &[AtomicU64],
) -> Vec<u64>
    requires { CanClose turns.id passes.items }
{
    spread(rt, &turns, passes.as_mut_slice(), steps, marks);
    turns.close(passes)
}

// Both passes, for `close`.
pub(crate) fn both<S: Shared>(
    alloc: Global,
    first: Pass<S>,
    second: Pass<S>,
) -> Option<Vec<Pass<S>>>
    ensures { IfSome result (λ ps. ps.items ≡ second ∷ first ∷ []) }
{
    let mut all = Vec::new(alloc);
    if lacks(&mut all, second) || lacks(&mut all, first) {
        return None;
    }
    Some(all)
}

// Turns whose parts are all zero, with their first pass.
fn opened(alloc: Global) -> Option<(Turns<Counters>, Pass<Counters>)>
    ensures { IfSome result (λ made. (made.1.turns ≡ made.0.id) × (made.1.knowledge ≡ newcomer 0 1 0)) }
{
    let Ok(parts) = Vec::from_elem(alloc, 0u64, TURNS) else {
        return None;
    };
    match Turns::new(alloc, parts, &()) {
        Ok(made) => Some(made),
        Err(_) => None,
    }
}

// Turns with two passes.
fn paired(alloc: Global) -> Option<(Turns<Counters>, Pass<Counters>, Pass<Counters>)>
    ensures { IfSome result (λ made. CanClose made.0.id (made.2 ∷ made.1 ∷ [])) }
{
    let (turns, mut first) = opened(alloc)?;
    let second = turns.split(&mut first);
    Some((turns, first, second))
}

#[test]
fn held_turn_is_refused(rt: HostRuntime) -> Result<(), Fail> {
    let Some((turns, mut first, mut second)) = paired(rt.alloc()) else {
        panic!(rt; "no memory")
    };
    let answers = beside(&rt, &turns, &mut first, &mut second);
    assert_eq!(rt; answers, (false, true, true));
    let Some(passes) = both(rt.alloc(), first, second) else {
        panic!(rt; "no memory")
    };
    let parts = turns.close(passes);
    assert!(rt; parts.iter().all(|part| *part == 0));
    Ok(())
}

#[test]
fn each_place_once(rt: HostRuntime) -> Result<(), Fail> {
    let mut marks = Vec::new(rt.alloc());
    for _ in 0..2000 {
        marks.push(AtomicU64::new(0))?;
    }
    let Some((turns, first)) = opened(rt.alloc()) else {
        panic!(rt; "no memory")
    };
    let Some(two) = passes(rt.alloc(), &turns, first, 1) else {
        panic!(rt; "no memory")
    };
    let parts = run(&rt, turns, two, 1000, marks.as_slice());
    let sum = parts
        .iter()
        .fold(0, |sum: u64, part| sum.wrapping_add(*part));
    assert_eq!(rt; sum, 2000);
    assert!(rt; marks.iter().all(|mark| mark.load(Ordering::SeqCst) == 1));
    Ok(())
}

#[test]
fn parts_add_up(rt: HostRuntime) -> Result<(), Fail> {
    let Some((turns, first)) = opened(rt.alloc()) else {
        panic!(rt; "no memory")
    };
    let Some(eight) = passes(rt.alloc(), &turns, first, 7) else {
        panic!(rt; "no memory")
    };
    let parts = run(&rt, turns, eight, 100_000, &[]);
    let sum = parts
        .iter()
        .fold(0, |sum: u64, part| sum.wrapping_add(*part));
    assert_eq!(rt; sum, 800_000);
    Ok(())
}
