//! Turns with a key, and with notes that depend on what a pass did before: tickets, which each pass numbers from the
//! key on.
ghost use Rattle.std.specs.Prelude.{◌≡◌, ℕ, ◌+◌, ◌<◌, ◌≤◌, ◌^◌, [], ◌∷◌, length, IfSome};
ghost use Rattle.dk_turns.specs.declared.knowledge.Observation.{Observation};
ghost use Rattle.dk_turns.specs.IdlePasses.{CanClose, StaysIdle};
ghost use Rattle.dk_turns.specs.TurnStates.{Among};

use crate::tests::both;
use crate::{Pass, Shared, TURNS, Turns};
use std::alloc::Global;
use std::sync::Wait;
use std::test::Fail;

// The turn under which all tickets are sold.
const COUNTER: u32 = 5;

// A part is the most tickets that a pass had sold as it held the turn.
struct Tickets;

impl Shared for Tickets {
    ghost use Rattle.dk_turns.specs.Tickets.{IsNumbered, KeepsUp};

    type Key = u64;

    type Part = u64;

    type Note = u64;

    ghost holds = { IsNumbered };

    ghost lasts = { KeepsUp };
}

// Sells the pass's next ticket, whose number is the key and as many as it has sold. Answers what the part showed.
fn sell<R: Wait>(
    rt: &R,
    turns: &Turns<Tickets>,
    pass: &mut Pass<Tickets>,
    first: u64,
    sold: u64,
) -> u64
    requires pass { (pass.old.turns ≡ turns.now.id) × (pass.old.knowledge.held ≡ []) }
    requires key { first ≡ turns.now.key }
    requires sold { length pass.old.knowledge.events ≡ sold }
    requires room { first + sold + 1 < 2 ^ 64 }
    ensures idle { StaysIdle pass.old pass.new }
    ensures sold { length pass.new.knowledge.events ≡ sold + 1 }
    ensures kept_up { (m : Observation ℕ ℕ) → Among pass.old.knowledge.noted m → m.turn ≡ 5
        → length m.before ≤ result }
{
    let mut held = turns.take(rt, pass, COUNTER);
    let shown = *held.part();
    *held.part_mut() = shown.max(sold + 1);
    turns.event(pass, &mut held, first + sold);
    turns.release(pass, held);
    shown
}

// One pass sells three tickets, the other one, and the first a fourth. Answers what the part showed each time.
fn sales<R: Wait>(
    rt: &R,
    turns: &Turns<Tickets>,
    one: &mut Pass<Tickets>,
    other: &mut Pass<Tickets>,
    first: u64,
) -> [u64; 5]
    requires key { (first ≡ turns.now.key) × (first < 2 ^ 32) }
    requires ready { CanClose turns.now.id (other.old ∷ one.old ∷ []) }
    requires fresh { (one.old.knowledge.events ≡ []) × (other.old.knowledge.events ≡ []) }
    ensures { CanClose turns.now.id (other.new ∷ one.new ∷ []) }
{
    let a = sell(rt, turns, one, first, 0);
    let b = sell(rt, turns, one, first, 1);
    let c = sell(rt, turns, one, first, 2);
    let d = sell(rt, turns, other, first, 0);
    let e = sell(rt, turns, one, first, 3);
    [a, b, c, d, e]
}

// Turns with the key and two passes.
fn counters(alloc: Global, first: u64) -> Option<(Turns<Tickets>, Pass<Tickets>, Pass<Tickets>)>
    ensures ready { IfSome result (λ made. CanClose made.0.id (made.2 ∷ made.1 ∷ [])) }
    ensures key { IfSome result (λ made. made.0.key ≡ first) }
    ensures fresh { IfSome result (λ made. (made.1.knowledge.events ≡ []) × (made.2.knowledge.events ≡ [])) }
{
    let Ok(parts) = Vec::from_elem(alloc, 0u64, TURNS) else {
        return None;
    };
    let Ok((turns, mut one)) = Turns::new(alloc, parts, &first) else {
        return None;
    };
    let other = turns.split(&mut one);
    Some((turns, one, other))
}

#[test]
fn tickets_are_numbered_from_the_key(rt: HostRuntime) -> Result<(), Fail> {
    let Some((turns, mut one, mut other)) = counters(rt.alloc(), 1000) else {
        panic!(rt; "no memory")
    };
    let shown = sales(&rt, &turns, &mut one, &mut other, 1000);
    assert_eq!(rt; shown, [0, 1, 2, 3, 3]);
    let Some(passes) = both(rt.alloc(), one, other) else {
        panic!(rt; "no memory")
    };
    let parts = turns.close(passes);
    assert_eq!(rt; parts.iter().max(), Some(&4));
    assert_eq!(rt; parts.as_slice().get(5), Some(&4));
    Ok(())
}
