//! Lists, their members parted by commas, and names with their places.
ghost use Rattle.std.specs.Prelude.{◌≡◌, ◌≤◌, length, IfOk, ℕ};
ghost use Rattle.dk_sql.specs.Readers.{Reader, Gives, with_front};
ghost use Rattle.dk_sql.specs.Lists.{more_at, list_at, enclosed_at, spot_at};

use crate::fault::Stop;
use crate::tokens::{fault, mark, mark_after, name, place};
use dk_syntax::Spot;
use dk_values::List;
use std::alloc::Global;

/// How many members may follow the first, where the grammar has no limit.
pub const ANY: usize = usize::MAX;

/// What surrounds a reader: where memory comes from, and how many bytes the whole text has.
#[derive(Clone, Copy)]
pub struct Scope {
    pub alloc: Global,
    pub whole: u32,
}

/// What stands in a list.
pub trait Member: Drop {
    /// What a text has at its front, and the rest, where the whole has so many bytes.
    ghost found: { ℕ → Reader Self };

    fn read(scope: Scope, text: &[u8]) -> Result<(Self, &[u8]), Stop>
        requires { length text.now ≤ scope.whole }
        ensures exact { Gives (λ x. (x.0, x.1.now)) result (found scope.whole text.now) }
        ensures within { IfOk result (λ x. length x.1.now ≤ length text.now) };
}

/// A name with its place.
impl Member for Spot {
    ghost found = { spot_at };

    fn read(scope: Scope, text: &[u8]) -> Result<(Spot, &[u8]), Stop> {
        let at = place(scope.whole, text);
        let (name, rest) = name(scope.alloc, text)?;
        Ok((Spot { at, name }, rest))
    }
}

/// The members behind those that were read, each behind a comma, and at most so many.
fn more<M: Member>(
    scope: Scope,
    members: List<M>,
    further: usize,
    text: &[u8],
) -> Result<(List<M>, &[u8]), Stop>
    requires { length text.now ≤ scope.whole }
    ensures exact { Gives (λ x. (x.0, x.1.now)) result
        (with_front members (more_at (M.found scope.whole) further text.now)) }
    ensures within { IfOk result (λ x. length x.1.now ≤ length text.now) }
{
    let mut members = members;
    let mut left = further;
    let mut rest = text;
    'members: while let Some(after) = mark_after(rest, b',') {
        if left == 0 {
            return Err(fault(after));
        }
        let (member, next) = M::read(scope, after)?;
        members.push(member)?;
        rest = next;
        left -= 1;
    }
    Ok((members, rest))
}

/// One member or several, at most so many behind the first.
#[tactic(auto, unfolding(crate::specs::Lists::list_at))]
pub fn list<M: Member>(scope: Scope, further: usize, text: &[u8]) -> Result<(List<M>, &[u8]), Stop>
    requires { length text.now ≤ scope.whole }
    ensures exact { Gives (λ x. (x.0, x.1.now)) result (list_at (M.found scope.whole) further text.now) }
    ensures within { IfOk result (λ x. length x.1.now ≤ length text.now) }
{
    let (first, rest) = M::read(scope, text)?;
    let mut members = List::new(scope.alloc);
    members.push(first)?;
    more(scope, members, further, rest)
}

/// A list in parentheses.
#[tactic(auto, unfolding(crate::specs::Lists::enclosed_at))]
pub fn enclosed<M: Member>(
    scope: Scope,
    further: usize,
    text: &[u8],
) -> Result<(List<M>, &[u8]), Stop>
    requires { length text.now ≤ scope.whole }
    ensures exact { Gives (λ x. (x.0, x.1.now)) result (enclosed_at (M.found scope.whole) further text.now) }
    ensures within { IfOk result (λ x. length x.1.now ≤ length text.now) }
{
    let inside = mark(text, b'(')?;
    let (members, rest) = list(scope, further, inside)?;
    let rest = mark(rest, b')')?;
    Ok((members, rest))
}
