//! Parts of a statement that are bound one after another.
ghost use Rattle.std.specs.Prelude.{◌≡◌, ℕ, option_map};
ghost use Rattle.dk_bind.specs.Outcomes.{Outcome, Binds};
ghost use Rattle.dk_bind.specs.Lists.{bound_from};
ghost use Rattle.dk_bind.specs.Queries.{Around, around_of};

use crate::fault::BindError;
use dk_syntax::{Set, Spot};
use dk_values::{List, Schema};
use std::alloc::Global;

/// What surrounds the parts of a statement: the columns of its table; of a query those of GROUP BY, whether it is
/// grouped, and the columns that an INSERT puts its items into; and the sets of an UPDATE.
#[derive(Clone, Copy)]
pub struct Scope<'a> {
    pub alloc: Global,
    pub schema: &'a Schema,
    pub grouped: bool,
    pub groups: &'a [Spot],
    pub targets: Option<&'a Schema>,
    pub sets: &'a [Set],
}

/// What is bound to a `B`.
pub trait Part<B: Drop> {
    /// What it is bound to at a place among its like.
    ghost meaning: { Around → ℕ → Self → Outcome B };

    fn bind(&self, scope: &Scope<'_>, place: usize) -> Result<B, BindError>
        ensures { Binds result (meaning (around_of scope.now) place self.now) };
}

/// Binds parts one after another, up to the first refusal.
pub fn bind_all<B: Drop, P: Part<B>>(scope: &Scope<'_>, parts: &[P]) -> Result<List<B>, BindError>
    ensures { Binds result (bound_from (P.meaning (around_of scope.now)) 0 parts.now) }
{
    let mut bound = List::new(scope.alloc);
    'parts: for (place, part) in parts.iter().enumerate() {
        bound.push(part.bind(scope, place)?)?;
    }
    Ok(bound)
}
