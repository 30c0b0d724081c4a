//! Things of a payload that are read one behind the other, each with those before it in view.
ghost use Rattle.std.specs.Prelude.{ℕ, List, [], Result, IfOk};
ghost use Rattle.dk_bytes.specs.Fields.{Place};
ghost use Rattle.dk_bytes.specs.Reading.{Reads, AllFollow, list_at};

use dk_bytes::{Cursor, FieldError};
use std::alloc::Global;

/// A thing that is read with a context, as the columns of its table.
pub(crate) trait Next<C>: Drop {
    /// The thing that stands at a place, behind these.
    ghost read_at: { C → List Self → Place → Result (Self × Place) ℕ };

    /// It fits behind those before it.
    ghost fits_behind: { List Self → Self → Type 0 };

    /// Reads the thing that stands next.
    fn read_next(
        alloc: Global,
        cursor: &mut Cursor,
        context: &C,
        earlier: &[Self],
    ) -> Result<Self, FieldError>
        ensures reads { Reads (λ x. x) result cursor.new (read_at context.now earlier.now cursor.old) }
        ensures behind { IfOk result (λ x. fits_behind earlier.now x) };
}

/// Reads so many things. No more room is taken than what is read asks for.
pub(crate) fn read_each<C, T: Next<C>>(
    alloc: Global,
    cursor: &mut Cursor,
    context: &C,
    count: u32,
) -> Result<Vec<T>, FieldError>
    ensures reads { Reads (λ xs. xs.items) result cursor.new
        (list_at (T.read_at context.now) count [] cursor.old) }
    ensures follow { IfOk result (λ xs. AllFollow T.fits_behind [] xs.items) }
{
    let mut things = Vec::new(alloc);
    'things: for _ in 0..count {
        let thing = T::read_next(alloc, cursor, context, things.as_slice())?;
        things.push(thing)?;
    }
    Ok(things)
}
