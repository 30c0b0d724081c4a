//! A text is read, and then bound.
ghost use Rattle.std.specs.Prelude.{◌≤◌, ◌<◌, ◌^◌, length};
ghost use Rattle.dk_bind.specs.declared.statements.TheConstants.{MAX_TABLES};
ghost use Rattle.dk_bind.specs.Outcomes.{Binds};
ghost use Rattle.dk_statements.specs.Texts.{bound_text};

use dk_bind::{BindError, bind};
use dk_pages::Tree;
use dk_sql::{ParseError, parse};
use dk_types::{Bound, Refusal};
use std::alloc::Global;

/// The statement that a text is, bound to the tables of a view, or its refusal. `copy` are the data of a COPY.
pub fn bind_text(alloc: Global, text: &[u8], copy: &[u8], view: &Tree) -> Result<Bound, BindError>
    requires short { length text.now < 2 ^ 32 }
    requires few { length view.now ≤ MAX_TABLES }
    ensures { Binds result (bound_text view.now text.now copy.now) }
{
    match parse(alloc, text, copy) {
        Ok(statement) => bind(alloc, &statement, view),
        Err(ParseError::Syntax { at }) => Err(BindError::Refused(Refusal::Syntax { at })),
        Err(ParseError::OutOfMemory) => Err(BindError::OutOfMemory),
    }
}
