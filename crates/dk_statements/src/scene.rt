//! Two tables, and what texts are bound to beside them.
use crate::bind_text;
use dk_bind::{BindError, MAX_TABLES};
use dk_pages::{TableEntry, Tree};
use dk_types::Bound;
use dk_values::{List, OutOfMemory};
use std::alloc::Global;

/// Binds a text that is not too long to tables that are not too many, with the data `1,2`.
pub fn bound(alloc: Global, view: &Tree, text: &[u8]) -> Result<Bound, BindError> {
    if text.len() >= 1 << 32 || view.len() > MAX_TABLES {
        return Err(BindError::OutOfMemory);
    }
    bind_text(alloc, text, b"1,2", view)
}

/// Puts the table that a text creates behind the others, if it creates one.
fn create(alloc: Global, view: &mut Tree, text: &[u8]) -> Result<(), OutOfMemory> {
    if let Ok(Bound::Create { name, schema }) = bound(alloc, view, text) {
        view.push(TableEntry {
            name,
            schema,
            groups: List::new(alloc),
        })?;
    }
    Ok(())
}

/// Table 0, `t`, with a column of each type, and table 1, `u`, with one number.
pub fn tables(alloc: Global) -> Result<Tree, OutOfMemory> {
    let mut view = List::new(alloc);
    create(
        alloc,
        &mut view,
        b"CREATE TABLE t (a BIGINT, b INTEGER, c VARCHAR, d BOOLEAN)",
    )?;
    create(alloc, &mut view, b"CREATE TABLE u (n BIGINT)")?;
    Ok(view)
}
