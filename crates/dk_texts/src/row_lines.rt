//! A row as a line of a result.
ghost use Rattle.std.specs.Prelude.{◌≡◌, ◌<◌, ◌++◌, drop, length, OnOk};
ghost use Rattle.dk_texts.specs.Texts.{more_values, values_text, row_text};

use crate::fields::put_cell;
use crate::pieces::put;
use dk_types::{OutOfMemory, RowRef};

/// Puts the values behind the first one at the end, each behind a comma.
fn put_more(out: &mut Vec<u8>, row: &RowRef<'_>) -> Result<(), OutOfMemory>
    requires { 0 < length row.now }
    ensures ok { OnOk result (out.new.items ≡ out.old.items ++ more_values (drop 1 row.now)) }
{
    'cells: for j in 1..row.len() {
        put(out, b",")?;
        put_cell(out, row.get(j))?;
    }
    Ok(())
}

/// Puts the values at the end, with commas between them.
fn put_values(out: &mut Vec<u8>, row: &RowRef<'_>) -> Result<(), OutOfMemory>
    ensures ok { OnOk result (out.new.items ≡ out.old.items ++ values_text row.now) }
{
    if row.is_empty() {
        return Ok(());
    }
    put_cell(out, row.get(0))?;
    put_more(out, row)
}

/// Puts a line of a result at the end.
#[tactic(auto, using(crate::proofs::RowLemmas::shown_quotes, crate::proofs::RowLemmas::shown_values))]
pub fn put_row(out: &mut Vec<u8>, row: &RowRef<'_>) -> Result<(), OutOfMemory>
    ensures ok { OnOk result (out.new.items ≡ out.old.items ++ row_text row.now) }
{
    let before = out.len();
    put_values(out, row)?;
    if out.len() == before {
        return put(out, b"\"\"\n");
    }
    put(out, b"\n")
}
