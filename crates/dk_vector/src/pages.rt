//! The rows of a vector as one reader sees them.
ghost use Rattle.std.specs.Prelude.{◌≡◌, ◌<◌, [], None, length, if◌then◌else◌, OnOk};
ghost use Rattle.std.specs.List.{All};
ghost use Rattle.dk_stamp.specs.Sees.{sees};
ghost use Rattle.dk_columns.specs.OptionTables.{with_row_set};
ghost use Rattle.dk_version.specs.Rows.{is_there};
ghost use Rattle.dk_vector.specs.Vectors.{IsNodeOf};
ghost use Rattle.dk_vector.specs.Pages.{seen_by, IsNodeBack, IsPutBack, IsHidden};

use crate::writes::write_rows;
use dk_chain::{Chain, Node};
use dk_columns::OptionRows;
use dk_stamp::{NEVER, Snapshot};
use dk_values::OutOfMemory;
use dk_version::{Stamp, Stamps};

/// Whether a reader sees a stamp, or where there is none whether it is not that of a change that was undone.
fn does_see(reader: &Option<Snapshot>, stamp: u64) -> bool
    ensures { result ≡ seen_by reader.now stamp }
{
    match reader {
        None => stamp != NEVER,
        Some(snapshot) => snapshot.sees(stamp),
    }
}

/// Writes back what a node replaced, if the reader doesn't see it.
fn write_node(
    rows: &mut OptionRows,
    node: &Node,
    reader: &Option<Snapshot>,
) -> Result<(), OutOfMemory>
    requires { IsNodeOf rows.old.kinds (length rows.old.rows) node.now }
    ensures { OnOk result (IsNodeBack (seen_by reader.now) node.now rows.old rows.new) }
{
    if !does_see(reader, node.stamp) {
        write_rows(rows, node.offsets.as_slice(), &node.old)?;
    }
    Ok(())
}

/// Writes back what the nodes replaced that the reader doesn't see, the newest first.
#[tactic(auto, using(crate::proofs::PageLemmas::back_start, crate::proofs::PageLemmas::back_end, crate::proofs::PageLemmas::node_fits))]
pub(crate) fn write_back(
    rows: &mut OptionRows,
    chain: &Chain,
    reader: &Option<Snapshot>,
) -> Result<(), OutOfMemory>
    requires { All (IsNodeOf rows.old.kinds (length rows.old.rows)) chain.now }
    ensures { OnOk result (IsPutBack (seen_by reader.now) chain.now [] rows.old rows.new) }
{
    'nodes: for k in 0..chain.len() {
        write_node(rows, chain.get(chain.len() - 1 - k), reader)?;
    }
    Ok(())
}

/// Lets a row be missing that is not there for the reader.
fn hide_row(
    rows: &mut OptionRows,
    row: usize,
    stamp: Stamp,
    snapshot: &Snapshot,
) -> Result<(), OutOfMemory>
    requires { row < length rows.old.rows }
    ensures { OnOk result (rows.new ≡ (if is_there (sees snapshot.now) stamp
        then rows.old else with_row_set row None rows.old)) }
{
    if !stamp.is_there(snapshot) {
        rows.set_missing(row)?;
    }
    Ok(())
}

/// Lets the rows be missing that are not there for the reader.
#[tactic(auto, using(crate::proofs::PageLemmas::hide_start, crate::proofs::PageLemmas::hide_next, crate::proofs::PageLemmas::hide_end, crate::proofs::PageLemmas::none_hidden))]
pub(crate) fn hide_rows(
    rows: &mut OptionRows,
    stamps: &Stamps,
    snapshot: &Snapshot,
) -> Result<(), OutOfMemory>
    requires { length rows.old.rows ≡ length stamps.now.rows }
    ensures { OnOk result (IsHidden (sees snapshot.now) stamps.now.rows rows.old rows.new) }
{
    if stamps.are_there(snapshot) {
        return Ok(());
    }
    'rows: for row in 0..stamps.len() {
        hide_row(rows, row, stamps.get(row), snapshot)?;
    }
    Ok(())
}
