//! Changes and deletions of rows of one vector, refused where a reader doesn't see a row's newest version.
ghost use Rattle.std.specs.Prelude.{◌≡◌, ◌≢◌, ◌<◌, ◌+◌, ◌^◌, None, Some, true, false, length, IfErr, OnOk, OnErr};
ghost use Rattle.std.specs.List.{All};
ghost use Rattle.dk_stamp.specs.declared.snapshot.TheConstants.{NEVER as UNDONE};
ghost use Rattle.dk_stamp.specs.Sees.{sees};
ghost use Rattle.dk_columns.specs.OptionTables.{FitsKinds};
ghost use Rattle.dk_vector.specs.Vectors.{AreThere, ArePlaced, IsOnTop, first_blocked, against_in};
ghost use Rattle.dk_group.specs.Groups.{IsStep, IsRefusal, same, changing, erasing, error_of, told};

use dk_rows::Rows;
use dk_stamp::{GroupError, Snapshot};
use dk_values::OutOfMemory;
use dk_vector::{Blocked, Vector};
use std::alloc::Global;

/// Why rows of a vector can't be changed.
#[derive(Clone, Copy, Debug, PartialEq, Eq)]
pub enum Refusal {
    /// Something stands against a change of a row.
    Blocked(Blocked),
    OutOfMemory,
}

/// Refuses where something stands against a change of one of the rows.
fn check_rows(vector: &Vector, rows: &[u16], snapshot: &Snapshot) -> Result<(), Refusal>
    requires there { AreThere (sees snapshot.now) vector.now rows.now }
    requires never { sees snapshot.now UNDONE ≡ false }
    ensures free { OnOk result (first_blocked (against_in (sees snapshot.now) vector.now) rows.now ≡ None) }
    ensures refused { IfErr result (λ e.
        IsRefusal (first_blocked (against_in (sees snapshot.now) vector.now) rows.now) e) }
{
    match vector.first_blocked(rows, snapshot) {
        Some(blocked) => Err(Refusal::Blocked(blocked)),
        None => Ok(()),
    }
}

/// Changes rows, each to its values of a list.
fn write_vector(
    vector: &mut Vector,
    alloc: Global,
    rows: &[u16],
    values: &Rows,
    id: u64,
) -> Result<(), OutOfMemory>
    requires id { id ≢ UNDONE }
    requires placed { ArePlaced rows.now vector.old }
    requires count { length values.now ≡ length rows.now }
    requires fits { All (FitsKinds vector.old.base.kinds) values.now }
    ensures ok { OnOk result (IsStep (changing id rows.now values.now) vector.old vector.new) }
    ensures top { OnOk result (IsOnTop id vector.old.nodes → IsOnTop id vector.new.nodes) }
    ensures err { OnErr result (IsStep same vector.old vector.new) }
{
    vector.clean()?;
    vector.change(alloc, rows, values, id)
}

/// Changes rows that nothing stands against, each to its values of a list.
pub(crate) fn change_vector(
    vector: &mut Vector,
    alloc: Global,
    rows: &[u16],
    values: &Rows,
    snapshot: &Snapshot,
) -> Result<(), Refusal>
    requires never { sees snapshot.now UNDONE ≡ false }
    requires id { snapshot.now.id ≢ UNDONE }
    requires there { AreThere (sees snapshot.now) vector.old rows.now }
    requires count { length values.now ≡ length rows.now }
    requires fits { All (FitsKinds vector.old.base.kinds) values.now }
    ensures ok { OnOk result (IsStep (changing snapshot.now.id rows.now values.now) vector.old vector.new) }
    ensures top { OnOk result (IsOnTop snapshot.now.id vector.old.nodes → IsOnTop snapshot.now.id vector.new.nodes) }
    ensures err { OnErr result (IsStep same vector.old vector.new) }
    ensures free { OnOk result (first_blocked (against_in (sees snapshot.now) vector.old) rows.now ≡ None) }
    ensures refused { IfErr result (λ e.
        IsRefusal (first_blocked (against_in (sees snapshot.now) vector.old) rows.now) e) }
{
    check_rows(vector, rows, snapshot)?;
    match write_vector(vector, alloc, rows, values, snapshot.id) {
        Ok(()) => Ok(()),
        Err(_) => Err(Refusal::OutOfMemory),
    }
}

/// Deletes rows that nothing stands against.
pub(crate) fn erase_vector(
    vector: &mut Vector,
    rows: &[u16],
    snapshot: &Snapshot,
) -> Result<(), Refusal>
    requires never { sees snapshot.now UNDONE ≡ false }
    requires there { AreThere (sees snapshot.now) vector.old rows.now }
    ensures ok { OnOk result (IsStep (erasing snapshot.now.id rows.now) vector.old vector.new) }
    ensures placed { OnOk result (ArePlaced rows.now vector.new × (vector.new.stamps.apart ≡ true)) }
    ensures nodes { OnOk result (vector.new.nodes ≡ vector.old.nodes) }
    ensures err { OnErr result (vector.new ≡ vector.old) }
    ensures free { OnOk result (first_blocked (against_in (sees snapshot.now) vector.old) rows.now ≡ None) }
    ensures refused { IfErr result (λ e.
        IsRefusal (first_blocked (against_in (sees snapshot.now) vector.old) rows.now) e) }
{
    check_rows(vector, rows, snapshot)?;
    match vector.erase(rows, snapshot.id) {
        Ok(()) => Ok(()),
        Err(_) => Err(Refusal::OutOfMemory),
    }
}

/// The error of a refusal in a vector whose first row has this id.
fn error_of(start: u64, refusal: Refusal) -> GroupError
    requires { start + 2 ^ 16 < 2 ^ 64 }
    ensures { result ≡ error_of start refusal }
{
    match refusal {
        Refusal::Blocked(blocked) => GroupError::Conflict {
            row: start + blocked.row as u64,
            stamp: blocked.stamp,
        },
        Refusal::OutOfMemory => GroupError::OutOfMemory,
    }
}

/// What a change of a vector, whose first row has this id, tells.
pub(crate) fn tell(start: u64, done: Result<(), Refusal>) -> Result<(), GroupError>
    requires { start + 2 ^ 16 < 2 ^ 64 }
    ensures { result ≡ told start done }
{
    match done {
        Ok(()) => Ok(()),
        Err(refusal) => Err(error_of(start, refusal)),
    }
}
