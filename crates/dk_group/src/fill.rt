//! Vectors of rows that are put in at once.
ghost use Rattle.std.specs.Prelude.{◌≡◌, ◌≢◌, IfOk};
ghost use Rattle.std.specs.List.{All};
ghost use Rattle.dk_stamp.specs.declared.snapshot.TheConstants.{NEVER as UNDONE};
ghost use Rattle.dk_vector.specs.Vectors.{IsRow};
ghost use Rattle.dk_group.specs.Groups.{IsFilled};

use dk_columns::OptionRows;
use dk_values::{ColType, OutOfMemory};
use dk_vector::Vector;
use std::alloc::Global;

/// A vector of rows that a transaction put in.
pub fn filled_vector(
    alloc: Global,
    kinds: &[ColType],
    rows: &OptionRows,
    id: u64,
) -> Result<Vector, OutOfMemory>
    requires kinds { kinds.now ≡ rows.now.kinds }
    requires there { All (IsRow rows.now.kinds) rows.now.rows }
    requires id { id ≢ UNDONE }
    ensures { IfOk result (λ vector. IsFilled id rows.now vector) }
{
    let mut vector = Vector::new(alloc, kinds)?;
    vector.reserve(rows)?;
    vector.append(id);
    Ok(vector)
}
