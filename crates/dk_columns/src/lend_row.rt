//! Rows whose values are lent one by one, however they are kept.
ghost use Rattle.std.specs.Prelude.{◌≡◌, ◌<◌, List, Some, length, slice_get, replicate};
ghost use Rattle.dk_values.specs.declared.value.Value.{Value as StoredValue};
ghost use Rattle.dk_values.specs.declared.value.Value.TheVariants.{Null as null};
ghost use Rattle.dk_rows.specs.Cells.{value_of};

use dk_rows::{Cell, RowRef};
use dk_values::{List, Value};

/// A row whose values are lent one by one.
pub trait LendRow {
    ghost values: { Self → List StoredValue };

    fn width(&self) -> usize
        ensures { result ≡ length (values self.now) };

    /// Lends the j-th value, counted from 0.
    fn cell(&self, j: usize) -> Cell<'_>
        requires { j < length (values self.now) }
        ensures { slice_get (values self.now) j ≡ Some (value_of result) };
}

impl LendRow for List<Value> {
    ghost values = { λ row. row };

    fn width(&self) -> usize {
        self.len()
    }

    fn cell(&self, j: usize) -> Cell<'_> {
        Cell::of(self.get(j))
    }
}

impl<'a> LendRow for RowRef<'a> {
    ghost values = { λ row. row };

    fn width(&self) -> usize {
        self.len()
    }

    fn cell(&self, j: usize) -> Cell<'_> {
        self.get(j)
    }
}

/// A row of nulls.
#[derive(Clone, Copy, Debug)]
pub(crate) struct Nulls {
    pub(crate) width: usize,
}

impl LendRow for Nulls {
    ghost values = { λ nulls. replicate nulls.width null };

    fn width(&self) -> usize {
        self.width
    }

    #[tactic(auto, using(crate::proofs::PutLemmas::null_at))]
    fn cell(&self, _j: usize) -> Cell<'_> {
        Cell::Null
    }
}
