//! Items that are found by their names.
ghost use Rattle.std.specs.Prelude.{◌≡◌, ◌<◌, List, ℕ, length, IfSome};
ghost use Rattle.dk_si.specs.Database.{place_of};

use crate::database::Table;
use dk_types::Column;

/// What has a name among others.
pub trait Named {
    ghost name: { Self → List ℕ };

    fn name(&self) -> &[u8]
        ensures { result.now ≡ name self.now };
}

impl Named for Table {
    ghost name = { λ table. table.name };

    fn name(&self) -> &[u8] {
        self.name.as_slice()
    }
}

impl Named for Column {
    ghost name = { λ column. column.name };

    fn name(&self) -> &[u8] {
        self.name.as_slice()
    }
}

/// The place of the item of that name.
pub fn place_of<T: Named>(items: &[T], name: &[u8]) -> Option<usize>
    ensures place { result ≡ place_of T.name name.now items.now }
    ensures within { IfSome result (λ place. place < length items.now) }
{
    items.iter().position(|item| item.name() == name)
}
