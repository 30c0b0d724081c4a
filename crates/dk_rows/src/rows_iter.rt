//! Going over rows.
ghost use Rattle.std.specs.Prelude.{◌≡◌};
ghost use Rattle.std.specs.Iterator.{YieldsFirst, item_count};

use crate::row_ref::RowRef;
use crate::rows::Rows;
use std::marker::Model;

/// Lends one row after the other, seen as the list of the rows that are left.
#[derive(Drop)]
pub struct RowsIter<'a> {
    rows: &'a Rows,
    at: usize,
}

impl<'a> Model for RowsIter<'a> {
    ghost use Rattle.std.specs.Prelude.{List, drop};
    ghost use Rattle.dk_values.specs.declared.value.Value.{Value as StoredValue};

    ghost Value = { List (List StoredValue) };

    ghost view = { λ iter. drop iter.at iter.rows.now };
}

impl<'a> RowsIter<'a> {
    pub fn new(rows: &'a Rows) -> RowsIter<'a>
        ensures { result ≡ rows.now }
    {
        RowsIter { rows, at: 0 }
    }
}

impl<'a> Iterator for RowsIter<'a> {
    type Item = RowRef<'a>;

    ghost next_gives = { YieldsFirst (λ iter. iter) };

    ghost remaining = { item_count (λ iter. iter) };

    fn next(&mut self) -> Option<RowRef<'a>> {
        if self.at >= self.rows.len() {
            return None;
        }
        let row = self.rows.get(self.at);
        self.at += 1;
        Some(row)
    }
}
