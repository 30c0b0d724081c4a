//! The flags of the values that a scan takes.
ghost use Rattle.std.specs.Prelude.{◌≡◌, ◌<◌, Some, length, slice_get};
ghost use Rattle.dk_columns.specs.Flags.{IsWord};
ghost use Rattle.dk_scans.specs.Selection.{both};

use dk_columns::Mask;
use std::marker::Model;

/// Rows that are asked for, and values that are not null, seen as the flags of what is both.
#[derive(Drop)]
pub struct Selection<'a> {
    rows: &'a Mask,
    present: &'a Mask,
}

impl<'a> Model for Selection<'a> {
    ghost use Rattle.std.specs.Prelude.{◌≡◌, List, Bool, length};
    ghost use Rattle.dk_scans.specs.Selection.{both};

    ghost Value = { List Bool };

    ghost view = { λ s. both s.rows.now s.present.now };

    ghost invariant = { λ s. length s.rows.now ≡ length s.present.now };
}

impl<'a> Selection<'a> {
    pub fn new(rows: &'a Mask, present: &'a Mask) -> Selection<'a>
        requires { length rows.now ≡ length present.now }
        ensures { result ≡ both rows.now present.now }
    {
        Selection { rows, present }
    }

    pub fn len(&self) -> usize
        ensures { result ≡ length self.now }
    {
        self.rows.len()
    }

    pub fn get(&self, i: usize) -> bool
        requires { i < length self.now }
        ensures { slice_get self.now i ≡ Some result }
    {
        self.rows.get(i) & self.present.get(i)
    }

    /// The flags from the k-th 64 on, the least bit first.
    pub fn word(&self, k: usize) -> u64
        ensures { IsWord k result self.now }
    {
        self.rows.word(k) & self.present.word(k)
    }
}
