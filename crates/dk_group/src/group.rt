//! The vectors of a group, and the calls on one of them.
ghost use Rattle.std.specs.Prelude.{◌≡◌, ◌≢◌, ◌<◌, ◌+◌, ◌*◌, ◌^◌, false, None, [], length, slice_get, IfOk, IfErr, OnOk, OnErr};
ghost use Rattle.dk_stamp.specs.declared.snapshot.TheConstants.{NEVER as UNDONE};
ghost use Rattle.dk_stamp.specs.Sees.{sees};
ghost use Rattle.dk_vector.specs.Stacks.{pruned};
ghost use Rattle.dk_group.specs.Groups.{IsChangedAt, IsKept, with_page, stamping, undoing, changing, erasing, same, placing, place_stamping, displacing, erase_stamping, restoring, with_vector, AreFreshAt, ArePlacedAt, IsTopAt, TopsStay, AreThereAt, FitVector, IsPageAt, IsError, blocked_in};

use crate::edits::{change_vector, erase_vector, tell};
use dk_columns::OptionRows;
use dk_rows::Rows;
use dk_stamp::{GroupError, Snapshot};
use dk_values::OutOfMemory;
use dk_vector::Vector;
use std::alloc::Global;
use std::marker::Model;

/// How many rows a vector has at most.
pub const VECTOR_ROWS: u64 = 2048;

/// The vectors of a group, the row id of its first row, and the root block of the page that it was settled on last.
#[derive(Drop)]
pub struct Group {
    alloc: Global,
    first: u64,
    vectors: Vec<Vector>,
    settled: Option<u64>,
}

impl Model for Group {
    ghost use Rattle.dk_group.specs.Groups.{GroupRows, IsGroup};

    ghost Value = { GroupRows };

    ghost view = { λ group. record {
      first = group.first;
      vectors = group.vectors.items;
      settled = group.settled;
    } };

    ghost invariant = { λ group. IsGroup group.first group.vectors.items };
}

impl Group {
    /// No rows. The row ids of those to come begin with this one.
    pub fn empty(alloc: Global, first: u64) -> Group
        requires { first + 2 ^ 18 < 2 ^ 64 }
        ensures { result ≡ record { first = first; vectors = []; settled = None } }
    {
        Group {
            alloc,
            first,
            vectors: Vec::new(alloc),
            settled: None,
        }
    }

    /// How many vectors there are.
    pub fn len(&self) -> usize
        ensures { result ≡ length self.now.vectors }
    {
        self.vectors.len()
    }

    /// Puts a vector behind the others.
    pub fn push(&mut self, vector: Vector) -> Result<(), OutOfMemory>
        requires { length self.old.vectors < 60 }
        ensures ok { OnOk result (self.new ≡ with_vector vector self.old) }
        ensures err { OnErr result (self.new ≡ self.old) }
    {
        self.vectors.push(vector).map_err(|_| OutOfMemory)
    }

    /// Takes the group as settled on the page with this root block, and hands out the one before. What its rows show
    /// stays the same.
    pub fn settle(&mut self, root: u64) -> Option<u64>
        ensures before { result ≡ self.old.settled }
        ensures page { self.new ≡ with_page root self.old }
        ensures rows { IsKept self.old self.new }
    {
        let before = self.settled;
        self.settled = Some(root);
        before
    }

    /// Puts in the spare rows of a vector, for a transaction.
    pub fn append(&mut self, at: usize, id: u64)
        requires vector { at < length self.old.vectors }
        requires id { id ≢ UNDONE }
        requires fresh { AreFreshAt (slice_get self.old.vectors at) }
        ensures rows { IsChangedAt at (placing id (slice_get self.old.vectors at)) self.old self.new }
        ensures tops { TopsStay self.old self.new }
    {
        self.vectors[at].append(id);
    }

    /// Gives the rows that a transaction put into a vector its commit's number.
    pub fn stamp_append(&mut self, at: usize, id: u64, number: u64)
        requires vector { at < length self.old.vectors }
        requires id { id ≢ UNDONE }
        requires number { number ≢ UNDONE }
        ensures rows { IsChangedAt at (place_stamping id number) self.old self.new }
        ensures tops { TopsStay self.old self.new }
    {
        self.vectors[at].stamp_append(id, number);
    }

    /// Takes away the rows that a transaction put into a vector: they are spare again.
    pub fn undo_append(&mut self, at: usize, id: u64)
        requires vector { at < length self.old.vectors }
        requires id { id ≢ UNDONE }
        ensures rows { IsChangedAt at (displacing id) self.old self.new }
        ensures tops { TopsStay self.old self.new }
    {
        self.vectors[at].undo_append(id);
    }

    /// Gives the deletion of rows of a vector its commit's number.
    pub fn stamp_delete(&mut self, at: usize, rows: &[u16], number: u64)
        requires vector { at < length self.old.vectors }
        requires placed { ArePlacedAt rows.now (slice_get self.old.vectors at) }
        ensures rows { IsChangedAt at (erase_stamping number rows.now) self.old self.new }
        ensures tops { TopsStay self.old self.new }
    {
        self.vectors[at].stamp_erased(rows, number);
    }

    /// Undoes the deletion of rows of a vector.
    pub fn undo_delete(&mut self, at: usize, rows: &[u16])
        requires vector { at < length self.old.vectors }
        requires placed { ArePlacedAt rows.now (slice_get self.old.vectors at) }
        ensures rows { IsChangedAt at (restoring rows.now) self.old self.new }
        ensures tops { TopsStay self.old self.new }
    {
        self.vectors[at].restore(rows);
    }

    /// Takes away the nodes of a vector whose stamp is at most the bound.
    pub fn drop_old(&mut self, at: usize, bound: u64)
        requires vector { at < length self.old.vectors }
        requires bound { bound < UNDONE }
        ensures rows { IsChangedAt at (λ _ stack. pruned bound stack) self.old self.new }
        ensures tops { TopsStay self.old self.new }
    {
        self.vectors[at].drop_old(bound);
    }

    /// Gives the oldest update of a transaction in a vector its commit's number.
    pub fn stamp_update(&mut self, at: usize, id: u64, number: u64)
        requires vector { at < length self.old.vectors }
        requires id { id ≢ UNDONE }
        requires number { number ≢ UNDONE }
        ensures { IsChangedAt at (stamping id number (slice_get self.old.vectors at)) self.old self.new }
    {
        self.vectors[at].stamp_update(id, number);
    }

    /// Undoes the newest update of a transaction in a vector.
    pub fn undo_update(&mut self, at: usize, id: u64)
        requires vector { at < length self.old.vectors }
        requires id { id ≢ UNDONE }
        requires top { IsTopAt id (slice_get self.old.vectors at) }
        ensures rows { IsChangedAt at (undoing id (slice_get self.old.vectors at)) self.old self.new }
        ensures top { IsTopAt id (slice_get self.new.vectors at) }
    {
        self.vectors[at].undo_update(id);
    }

    /// The rows of a vector as a reader sees them.
    pub fn read(&self, at: usize, snapshot: &Snapshot) -> Result<Page, OutOfMemory>
        requires vector { at < length self.now.vectors }
        requires never { sees snapshot.now UNDONE ≡ false }
        ensures first { IfOk result (λ page. page.first ≡ self.now.first + 2048 * at) }
        ensures rows { IfOk result (λ page.
            IsPageAt (sees snapshot.now) (slice_get self.now.vectors at) page.rows) }
    {
        let rows = self.vectors[at].read(snapshot)?;
        Ok(Page {
            first: self.first + VECTOR_ROWS * at as u64,
            rows,
        })
    }

    /// Changes rows of a vector: each gets its values of a list. It is refused for the first row that has a version
    /// which the snapshot doesn't see, and then, or without memory, each row is as before.
    pub fn change(
        &mut self,
        at: usize,
        rows: &[u16],
        values: &Rows,
        snapshot: &Snapshot,
    ) -> Result<(), GroupError>
        requires never { sees snapshot.now UNDONE ≡ false }
        requires id { snapshot.now.id ≢ UNDONE }
        requires vector { at < length self.old.vectors }
        requires there { AreThereAt (sees snapshot.now) rows.now (slice_get self.old.vectors at) }
        requires count { length values.now ≡ length rows.now }
        requires fits { FitVector values.now (slice_get self.old.vectors at) }
        ensures ok { OnOk result (IsChangedAt at (changing snapshot.now.id rows.now values.now) self.old self.new) }
        ensures top { OnOk result (IsTopAt snapshot.now.id (slice_get self.old.vectors at)
            → IsTopAt snapshot.now.id (slice_get self.new.vectors at)) }
        ensures err { OnErr result (IsChangedAt at same self.old self.new) }
        ensures free { OnOk result (blocked_in (sees snapshot.now) rows.now (slice_get self.old.vectors at) ≡ None) }
        ensures refused { IfErr result (λ e. IsError (self.old.first + 2048 * at)
            (blocked_in (sees snapshot.now) rows.now (slice_get self.old.vectors at)) e) }
    {
        let start = self.first + VECTOR_ROWS * at as u64;
        let done = change_vector(&mut self.vectors[at], self.alloc, rows, values, snapshot);
        tell(start, done)
    }

    /// Deletes rows of a vector: each gets the delete stamp of the transaction. It is refused as a change is.
    pub fn delete(&mut self, at: usize, rows: &[u16], snapshot: &Snapshot) -> Result<(), GroupError>
        requires never { sees snapshot.now UNDONE ≡ false }
        requires vector { at < length self.old.vectors }
        requires there { AreThereAt (sees snapshot.now) rows.now (slice_get self.old.vectors at) }
        ensures ok { OnOk result (IsChangedAt at (erasing snapshot.now.id rows.now) self.old self.new) }
        ensures placed { OnOk result (ArePlacedAt rows.now (slice_get self.new.vectors at)) }
        ensures tops { OnOk result (TopsStay self.old self.new) }
        ensures err { OnErr result (IsChangedAt at same self.old self.new) }
        ensures free { OnOk result (blocked_in (sees snapshot.now) rows.now (slice_get self.old.vectors at) ≡ None) }
        ensures refused { IfErr result (λ e. IsError (self.old.first + 2048 * at)
            (blocked_in (sees snapshot.now) rows.now (slice_get self.old.vectors at)) e) }
    {
        let start = self.first + VECTOR_ROWS * at as u64;
        let done = erase_vector(&mut self.vectors[at], rows, snapshot);
        tell(start, done)
    }
}

/// Rows that may be missing, and the row id of the first.
#[derive(Debug, Drop)]
pub struct Page {
    pub first: u64,
    pub rows: OptionRows,
}
