//! The stamps of the rows of one vector.
ghost use Rattle.std.specs.Prelude.{◌≡◌, ◌<◌, ◌≤◌, ◌+◌, ◌^◌, ◌++◌, [], Some, true, false, length, map, take, replicate, slice_get, OnOk, OnErr};
ghost use Rattle.std.specs.List.{list_all};
ghost use Rattle.dk_stamp.specs.Sees.{sees};
ghost use Rattle.dk_version.specs.Rows.{stamps_of, rows_in, is_apart, spare_row, reinserted, reinserted_from, with_deleted, is_there, unseen_delete};

use dk_stamp::{NEVER, Snapshot};
use dk_values::OutOfMemory;
use std::alloc::Global;
use std::marker::Model;

/// The insert and the delete stamp of a row: each is the stamp that nobody has where that did not happen.
#[derive(Clone, Copy, Debug, PartialEq, Eq)]
pub struct Stamp {
    pub inserted: u64,
    pub deleted: u64,
}

impl Stamp {
    /// Whether the row is there for a reader, who sees that it was inserted and not that it was deleted.
    pub fn is_there(&self, snapshot: &Snapshot) -> bool
        ensures { result ≡ is_there (sees snapshot.now) self.now }
    {
        snapshot.sees(self.inserted) && !snapshot.sees(self.deleted)
    }

    /// The stamp of the deletion of the row, if there is one that the reader doesn't see.
    pub fn unseen_delete(&self, snapshot: &Snapshot) -> Option<u64>
        ensures { result ≡ unseen_delete (sees snapshot.now) self.now }
    {
        if self.deleted == NEVER || snapshot.sees(self.deleted) {
            None
        } else {
            Some(self.deleted)
        }
    }
}

/// How the stamps of a vector are kept: once for all rows, or for each.
#[derive(Debug, Drop)]
pub enum Kept {
    Same { stamp: Stamp, count: usize },
    Each(Vec<Stamp>),
}

/// The stamps of the rows of one vector, seen as a record of their list and of whether each row has its own.
#[derive(Debug, Drop)]
pub struct Stamps {
    alloc: Global,
    kept: Kept,
}

impl Model for Stamps {
    ghost use Rattle.dk_version.specs.Rows.{VectorStamps, stamps_of, rows_in, is_apart};

    ghost Value = { VectorStamps };

    ghost view = { λ stamps. stamps_of (rows_in stamps.kept) (is_apart stamps.kept) };
}

impl Stamps {
    /// No rows. It takes no memory yet.
    pub fn new(alloc: Global) -> Stamps
        ensures { result ≡ stamps_of [] false }
    {
        let stamp = Stamp {
            inserted: NEVER,
            deleted: NEVER,
        };
        Stamps {
            alloc,
            kept: Kept::Same { stamp, count: 0 },
        }
    }

    /// How many rows there are, with those that are spare.
    pub fn len(&self) -> usize
        ensures { result ≡ length self.now.rows }
    {
        kept_len(&self.kept)
    }

    /// The stamps of a row.
    pub fn get(&self, row: usize) -> Stamp
        requires { row < length self.now.rows }
        ensures { slice_get self.now.rows row ≡ Some result }
    {
        kept_at(&self.kept, row)
    }

    /// Whether all rows are there for a reader. Where all have the same stamps it is one test.
    pub fn are_there(&self, snapshot: &Snapshot) -> bool
        ensures { result ≡ list_all (is_there (sees snapshot.now)) self.now.rows }
    {
        are_kept_there(&self.kept, snapshot)
    }

    /// Makes room for a stamp of its own for each row.
    pub fn split(&mut self) -> Result<(), OutOfMemory>
        ensures ok { OnOk result (self.new ≡ stamps_of self.old.rows true) }
        ensures err { OnErr result (self.new ≡ self.old) }
    {
        split_kept(self.alloc, &mut self.kept)
    }

    /// Gives each row with this insert stamp another one. Rows are put in by it where they were spare, are stamped,
    /// and are spare again.
    pub fn reinsert(&mut self, from: u64, to: u64)
        ensures { self.new ≡ stamps_of (map (reinserted from to) self.old.rows) self.old.apart }
    {
        reinsert_kept(&mut self.kept, from, to);
    }

    /// The same from a place on. Where that is not the first row, each row has stamps of its own.
    pub fn reinsert_from(&mut self, start: usize, from: u64, to: u64)
        requires { 0 < start → self.old.apart ≡ true }
        ensures { self.new ≡ stamps_of (reinserted_from start from to self.old.rows) self.old.apart }
    {
        if start == 0 {
            reinsert_kept(&mut self.kept, from, to);
        } else {
            reinsert_kept_from(&mut self.kept, start, from, to);
        }
    }

    /// Gives a row a delete stamp.
    pub fn set_deleted(&mut self, row: usize, stamp: u64)
        requires within { row < length self.old.rows }
        requires apart { self.old.apart ≡ true }
        ensures { self.new ≡ stamps_of (with_deleted row stamp self.old.rows) true }
    {
        set_deleted_kept(&mut self.kept, row, stamp);
    }

    /// Keeps the first n rows.
    pub fn truncate(&mut self, n: usize)
        ensures { self.new ≡ stamps_of (take n self.old.rows) self.old.apart }
    {
        truncate_kept(&mut self.kept, n);
    }

    /// Adds spare rows behind the others. Rows that are not there yet take no memory in a vector without others.
    pub fn add_spare(&mut self, count: usize) -> Result<(), OutOfMemory>
        ensures ok { OnOk result (self.new.rows ≡ self.old.rows ++ replicate count spare_row) }
        ensures apart { OnOk result (0 < length self.old.rows → self.new.apart ≡ true) }
        ensures err { OnErr result (self.new.rows ≡ self.old.rows) }
    {
        if self.len() == 0 {
            let stamp = Stamp {
                inserted: NEVER,
                deleted: NEVER,
            };
            self.kept = Kept::Same { stamp, count };
            return Ok(());
        }
        self.split()?;
        add_spare_kept(&mut self.kept, count)
    }
}

/// How many rows there are.
fn kept_len(kept: &Kept) -> usize
    ensures { result ≡ length (rows_in kept.now) }
{
    match kept {
        Kept::Same { count, .. } => *count,
        Kept::Each(stamps) => stamps.len(),
    }
}

/// The stamps of a row.
fn kept_at(kept: &Kept, row: usize) -> Stamp
    requires { row < length (rows_in kept.now) }
    ensures { slice_get (rows_in kept.now) row ≡ Some result }
{
    match kept {
        Kept::Same { stamp, .. } => *stamp,
        Kept::Each(stamps) => stamps[row],
    }
}

/// Whether all rows are there for a reader.
#[tactic(auto, using(crate::proofs::FrontLemmas::same_there))]
fn are_kept_there(kept: &Kept, snapshot: &Snapshot) -> bool
    ensures { result ≡ list_all (is_there (sees snapshot.now)) (rows_in kept.now) }
{
    match kept {
        Kept::Same { stamp, count } => *count == 0 || stamp.is_there(snapshot),
        Kept::Each(stamps) => are_each_there(stamps, snapshot),
    }
}

/// Whether all rows are there for a reader.
fn are_each_there(stamps: &[Stamp], snapshot: &Snapshot) -> bool
    ensures { result ≡ list_all (is_there (sees snapshot.now)) stamps.now }
{
    stamps.iter().all(|stamp| stamp.is_there(snapshot))
}

/// Makes room for a stamp of its own for each row.
fn split_kept(alloc: Global, kept: &mut Kept) -> Result<(), OutOfMemory>
    ensures rows { rows_in kept.new ≡ rows_in kept.old }
    ensures ok { OnOk result (is_apart kept.new ≡ true) }
    ensures err { OnErr result (kept.new ≡ kept.old) }
{
    if let Kept::Same { stamp, count } = kept {
        let each = vec![in alloc; *stamp; *count]?;
        *kept = Kept::Each(each);
    }
    Ok(())
}

/// Gives each row with this insert stamp another one.
fn reinsert_kept(kept: &mut Kept, from: u64, to: u64)
    ensures rows { rows_in kept.new ≡ map (reinserted from to) (rows_in kept.old) }
    ensures apart { is_apart kept.new ≡ is_apart kept.old }
{
    match kept {
        Kept::Same { stamp, .. } => *stamp = reinserted(*stamp, from, to),
        Kept::Each(stamps) => reinsert_each(stamps, from, to),
    }
}

/// Gives each row with this insert stamp another one.
#[tactic(auto, using(std::proofs::lemmas::List::Edits::map_over_more))]
fn reinsert_each(stamps: &mut Vec<Stamp>, from: u64, to: u64)
    ensures { stamps.new.items ≡ map (reinserted from to) stamps.old.items }
{
    'rows: for i in 0..stamps.len() {
        stamps[i] = reinserted(stamps[i], from, to);
    }
}

/// Gives each row from a place on with this insert stamp another one.
fn reinsert_kept_from(kept: &mut Kept, start: usize, from: u64, to: u64)
    requires { is_apart kept.old ≡ true }
    ensures rows { rows_in kept.new ≡ reinserted_from start from to (rows_in kept.old) }
    ensures apart { is_apart kept.new ≡ true }
{
    match kept {
        Kept::Same { .. } => unreachable!(),
        Kept::Each(stamps) => reinsert_each_from(stamps, start, from, to),
    }
}

/// Gives each row from a place on with this insert stamp another one.
#[tactic(auto, using(crate::proofs::FromLemmas::from_next, crate::proofs::FromLemmas::from_past))]
fn reinsert_each_from(stamps: &mut Vec<Stamp>, start: usize, from: u64, to: u64)
    ensures { stamps.new.items ≡ reinserted_from start from to stamps.old.items }
{
    'rows: for k in 0..stamps.len().saturating_sub(start) {
        let i = stamps.len() - 1 - k;
        stamps[i] = reinserted(stamps[i], from, to);
    }
}

/// The stamps with another insert stamp, if it was this one.
fn reinserted(stamp: Stamp, from: u64, to: u64) -> Stamp
    ensures { result ≡ reinserted from to stamp }
{
    if stamp.inserted == from {
        Stamp {
            inserted: to,
            ..stamp
        }
    } else {
        stamp
    }
}

/// Gives a row a delete stamp.
fn set_deleted_kept(kept: &mut Kept, row: usize, stamp: u64)
    requires within { row < length (rows_in kept.old) }
    requires apart { is_apart kept.old ≡ true }
    ensures rows { rows_in kept.new ≡ with_deleted row stamp (rows_in kept.old) }
    ensures apart { is_apart kept.new ≡ true }
{
    match kept {
        Kept::Same { .. } => unreachable!(),
        Kept::Each(stamps) => stamps[row].deleted = stamp,
    }
}

/// Keeps the first n rows.
#[tactic(auto, using(crate::proofs::FrontLemmas::front))]
fn truncate_kept(kept: &mut Kept, n: usize)
    ensures rows { rows_in kept.new ≡ take n (rows_in kept.old) }
    ensures apart { is_apart kept.new ≡ is_apart kept.old }
{
    match kept {
        Kept::Same { count, .. } => *count = (*count).min(n),
        Kept::Each(stamps) => stamps.truncate(n),
    }
}

/// Adds spare rows behind the others, or none of them.
fn add_spare_kept(kept: &mut Kept, count: usize) -> Result<(), OutOfMemory>
    requires { is_apart kept.old ≡ true }
    ensures ok { OnOk result (rows_in kept.new ≡ rows_in kept.old ++ replicate count spare_row) }
    ensures apart { is_apart kept.new ≡ true }
    ensures err { OnErr result (rows_in kept.new ≡ rows_in kept.old) }
{
    match kept {
        Kept::Same { .. } => unreachable!(),
        Kept::Each(stamps) => push_spare(stamps, count),
    }
}

/// Adds spare rows behind the others, or none of them.
fn push_spare(stamps: &mut Vec<Stamp>, count: usize) -> Result<(), OutOfMemory>
    ensures ok { OnOk result (stamps.new.items ≡ stamps.old.items ++ replicate count spare_row) }
    ensures err { OnErr result (stamps.new.items ≡ stamps.old.items) }
{
    let stamp = Stamp {
        inserted: NEVER,
        deleted: NEVER,
    };
    let spare = vec![in *stamps.allocator(); stamp; count]?;
    stamps
        .extend_from_slice(spare.as_slice())
        .map_err(|_| OutOfMemory)
}
