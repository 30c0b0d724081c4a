//! The rows of one vector with their versions.
ghost use Rattle.std.specs.Prelude.{◌≡◌, ◌≢◌, ◌<◌, ◌≤◌, ◌^◌, ◌-◌, nat_le, nat_lt, ℕ, [], ◌∷◌, length, slice_get, true, false, ◌==◌, if◌then◌else◌, IfOk, OnOk, OnErr};
ghost use Rattle.std.specs.List.{All};
ghost use Rattle.dk_stamp.specs.declared.snapshot.TheConstants.{NEVER as UNDONE};
ghost use Rattle.dk_stamp.specs.Sees.{sees};
ghost use Rattle.dk_columns.specs.OptionTables.{FitsKinds};
ghost use Rattle.dk_chain.specs.Nodes.{oldest_has, newest_has, old_in};
ghost use Rattle.dk_version.specs.Rows.{stamps_of};
ghost use Rattle.dk_vector.specs.Stacks.{absent, is_there, read, blocker, unseen_stamp, stamp_against, erased, erased_stamped, restored, undone, stamped, placed, placed_stamped, pruned};
ghost use Rattle.dk_vector.specs.Vectors.{vector_of, stack_at, base_at, or_base, IsRow, IsOnTop, AreThere, ArePlaced, has_row, erased_rows, first_blocked, against_in};
ghost use Rattle.dk_vector.specs.Changes.{IsWritten, NoneUndone, updated_if};
ghost use Rattle.dk_vector.specs.Spare.{is_spare, room_at, values_if, put_in, is_kept, kept_rows, AreFresh, AreFreshFrom, IsReserved};
ghost use Rattle.dk_vector.specs.Pages.{IsPage};

use crate::pages::{hide_rows, write_back};
use crate::writes::{base_row, base_rows, write_rows};
use dk_chain::{Chain, Node};
use dk_columns::OptionRows;
use dk_rows::{RowRef, Rows};
use dk_stamp::{NEVER, Snapshot};
use dk_values::{ColType, OutOfMemory, Row, TryCopy};
use dk_version::Stamps;
use std::alloc::Global;
use std::marker::Model;

/// A row that can't be changed, and the newest stamp of it, which the reader doesn't see.
#[derive(Clone, Copy, Debug, PartialEq, Eq)]
pub struct Blocked {
    pub row: u16,
    pub stamp: u64,
}

/// The rows of one vector with their versions. A change is undone by giving its node a stamp that nobody sees: what it
/// replaced is put back for every reader, and written back by the next change.
#[derive(Drop)]
pub struct Vector {
    base: OptionRows,
    chain: Chain,
    stamps: Stamps,
}

impl Model for Vector {
    ghost use Rattle.dk_vector.specs.Vectors.{VectorRows, vector_of, IsVector};

    ghost Value = { VectorRows };

    ghost view = { λ vector. vector_of vector.base vector.chain vector.stamps };

    ghost invariant = { λ vector. IsVector vector.base vector.chain vector.stamps };
}

impl Vector {
    /// No rows, with columns of these types.
    pub fn new(alloc: Global, kinds: &[ColType]) -> Result<Vector, OutOfMemory>
        ensures rows { IfOk result (λ vector. vector
            ≡ vector_of (record { kinds = kinds.now; rows = [] }) [] (stamps_of [] false)) }
        ensures absent { IfOk result (λ vector. (row : ℕ) → stack_at vector row ≡ absent) }
    {
        Ok(Vector {
            base: OptionRows::new(alloc, kinds)?,
            chain: Chain::new(alloc),
            stamps: Stamps::new(alloc),
        })
    }

    /// How many rows there are, with those that are spare.
    pub fn len(&self) -> usize
        ensures { result ≡ length self.now.stamps.rows }
    {
        self.stamps.len()
    }

    /// Whether a row is needed: it is not spare, or has a change that was not undone.
    fn is_kept(&self, row: usize) -> bool
        requires within { row < length self.now.stamps.rows }
        requires small { row < 2 ^ 16 }
        ensures { result ≡ is_kept self.now row }
    {
        self.stamps.get(row).inserted != NEVER || self.chain.newest(row as u16).is_some()
    }

    /// How many rows are left without the spare ones at the end.
    fn kept_rows(&self) -> usize
        requires { length self.now.stamps.rows ≤ 2 ^ 16 }
        ensures { result ≡ kept_rows self.now }
    {
        'rows: for k in 0..self.len() {
            let n = self.len() - k;
            if self.is_kept(n - 1) {
                return n;
            }
        }
        0
    }

    /// Takes the spare rows at the end away.
    pub fn cut_spare(&mut self)
        requires none { NoneUndone self.old.nodes }
        requires small { length self.old.stamps.rows ≤ 2 ^ 16 }
        ensures count { length self.new.stamps.rows ≡ kept_rows self.old }
        ensures last { 0 < length self.new.stamps.rows
            → is_kept self.new (length self.new.stamps.rows - 1) ≡ true }
        ensures rows { (row : ℕ) → stack_at self.new row ≡ stack_at self.old row }
        ensures nodes { self.new.nodes ≡ self.old.nodes }
        ensures kinds { self.new.base.kinds ≡ self.old.base.kinds }
    {
        let n = self.kept_rows();
        self.base.truncate(n);
        self.stamps.truncate(n);
    }

    /// Makes room for rows behind the others. They are spare, which no reader finds, until they are put in.
    pub fn reserve(&mut self, rows: &OptionRows) -> Result<(), OutOfMemory>
        requires kinds { self.old.base.kinds ≡ rows.now.kinds }
        requires there { All (IsRow rows.now.kinds) rows.now.rows }
        ensures ok { OnOk result (IsReserved rows.now.rows self.old self.new) }
        ensures rows { (row : ℕ) → stack_at self.new row ≡ stack_at self.old row }
        ensures nodes { self.new.nodes ≡ self.old.nodes }
        ensures room { OnOk result ((row : ℕ) → room_at self.new row ≡ (if nat_lt row (length self.old.stamps.rows)
            then room_at self.old row else values_if (slice_get rows.now.rows (row - length self.old.stamps.rows)))) }
        ensures fresh { OnOk result (AreFreshFrom (length self.old.stamps.rows) self.new) }
        ensures apart { OnOk result (0 < length self.old.stamps.rows → self.new.stamps.apart ≡ true) }
        ensures base { OnErr result (self.new.base ≡ self.old.base) }
        ensures stamps { OnErr result (self.new.stamps.rows ≡ self.old.stamps.rows) }
    {
        let before = self.base.len();
        self.base.append(rows)?;
        if let Err(lack) = self.stamps.add_spare(rows.len()) {
            self.base.truncate(before);
            return Err(lack);
        }
        Ok(())
    }

    /// Puts in the spare rows, for a transaction.
    pub fn append(&mut self, id: u64)
        requires id { id ≢ UNDONE }
        requires fresh { AreFresh self.old }
        ensures rows { (row : ℕ) → stack_at self.new row ≡ (if is_spare (slice_get self.old.stamps.rows row)
            then placed id (base_at row self.old.base) else stack_at self.old row) }
        ensures base { self.new.base ≡ self.old.base }
        ensures nodes { self.new.nodes ≡ self.old.nodes }
        ensures apart { self.new.stamps.apart ≡ self.old.stamps.apart }
        ensures count { length self.new.stamps.rows ≡ length self.old.stamps.rows }
    {
        self.stamps.reinsert(NEVER, id);
    }

    /// Puts in the spare rows from a place on, for a transaction.
    pub fn append_from(&mut self, start: usize, id: u64)
        requires id { id ≢ UNDONE }
        requires fresh { AreFreshFrom start self.old }
        requires apart { 0 < start → self.old.stamps.apart ≡ true }
        ensures rows { (row : ℕ) → stack_at self.new row ≡ (if nat_le start row
            then put_in id (room_at self.old row) (stack_at self.old row) else stack_at self.old row) }
        ensures base { self.new.base ≡ self.old.base }
        ensures nodes { self.new.nodes ≡ self.old.nodes }
        ensures apart { self.new.stamps.apart ≡ self.old.stamps.apart }
        ensures count { length self.new.stamps.rows ≡ length self.old.stamps.rows }
    {
        self.stamps.reinsert_from(start, NEVER, id);
    }

    /// Takes away the changes that were undone: what they had replaced is written back.
    pub fn clean(&mut self) -> Result<(), OutOfMemory>
        ensures rows { (row : ℕ) → stack_at self.new row ≡ stack_at self.old row }
        ensures none { OnOk result (NoneUndone self.new.nodes) }
        ensures tops { OnOk result ((id : ℕ) → IsOnTop id self.old.nodes → IsOnTop id self.new.nodes) }
        ensures stamps { self.new.stamps ≡ self.old.stamps }
        ensures kinds { self.new.base.kinds ≡ self.old.base.kinds }
        ensures err { OnErr result (self.new ≡ self.old) }
    {
        let mut base = self.base.copy()?;
        write_back(&mut base, &self.chain, &None)?;
        self.chain.drop_undone();
        self.base = base;
        Ok(())
    }

    /// The rows as a reader sees them. Columns whose rows are all as they were written last are shared.
    pub fn read(&self, snapshot: &Snapshot) -> Result<OptionRows, OutOfMemory>
        requires never { sees snapshot.now UNDONE ≡ false }
        ensures { IfOk result (λ page. IsPage (sees snapshot.now) self.now page) }
    {
        let mut page = self.base.copy()?;
        write_back(&mut page, &self.chain, &Some(*snapshot))?;
        hide_rows(&mut page, &self.stamps, snapshot)?;
        Ok(page)
    }

    /// Gives the oldest update of a transaction its commit's number.
    pub fn stamp_update(&mut self, id: u64, number: u64)
        requires id { id ≢ UNDONE }
        requires number { number ≢ UNDONE }
        ensures rows { (row : ℕ) → stack_at self.new row ≡ (if oldest_has row id self.old.nodes
            then stamped id number (stack_at self.old row) else stack_at self.old row) }
        ensures stamps { self.new.stamps ≡ self.old.stamps }
        ensures base { self.new.base ≡ self.old.base }
    {
        self.chain.stamp_one(id, number);
    }

    /// Undoes the newest update of a transaction.
    pub fn undo_update(&mut self, id: u64)
        requires id { id ≢ UNDONE }
        requires top { IsOnTop id self.old.nodes }
        ensures top { IsOnTop id self.new.nodes }
        ensures rows { (row : ℕ) → stack_at self.new row ≡ (if newest_has row id self.old.nodes
            then undone (stack_at self.old row) else stack_at self.old row) }
        ensures stamps { self.new.stamps ≡ self.old.stamps }
        ensures base { self.new.base ≡ self.old.base }
    {
        self.chain.undo_one(id);
    }

    /// Takes away the nodes whose stamp is at most the bound.
    pub fn drop_old(&mut self, bound: u64)
        requires { bound < UNDONE }
        ensures rows { (row : ℕ) → stack_at self.new row ≡ pruned bound (stack_at self.old row) }
        ensures tops { (id : ℕ) → IsOnTop id self.old.nodes → IsOnTop id self.new.nodes }
        ensures stamps { self.new.stamps ≡ self.old.stamps }
        ensures base { self.new.base ≡ self.old.base }
    {
        self.chain.drop_old(bound);
    }

    /// Gives the rows that a transaction appended its commit's number.
    pub fn stamp_append(&mut self, id: u64, number: u64)
        requires id { id ≢ UNDONE }
        requires number { number ≢ UNDONE }
        ensures rows { (row : ℕ) → stack_at self.new row ≡ (if (stack_at self.old row).inserted == id
            then placed_stamped number (stack_at self.old row) else stack_at self.old row) }
        ensures apart { self.new.stamps.apart ≡ self.old.stamps.apart }
        ensures nodes { self.new.nodes ≡ self.old.nodes }
        ensures base { self.new.base ≡ self.old.base }
        ensures count { length self.new.stamps.rows ≡ length self.old.stamps.rows }
    {
        self.stamps.reinsert(id, number);
    }

    /// Takes away the rows that a transaction appended: they are spare again.
    pub fn undo_append(&mut self, id: u64)
        requires { id ≢ UNDONE }
        ensures rows { (row : ℕ) → stack_at self.new row ≡ (if (stack_at self.old row).inserted == id
            then absent else stack_at self.old row) }
        ensures apart { self.new.stamps.apart ≡ self.old.stamps.apart }
        ensures nodes { self.new.nodes ≡ self.old.nodes }
        ensures base { self.new.base ≡ self.old.base }
        ensures count { length self.new.stamps.rows ≡ length self.old.stamps.rows }
    {
        self.stamps.reinsert(id, NEVER);
    }

    /// The row as a reader sees it, if it is there.
    pub fn read_row(
        &self,
        alloc: Global,
        row: u16,
        snapshot: &Snapshot,
    ) -> Result<Option<Row>, OutOfMemory>
        requires stamps { row < length self.now.stamps.rows }
        requires never { sees snapshot.now UNDONE ≡ false }
        ensures { IfOk result (λ seen. seen ≡ read (sees snapshot.now) (stack_at self.now row)) }
    {
        if !self.stamps.get(row as usize).is_there(snapshot) {
            return Ok(None);
        }
        let values = seen_row(alloc, &self.base, self.chain.old(row, snapshot), row)?;
        Ok(Some(values))
    }

    /// The newest stamp of a row that is there for the reader, if it doesn't see it: it stands against a change.
    pub fn blocker(&self, row: u16, snapshot: &Snapshot) -> Option<u64>
        requires stamps { row < length self.now.stamps.rows }
        requires there { is_there (sees snapshot.now) (stack_at self.now row) ≡ true }
        requires never { sees snapshot.now UNDONE ≡ false }
        ensures { result ≡ blocker (sees snapshot.now) (stack_at self.now row) }
    {
        let deleted = self.stamps.get(row as usize).unseen_delete(snapshot);
        stamp_against(deleted, unseen_stamp(self.chain.newest(row), snapshot))
    }

    /// The first of some rows that something stands against. Where the rows ascend it is the least one.
    #[tactic(auto, using(crate::proofs::BlockedLemmas::blocked_next, crate::proofs::BlockedLemmas::blocked_here))]
    pub fn first_blocked(&self, rows: &[u16], snapshot: &Snapshot) -> Option<Blocked>
        requires there { AreThere (sees snapshot.now) self.now rows.now }
        requires never { sees snapshot.now UNDONE ≡ false }
        ensures { result ≡ first_blocked (against_in (sees snapshot.now) self.now) rows.now }
    {
        'rows: for i in 0..rows.len() {
            if let Some(stamp) = self.blocker(rows[i], snapshot) {
                return Some(Blocked {
                    row: rows[i],
                    stamp,
                });
            }
        }
        None
    }

    /// Changes rows: each gets its values of a list. The values before are kept in a node of the transaction.
    pub fn change(
        &mut self,
        alloc: Global,
        rows: &[u16],
        values: &Rows,
        id: u64,
    ) -> Result<(), OutOfMemory>
        requires id { id ≢ UNDONE }
        requires none { NoneUndone self.old.nodes }
        requires placed { ArePlaced rows.now self.old }
        requires count { length values.now ≡ length rows.now }
        requires fits { All (FitsKinds self.old.base.kinds) values.now }
        ensures rows { OnOk result ((row : ℕ) → stack_at self.new row
            ≡ updated_if id (old_in row rows.now values.now) (stack_at self.old row)) }
        ensures none { OnOk result (NoneUndone self.new.nodes) }
        ensures top { OnOk result (IsOnTop id self.old.nodes → IsOnTop id self.new.nodes) }
        ensures base { OnOk result (IsWritten rows.now values.now self.old.base self.new.base) }
        ensures stamps { OnOk result (self.new.stamps ≡ self.old.stamps) }
        ensures err { OnErr result (self.new ≡ self.old) }
    {
        let mut base = self.base.copy()?;
        let old = base_rows(alloc, &self.base, rows)?;
        write_rows(&mut base, rows, values)?;
        self.chain.push(Node::new(alloc, id, rows, old)?)?;
        self.base = base;
        Ok(())
    }

    /// Deletes rows: each gets the delete stamp of a transaction.
    pub fn erase(&mut self, rows: &[u16], id: u64) -> Result<(), OutOfMemory>
        requires { ArePlaced rows.now self.old }
        ensures ok { OnOk result ((row : ℕ) → stack_at self.new row ≡ (if has_row row rows.now
            then erased id (stack_at self.old row) else stack_at self.old row)) }
        ensures apart { OnOk result (self.new.stamps.apart ≡ true) }
        ensures nodes { OnOk result (self.new.nodes ≡ self.old.nodes) }
        ensures base { OnOk result (self.new.base ≡ self.old.base) }
        ensures count { OnOk result (length self.new.stamps.rows ≡ length self.old.stamps.rows) }
        ensures err { OnErr result (self.new ≡ self.old) }
    {
        self.stamps.split()?;
        erase_rows(&mut self.stamps, rows, id);
        Ok(())
    }

    /// Gives the deletion of rows its commit's number.
    pub fn stamp_erased(&mut self, rows: &[u16], number: u64)
        requires placed { ArePlaced rows.now self.old }
        requires apart { self.old.stamps.apart ≡ true }
        ensures rows { (row : ℕ) → stack_at self.new row ≡ (if has_row row rows.now
            then erased_stamped number (stack_at self.old row) else stack_at self.old row) }
        ensures apart { self.new.stamps.apart ≡ true }
        ensures nodes { self.new.nodes ≡ self.old.nodes }
        ensures base { self.new.base ≡ self.old.base }
        ensures count { length self.new.stamps.rows ≡ length self.old.stamps.rows }
    {
        erase_rows(&mut self.stamps, rows, number);
    }

    /// Undoes the deletion of rows.
    pub fn restore(&mut self, rows: &[u16])
        requires placed { ArePlaced rows.now self.old }
        requires apart { self.old.stamps.apart ≡ true }
        ensures rows { (row : ℕ) → stack_at self.new row ≡ (if has_row row rows.now
            then restored (stack_at self.old row) else stack_at self.old row) }
        ensures apart { self.new.stamps.apart ≡ true }
        ensures nodes { self.new.nodes ≡ self.old.nodes }
        ensures base { self.new.base ≡ self.old.base }
        ensures count { length self.new.stamps.rows ≡ length self.old.stamps.rows }
    {
        erase_rows(&mut self.stamps, rows, NEVER);
    }
}

/// Gives rows the delete stamp of a transaction.
fn erase_rows(stamps: &mut Stamps, rows: &[u16], id: u64)
    requires apart { stamps.old.apart ≡ true }
    requires within { All (λ row. row < length stamps.old.rows) rows.now }
    ensures { stamps.new ≡ stamps_of (erased_rows id rows.now stamps.old.rows) true }
{
    'rows: for i in 0..rows.len() {
        stamps.set_deleted(rows[i] as usize, id);
    }
}

/// A stamp, if the reader doesn't see it.
fn unseen_stamp(stamp: Option<u64>, snapshot: &Snapshot) -> Option<u64>
    ensures { result ≡ unseen_stamp (sees snapshot.now) stamp }
{
    match stamp {
        None => None,
        Some(stamp) => {
            if snapshot.sees(stamp) {
                None
            } else {
                Some(stamp)
            }
        }
    }
}

/// The stamp of a deletion, or else that of a node.
fn stamp_against(deleted: Option<u64>, node: Option<u64>) -> Option<u64>
    ensures { result ≡ stamp_against deleted node }
{
    match deleted {
        Some(deleted) => Some(deleted),
        None => node,
    }
}

/// The values that a change replaced, or else those that were written last.
fn seen_row(
    alloc: Global,
    base: &OptionRows,
    old: Option<RowRef<'_>>,
    row: u16,
) -> Result<Row, OutOfMemory>
    requires { row < length base.now.rows }
    ensures { IfOk result (λ values. values ≡ or_base (base_at row base.now) old.entry) }
{
    match old {
        Some(old) => old.to_row(alloc),
        None => base_row(alloc, base, row),
    }
}
