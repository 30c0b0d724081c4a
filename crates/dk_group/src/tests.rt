//! Rows of a group through their lives, as readers see them. A row is two numbers, a digit and ten times the digit, and
//! stands as the digit; `-` stands for a row that is missing.
ghost use Rattle.std.specs.Prelude.{◌≡◌, ◌<◌, ◌∷◌, [], false, true, length, slice_get, is_some, map, get_or, ℕ, List, IsTrue, IfOk, OnOk};
ghost use Rattle.std.specs.List.{All, list_all};
ghost use Rattle.dk_values.specs.declared.value.ColType.TheVariants as types;
ghost use Rattle.dk_values.specs.declared.value.Value.{Value as StoredValue};
ghost use Rattle.dk_stamp.specs.declared.snapshot.TheConstants.{NEVER as UNDONE};
ghost use Rattle.dk_stamp.specs.Sees.{sees};
ghost use Rattle.dk_columns.specs.OptionTables.{FitsKinds};
ghost use Rattle.dk_vector.specs.Vectors.{IsRow};
ghost use Rattle.dk_group.specs.Groups.{AreThereAt, ArePlacedAt, FitVector, IsTopAt};

use crate::{Group, filled_vector};
use dk_columns::{OptionRow, OptionRows};
use dk_rows::{Cell, Rows};
use dk_stamp::{FIRST_ID, GroupError, NEVER, Pending, Snapshot};
use dk_values::{ColType, List, OutOfMemory, Row, Value};
use std::alloc::Global;
use std::test::Fail;

/// The types of the two columns.
const PAIR: [ColType; 2] = [ColType::Big, ColType::Big];

/// The first transaction, and two others.
const A: u64 = FIRST_ID;

const B: u64 = FIRST_ID + 1;

const C: u64 = FIRST_ID + 2;

/// A reader of a transaction that began at a commit, with none pending.
fn reader(id: u64, start: u64) -> Snapshot
    ensures { result.id ≡ id }
{
    Snapshot {
        id,
        start,
        committing: [Pending { id: 0, number: 0 }; 32],
    }
}

/// The number of a digit.
fn number_of(digit: u8) -> i64 {
    i64::from(digit.saturating_sub(b'0'))
}

/// The row of a digit.
fn row_of(alloc: Global, digit: u8) -> Result<Row, OutOfMemory>
    ensures { IfOk result (λ row. FitsKinds (types.Big ∷ types.Big ∷ []) row) }
{
    let mut row = List::new(alloc);
    row.push(Value::Big(number_of(digit)))?;
    row.push(Value::Big(number_of(digit).wrapping_mul(10)))?;
    Ok(row)
}

/// A row for each digit.
fn rows_of(alloc: Global, digits: &[u8]) -> Result<OptionRows, OutOfMemory>
    ensures kinds { IfOk result (λ rows. rows.kinds ≡ types.Big ∷ types.Big ∷ []) }
    ensures there { IfOk result (λ rows. All (IsRow rows.kinds) rows.rows) }
{
    let mut rows = OptionRows::new(alloc, &PAIR)?;
    'digits: for digit in digits {
        let row = row_of(alloc, *digit)?;
        rows.push(&row)?;
    }
    Ok(rows)
}

/// One digit many times.
fn many(alloc: Global, digit: u8, count: usize) -> Result<Vec<u8>, OutOfMemory> {
    Ok(vec![in alloc; digit; count]?)
}

/// As many rows of one digit, to be written.
fn copies_of(alloc: Global, digit: u8, count: usize) -> Result<Rows, OutOfMemory>
    ensures count { IfOk result (λ rows. length rows ≡ count) }
    ensures fits { IfOk result (λ rows. All (FitsKinds (types.Big ∷ types.Big ∷ [])) rows) }
{
    let mut rows = Rows::new(alloc);
    'copies: for i in 0..count {
        rows.push(row_of(alloc, digit)?)?;
    }
    Ok(rows)
}

/// A group of a vector that the first transaction put in.
fn group_of(alloc: Global, digits: &[u8]) -> Result<Group, OutOfMemory>
    ensures { IfOk result (λ group. IsTopAt B (slice_get group.vectors 0)) }
{
    let rows = rows_of(alloc, digits)?;
    let vector = filled_vector(alloc, &PAIR, &rows, A)?;
    let mut group = Group::empty(alloc, 5000);
    group.push(vector)?;
    Ok(group)
}

/// A group of a vector that the first transaction put in and committed as number 1.
fn committed(alloc: Global, digits: &[u8]) -> Result<Group, OutOfMemory>
    ensures { IfOk result (λ group. IsTopAt B (slice_get group.vectors 0)) }
{
    let mut group = group_of(alloc, digits)?;
    if group.len() > 0 {
        group.stamp_append(0, A, 1);
    }
    Ok(group)
}

/// The digit of a number, if the cell has one.
fn digit_of(cell: Cell<'_>) -> u8 {
    match cell {
        Cell::Big(number) => {
            if number < 0 || number > 9 {
                b'?'
            } else {
                b'0' + number as u8
            }
        }
        _ => b'?',
    }
}

/// Whether the second number is ten times the digit.
fn is_ten_times(cell: Cell<'_>, digit: u8) -> bool {
    match cell {
        Cell::Big(number) => number == number_of(digit).wrapping_mul(10),
        _ => false,
    }
}

/// The digit of a row.
fn sign_of(row: OptionRow<'_>) -> u8 {
    if row.len() != 2 {
        return b'?';
    }
    let digit = digit_of(row.get(0));
    if is_ten_times(row.get(1), digit) {
        digit
    } else {
        b'?'
    }
}

/// The digit of a row of a page, `-` where it is missing, and a blank behind the end.
fn sign_at(rows: &OptionRows, row: usize) -> u8 {
    if row >= rows.len() {
        return b' ';
    }
    match rows.get(row) {
        Some(found) => sign_of(found),
        None => b'-',
    }
}

/// The sign of a row as a reader sees it.
fn seen(group: &Group, at: usize, row: usize, snapshot: &Snapshot) -> Result<u8, OutOfMemory> {
    if at >= group.len() || snapshot.sees(NEVER) {
        return Ok(b'?');
    }
    let page = group.read(at, snapshot)?;
    Ok(sign_at(&page.rows, row))
}

/// The signs of the first three rows of the first vector as a reader sees them.
fn three(group: &Group, snapshot: &Snapshot) -> Result<[u8; 3], OutOfMemory> {
    Ok([
        seen(group, 0, 0, snapshot)?,
        seen(group, 0, 1, snapshot)?,
        seen(group, 0, 2, snapshot)?,
    ])
}

/// Whether a row is there in a page.
fn is_in(rows: &OptionRows, row: u16) -> bool
    ensures { result ≡ get_or (map is_some rows.now.rows) row false }
{
    (row as usize) < rows.len() && rows.is_there(row as usize)
}

/// Whether rows are there in a page.
fn are_in(rows: &OptionRows, offsets: &[u16]) -> bool
    ensures { result ≡ list_all (λ row. get_or (map is_some rows.now.rows) row false) offsets.now }
{
    offsets.iter().all(|row| is_in(rows, *row))
}

/// Whether the columns of a page are two numbers.
fn is_pair(alloc: Global, mut rows: OptionRows) -> Result<bool, OutOfMemory>
    ensures { IfOk result (λ pair. IsTrue pair → rows.kinds ≡ types.Big ∷ types.Big ∷ []) }
{
    rows.truncate(0);
    Ok(rows.is_same(&OptionRows::new(alloc, &PAIR)?))
}

/// Whether the reader finds rows of a vector, whose columns are two numbers.
fn are_ready(
    group: &Group,
    alloc: Global,
    at: usize,
    rows: &[u16],
    snapshot: &Snapshot,
) -> Result<bool, OutOfMemory>
    ensures vector { IfOk result (λ ready. IsTrue ready → at < length group.now.vectors) }
    ensures never { IfOk result (λ ready. IsTrue ready → sees snapshot.now UNDONE ≡ false) }
    ensures there { IfOk result (λ ready. IsTrue ready
        → AreThereAt (sees snapshot.now) rows.now (slice_get group.now.vectors at)) }
    ensures fits { IfOk result (λ ready. IsTrue ready → (values : List (List StoredValue))
        → All (FitsKinds (types.Big ∷ types.Big ∷ [])) values → FitVector values (slice_get group.now.vectors at)) }
{
    if at >= group.len() || snapshot.sees(NEVER) {
        return Ok(false);
    }
    let page = group.read(at, snapshot)?;
    if !are_in(&page.rows, rows) {
        return Ok(false);
    }
    is_pair(alloc, page.rows)
}

/// Why a call that was not made is refused.
const NO_CALL: GroupError = GroupError::Conflict { row: 0, stamp: 0 };

/// Changes rows of a vector that the reader finds, each to a digit.
fn change(
    group: &mut Group,
    alloc: Global,
    place: (usize, &[u16]),
    digit: u8,
    snapshot: &Snapshot,
) -> Result<Result<(), GroupError>, OutOfMemory> {
    if snapshot.id == NEVER || !are_ready(group, alloc, place.0, place.1, snapshot)? {
        return Ok(Err(NO_CALL));
    }
    let values = copies_of(alloc, digit, place.1.len())?;
    Ok(group.change(place.0, place.1, &values, snapshot))
}

/// Deletes rows of a vector that the reader finds.
fn delete(
    group: &mut Group,
    alloc: Global,
    place: (usize, &[u16]),
    snapshot: &Snapshot,
) -> Result<Result<(), GroupError>, OutOfMemory> {
    if !are_ready(group, alloc, place.0, place.1, snapshot)? {
        return Ok(Err(NO_CALL));
    }
    Ok(group.delete(place.0, place.1, snapshot))
}

/// Changes a row of the first vector, which nothing stands against, so that the change can be undone.
fn write(group: &mut Group, alloc: Global, row: u16, digit: u8, id: u64) -> Result<(), OutOfMemory>
    ensures { OnOk result (IsTopAt id (slice_get group.old.vectors 0) → IsTopAt id (slice_get group.new.vectors 0)) }
{
    let snapshot = reader(id, 1);
    if id == NEVER || !are_ready(group, alloc, 0, &[row], &snapshot)? {
        return Err(OutOfMemory);
    }
    let values = copies_of(alloc, digit, 1)?;
    group
        .change(0, &[row], &values, &snapshot)
        .map_err(|_| OutOfMemory)
}

/// Deletes a row of the first vector, which nothing stands against, so that the deletion can be stamped and undone.
fn erase(group: &mut Group, alloc: Global, row: u16, id: u64) -> Result<(), OutOfMemory>
    ensures { OnOk result (ArePlacedAt (row ∷ []) (slice_get group.new.vectors 0)) }
{
    let snapshot = reader(id, 1);
    if !are_ready(group, alloc, 0, &[row], &snapshot)? {
        return Err(OutOfMemory);
    }
    group.delete(0, &[row], &snapshot).map_err(|_| OutOfMemory)
}

/// Gives the oldest update of a transaction in the first vector its commit's number.
fn stamp(group: &mut Group, id: u64, number: u64) {
    if group.len() > 0 && id != NEVER && number != NEVER {
        group.stamp_update(0, id, number);
    }
}

#[test]
fn rows_are_seen_by_their_own_transaction(rt: HostRuntime) -> Result<(), Fail> {
    let group = group_of(rt.alloc(), b"12")?;
    assert_eq!(rt; three(&group, &reader(A, 0))?, *b"12 ");
    assert_eq!(rt; three(&group, &reader(B, 1))?, *b"-- ");
    Ok(())
}

#[test]
fn rows_are_seen_after_their_commit(rt: HostRuntime) -> Result<(), Fail> {
    let group = committed(rt.alloc(), b"123")?;
    assert_eq!(rt; three(&group, &reader(B, 1))?, *b"123");
    assert_eq!(rt; three(&group, &reader(B, 0))?, *b"---");
    Ok(())
}

#[test]
fn rows_that_are_taken_away_are_unseen(rt: HostRuntime) -> Result<(), Fail> {
    let mut group = group_of(rt.alloc(), b"12")?;
    assert_eq!(rt; group.len(), 1);
    group.undo_append(0, A);
    assert_eq!(rt; three(&group, &reader(A, 0))?, *b"-- ");
    Ok(())
}

#[test]
fn a_change_is_read_by_its_own_transaction(rt: HostRuntime) -> Result<(), Fail> {
    let mut group = committed(rt.alloc(), b"123")?;
    assert_eq!(rt;
        change(&mut group, rt.alloc(), (0, &[1]), b'7', &reader(B, 1))?,
        Ok(())
    );
    assert_eq!(rt; three(&group, &reader(B, 1))?, *b"173");
    assert_eq!(rt; three(&group, &reader(C, 1))?, *b"123");
    Ok(())
}

#[test]
fn a_snapshot_before_a_commit_reads_the_old_values(rt: HostRuntime) -> Result<(), Fail> {
    let mut group = committed(rt.alloc(), b"123")?;
    write(&mut group, rt.alloc(), 1, b'7', B)?;
    stamp(&mut group, B, 2);
    assert_eq!(rt; three(&group, &reader(C, 1))?, *b"123");
    assert_eq!(rt; three(&group, &reader(C, 2))?, *b"173");
    Ok(())
}

#[test]
fn a_changed_row_conflicts(rt: HostRuntime) -> Result<(), Fail> {
    let mut group = committed(rt.alloc(), b"123")?;
    write(&mut group, rt.alloc(), 1, b'7', B)?;
    let other = change(&mut group, rt.alloc(), (0, &[1]), b'8', &reader(C, 1))?;
    assert_eq!(rt;
        other,
        Err(GroupError::Conflict {
            row: 5001,
            stamp: B
        })
    );
    let other = delete(&mut group, rt.alloc(), (0, &[1]), &reader(C, 1))?;
    assert_eq!(rt;
        other,
        Err(GroupError::Conflict {
            row: 5001,
            stamp: B
        })
    );
    assert_eq!(rt; three(&group, &reader(B, 1))?, *b"173");
    Ok(())
}

#[test]
fn a_conflict_names_the_least_row(rt: HostRuntime) -> Result<(), Fail> {
    let mut group = committed(rt.alloc(), b"123")?;
    write(&mut group, rt.alloc(), 2, b'7', B)?;
    write(&mut group, rt.alloc(), 1, b'7', C)?;
    let other = change(&mut group, rt.alloc(), (0, &[0, 1, 2]), b'8', &reader(A, 1))?;
    assert_eq!(rt;
        other,
        Err(GroupError::Conflict {
            row: 5001,
            stamp: C
        })
    );
    assert_eq!(rt; three(&group, &reader(A, 1))?, *b"123");
    Ok(())
}

#[test]
fn a_committed_change_conflicts_by_its_number(rt: HostRuntime) -> Result<(), Fail> {
    let mut group = committed(rt.alloc(), b"123")?;
    write(&mut group, rt.alloc(), 1, b'7', B)?;
    stamp(&mut group, B, 2);
    let other = change(&mut group, rt.alloc(), (0, &[1]), b'8', &reader(C, 1))?;
    assert_eq!(rt;
        other,
        Err(GroupError::Conflict {
            row: 5001,
            stamp: 2
        })
    );
    assert_eq!(rt;
        change(&mut group, rt.alloc(), (0, &[1]), b'8', &reader(C, 2))?,
        Ok(())
    );
    Ok(())
}

#[test]
fn a_deletion_is_hidden_from_others(rt: HostRuntime) -> Result<(), Fail> {
    let mut group = committed(rt.alloc(), b"123")?;
    erase(&mut group, rt.alloc(), 2, B)?;
    assert_eq!(rt; three(&group, &reader(B, 1))?, *b"12-");
    assert_eq!(rt; three(&group, &reader(C, 1))?, *b"123");
    let other = change(&mut group, rt.alloc(), (0, &[2]), b'8', &reader(C, 1))?;
    assert_eq!(rt;
        other,
        Err(GroupError::Conflict {
            row: 5002,
            stamp: B
        })
    );
    Ok(())
}

#[test]
fn a_stamped_deletion_is_seen_by_later_snapshots(rt: HostRuntime) -> Result<(), Fail> {
    let mut group = committed(rt.alloc(), b"123")?;
    erase(&mut group, rt.alloc(), 2, B)?;
    assert_eq!(rt; group.len(), 1);
    group.stamp_delete(0, &[2], 2);
    assert_eq!(rt; three(&group, &reader(C, 1))?, *b"123");
    assert_eq!(rt; three(&group, &reader(C, 2))?, *b"12-");
    Ok(())
}

#[test]
fn an_undone_deletion_is_there_again(rt: HostRuntime) -> Result<(), Fail> {
    let mut group = committed(rt.alloc(), b"123")?;
    erase(&mut group, rt.alloc(), 2, B)?;
    assert_eq!(rt; group.len(), 1);
    group.undo_delete(0, &[2]);
    assert_eq!(rt; three(&group, &reader(B, 1))?, *b"123");
    assert_eq!(rt;
        delete(&mut group, rt.alloc(), (0, &[2]), &reader(C, 1))?,
        Ok(())
    );
    Ok(())
}

#[test]
fn an_inserted_row_is_changed_by_its_own_transaction_only(rt: HostRuntime) -> Result<(), Fail> {
    let mut group = group_of(rt.alloc(), b"1")?;
    assert_eq!(rt;
        change(&mut group, rt.alloc(), (0, &[0]), b'8', &reader(B, 0))?,
        Err(NO_CALL)
    );
    assert_eq!(rt;
        change(&mut group, rt.alloc(), (0, &[0]), b'8', &reader(A, 0))?,
        Ok(())
    );
    assert_eq!(rt; three(&group, &reader(A, 0))?, *b"8  ");
    assert_eq!(rt; three(&group, &reader(B, 0))?, *b"-  ");
    Ok(())
}

#[test]
fn the_newest_change_is_undone_first(rt: HostRuntime) -> Result<(), Fail> {
    let mut group = committed(rt.alloc(), b"123")?;
    write(&mut group, rt.alloc(), 1, b'7', B)?;
    write(&mut group, rt.alloc(), 1, b'8', B)?;
    assert_eq!(rt; group.len(), 1);
    group.undo_update(0, B);
    assert_eq!(rt; three(&group, &reader(B, 1))?, *b"173");
    assert_eq!(rt; group.len(), 1);
    group.undo_update(0, B);
    assert_eq!(rt; three(&group, &reader(B, 1))?, *b"123");
    Ok(())
}

#[test]
fn an_undone_change_stands_against_nothing(rt: HostRuntime) -> Result<(), Fail> {
    let mut group = committed(rt.alloc(), b"123")?;
    write(&mut group, rt.alloc(), 1, b'7', B)?;
    assert_eq!(rt; group.len(), 1);
    group.undo_update(0, B);
    assert_eq!(rt;
        change(&mut group, rt.alloc(), (0, &[1]), b'9', &reader(C, 1))?,
        Ok(())
    );
    assert_eq!(rt; three(&group, &reader(C, 1))?, *b"193");
    assert_eq!(rt; three(&group, &reader(B, 1))?, *b"123");
    Ok(())
}

#[test]
fn dropping_keeps_what_a_snapshot_above_needs(rt: HostRuntime) -> Result<(), Fail> {
    let mut group = committed(rt.alloc(), b"123")?;
    write(&mut group, rt.alloc(), 1, b'7', B)?;
    stamp(&mut group, B, 2);
    assert_eq!(rt;
        change(&mut group, rt.alloc(), (0, &[1]), b'8', &reader(C, 2))?,
        Ok(())
    );
    stamp(&mut group, C, 3);
    assert_eq!(rt; three(&group, &reader(A, 1))?, *b"123");
    assert_eq!(rt; group.len(), 1);
    group.drop_old(0, 2);
    assert_eq!(rt; three(&group, &reader(A, 1))?, *b"173");
    assert_eq!(rt; three(&group, &reader(A, 2))?, *b"173");
    assert_eq!(rt; three(&group, &reader(A, 3))?, *b"183");
    Ok(())
}

#[test]
fn a_full_vector_and_one_row(rt: HostRuntime) -> Result<(), Fail> {
    let digits = many(rt.alloc(), b'4', 2048)?;
    let mut group = group_of(rt.alloc(), digits.as_slice())?;
    let more = filled_vector(rt.alloc(), &PAIR, &rows_of(rt.alloc(), b"5")?, A)?;
    assert_eq!(rt; group.len(), 1);
    group.push(more)?;
    assert_eq!(rt;
        change(&mut group, rt.alloc(), (1, &[0]), b'7', &reader(A, 1))?,
        Ok(())
    );
    assert_eq!(rt;
        change(&mut group, rt.alloc(), (0, &[2047]), b'6', &reader(A, 1))?,
        Ok(())
    );
    assert_eq!(rt; seen(&group, 0, 2046, &reader(A, 1))?, b'4');
    assert_eq!(rt; seen(&group, 0, 2047, &reader(A, 1))?, b'6');
    assert_eq!(rt; seen(&group, 0, 2048, &reader(A, 1))?, b' ');
    assert_eq!(rt; seen(&group, 1, 0, &reader(A, 1))?, b'7');
    Ok(())
}

#[test]
fn a_conflict_names_a_row_of_the_second_vector(rt: HostRuntime) -> Result<(), Fail> {
    let mut group = committed(rt.alloc(), b"1")?;
    let more = filled_vector(rt.alloc(), &PAIR, &rows_of(rt.alloc(), b"23")?, A)?;
    assert_eq!(rt; group.len(), 1);
    group.push(more)?;
    assert_eq!(rt; group.len(), 2);
    group.stamp_append(1, A, 1);
    assert_eq!(rt;
        change(&mut group, rt.alloc(), (1, &[1]), b'7', &reader(B, 1))?,
        Ok(())
    );
    let other = delete(&mut group, rt.alloc(), (1, &[0, 1]), &reader(C, 1))?;
    assert_eq!(rt;
        other,
        Err(GroupError::Conflict {
            row: 7049,
            stamp: B
        })
    );
    Ok(())
}

#[test]
fn a_settled_group_reads_as_before(rt: HostRuntime) -> Result<(), Fail> {
    let mut group = committed(rt.alloc(), b"123")?;
    assert_eq!(rt; group.settle(4096), None);
    assert_eq!(rt; group.settle(8192), Some(4096));
    assert_eq!(rt; three(&group, &reader(B, 1))?, *b"123");
    Ok(())
}
