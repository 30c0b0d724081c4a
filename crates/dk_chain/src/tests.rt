//! Changes of one row by two transactions, as readers see them.
use crate::{Chain, Node};
use dk_rows::Rows;
use dk_stamp::{FIRST_ID, Pending, Snapshot};
use dk_values::{OutOfMemory, Value};
use std::alloc::Global;
use std::test::Fail;

/// A reader of a transaction that began at a commit, with none pending.
fn reader(id: u64, start: u64) -> Snapshot {
    Snapshot {
        id,
        start,
        committing: [Pending { id: 0, number: 0 }; 32],
    }
}

/// A change of two rows that had the same number.
fn change(alloc: Global, stamp: u64, offsets: [u16; 2], old: i64) -> Result<Node, OutOfMemory> {
    let mut rows = Rows::new(alloc);
    rows.push_slice(&[Value::Big(old)])?;
    rows.push_slice(&[Value::Big(old)])?;
    Node::new(alloc, stamp, &offsets, rows)
}

/// Whether the reader finds this number put back in the row.
fn finds(chain: &Chain, row: u16, snapshot: &Snapshot, number: i64) -> bool {
    match chain.old(row, snapshot) {
        Some(old) => old.is_row(&[Value::Big(number)]),
        None => false,
    }
}

#[test]
fn unseen_changes_are_put_back(rt: HostRuntime) -> Result<(), Fail> {
    let mut chain = Chain::new(rt.alloc());
    chain.push(change(rt.alloc(), 1, [3, 9], 10)?)?;
    chain.push(change(rt.alloc(), FIRST_ID, [9, 40], 11)?)?;
    chain.push(change(rt.alloc(), FIRST_ID, [9, 41], 12)?)?;
    let other = reader(FIRST_ID + 1, 1);
    let older = reader(FIRST_ID + 2, 0);
    assert!(rt; finds(&chain, 9, &other, 11));
    assert!(rt; finds(&chain, 9, &older, 10));
    assert!(rt; chain.old(3, &other).is_none());
    assert!(rt; chain.old(9, &reader(FIRST_ID, 1)).is_none());
    assert_eq!(rt; chain.newest(9), Some(FIRST_ID));
    assert_eq!(rt; chain.newest(3), Some(1));
    assert_eq!(rt; chain.newest(4), None);

    chain.undo_one(FIRST_ID);
    assert!(rt; finds(&chain, 9, &reader(FIRST_ID, 1), 12));
    assert_eq!(rt; chain.newest(41), None);
    chain.stamp_one(FIRST_ID, 2);
    assert_eq!(rt; chain.newest(9), Some(2));
    assert!(rt; finds(&chain, 9, &other, 11));

    chain.drop_old(1);
    assert_eq!(rt; chain.newest(3), None);
    assert_eq!(rt; chain.newest(40), Some(2));
    chain.drop_old(2);
    assert!(rt; !chain.is_empty());
    Ok(())
}
