//! Snapshots beside pending commits, the bound, and the end of the manager's numbers.
use crate::{MAX_ROWS, MAX_TRANSACTIONS, Manager, OPEN_ROWS};
use dk_stamp::{FIRST_ID, Pending};
use dk_types::Exhausted;
use std::test::Fail;

#[test]
fn a_snapshot_sees_a_pending_commit(rt: HostRuntime) -> Result<(), Fail> {
    let mut manager = Manager::starting(0, 0, 2);
    let first = manager.begin(1)?;
    assert_eq!(rt; first.id, FIRST_ID);
    assert_eq!(rt; first.start, 0);
    assert_eq!(rt; manager.point(1, 0), 1);
    let second = manager.begin(2)?;
    assert_eq!(rt; second.id, FIRST_ID + 1);
    assert_eq!(rt; second.start, 1);
    assert_eq!(rt;
        second.committing[0],
        Pending {
            id: FIRST_ID,
            number: 1
        }
    );
    assert!(rt; second.sees(FIRST_ID));
    assert!(rt; second.sees(1));
    manager.finish(1);
    assert_eq!(rt;
        manager.now(0).committing,
        [Pending { id: 0, number: 0 }; 32]
    );
    Ok(())
}

#[test]
fn a_snapshot_before_the_point_sees_neither(rt: HostRuntime) -> Result<(), Fail> {
    let mut manager = Manager::starting(0, 0, 2);
    manager.begin(1)?;
    let second = manager.begin(2)?;
    assert_eq!(rt; manager.point(1, 0), 1);
    assert_eq!(rt; second.start, 0);
    assert!(rt; !second.sees(FIRST_ID));
    assert!(rt; !second.sees(1));
    Ok(())
}

#[test]
fn the_bound_is_the_oldest_start(rt: HostRuntime) -> Result<(), Fail> {
    let mut manager = Manager::starting(7, 0, 0);
    manager.begin(1)?;
    manager.begin(2)?;
    assert_eq!(rt; manager.point(1, 5), 8);
    assert_eq!(rt; manager.bound(), 7);
    manager.finish(1);
    assert_eq!(rt; manager.bound(), 7);
    manager.leave(2);
    assert_eq!(rt; manager.bound(), 8);
    assert_eq!(rt; manager.last(), 8);
    Ok(())
}

#[test]
fn the_last_transaction_has_a_number(rt: HostRuntime) -> Result<(), Fail> {
    let mut manager = Manager::starting(0, MAX_TRANSACTIONS - 1, 0);
    assert_eq!(rt; manager.begin(1)?.id, FIRST_ID + 1_099_511_627_775);
    let spent = Exhausted {
        clock: 0,
        rows: 0,
        transactions: 1_099_511_627_776,
        iteration: 0,
    };
    assert_eq!(rt; manager.begin(2), Err(spent));
    Ok(())
}

#[test]
fn each_live_transaction_has_room(rt: HostRuntime) -> Result<(), Fail> {
    let rows = MAX_ROWS - OPEN_ROWS;
    let mut manager = Manager::starting(0, 0, rows);
    manager.begin(1)?;
    let spent = Exhausted {
        clock: 0,
        rows,
        transactions: 1,
        iteration: 0,
    };
    assert_eq!(rt; manager.begin(2), Err(spent));
    Ok(())
}
