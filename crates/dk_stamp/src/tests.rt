//! What a snapshot sees of each kind of stamp.
use crate::{FIRST_ID, NEVER, Pending, Snapshot};
use std::test::Fail;

#[test]
fn a_snapshot_sees_its_own_and_what_was_before(rt: HostRuntime) -> Result<(), Fail> {
    let mut committing = [Pending { id: 0, number: 0 }; 32];
    committing[31] = Pending {
        id: FIRST_ID + 2,
        number: 5,
    };
    let snapshot = Snapshot {
        id: FIRST_ID + 7,
        start: 5,
        committing,
    };
    let stamps = [0, 4, 5, 6, FIRST_ID, FIRST_ID + 2, FIRST_ID + 7, NEVER];
    let seen = [true, true, true, false, false, true, true, false];
    for i in 0..8 {
        assert_eq!(rt; snapshot.sees(stamps[i]), seen[i]);
    }
    Ok(())
}
