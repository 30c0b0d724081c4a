//! The stamps of a few rows through their lives.
use crate::{Stamp, Stamps};
use dk_stamp::{FIRST_ID, NEVER, Pending, Snapshot};
use std::test::Fail;

#[test]
fn rows_are_put_in_deleted_and_put_back(rt: HostRuntime) -> Result<(), Fail> {
    let mut stamps = Stamps::new(rt.alloc());
    stamps.add_spare(3)?;
    stamps.reinsert(NEVER, FIRST_ID);
    stamps.reinsert(FIRST_ID, 1);
    stamps.add_spare(1)?;
    stamps.reinsert(NEVER, FIRST_ID + 1);
    assert_eq!(rt; stamps.len(), 4);
    assert_eq!(rt;
        stamps.get(2),
        Stamp {
            inserted: 1,
            deleted: NEVER
        }
    );
    stamps.split()?;
    stamps.set_deleted(2, FIRST_ID + 2);

    let reader = Snapshot {
        id: FIRST_ID + 2,
        start: 1,
        committing: [Pending { id: 0, number: 0 }; 32],
    };
    let other = Snapshot {
        id: FIRST_ID + 3,
        ..reader
    };
    assert!(rt; stamps.get(1).is_there(&reader));
    assert!(rt; !stamps.get(2).is_there(&reader));
    assert!(rt; stamps.get(2).is_there(&other));
    assert!(rt; !stamps.get(3).is_there(&other));
    assert_eq!(rt; stamps.get(2).unseen_delete(&other), Some(FIRST_ID + 2));
    assert_eq!(rt; stamps.get(2).unseen_delete(&reader), None);
    stamps.set_deleted(2, NEVER);
    stamps.truncate(3);
    assert_eq!(rt; stamps.len(), 3);
    Ok(())
}
