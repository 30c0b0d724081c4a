//! What `dk_si` computes: what is carried of stops and iterations.
use dk_si::limits::MAX_ITERATION;
use dk_si::standing::Standing;
use dk_si::{Asked, Entry};
use dk_types::{OutOfMemory, Reply, Statement};
use std::alloc::Global;
use std::test::Fail;

fn checkpoint(session: u32) -> Entry {
    Entry::Call {
        session,
        asked: Asked::Good(Statement::Checkpoint),
    }
}

fn checkpointed(session: u32, iteration: u64) -> Entry {
    Entry::Reply {
        session,
        reply: Reply::Checkpointed { iteration },
    }
}

/// Carries one more entry, where its place can be counted.
fn carry(
    alloc: Global,
    standing: &mut Standing,
    opened: u64,
    entry: &Entry,
) -> Result<(), OutOfMemory> {
    if standing.place < u64::MAX {
        standing.next(alloc, opened, entry)?;
    }
    Ok(())
}

fn stands_on(
    alloc: Global,
    standing: &Standing,
    opened: u64,
    entry: &Entry,
) -> Result<bool, OutOfMemory> {
    if standing.place < u64::MAX {
        return standing.stands_on(alloc, opened, entry);
    }
    Ok(false)
}

#[test]
fn iterations_are_carried_from_entry_to_entry(rt: HostRuntime) -> Result<(), Fail> {
    let alloc = rt.alloc();
    let mut standing = Standing::new(alloc);
    let opened = MAX_ITERATION - 2;
    carry(alloc, &mut standing, opened, &checkpoint(1))?;
    assert!(rt; stands_on(alloc, &standing, opened, &checkpointed(1, opened + 1))?);
    assert!(rt; !stands_on(alloc, &standing, opened, &checkpointed(1, opened + 2))?);
    // another checkpoint in flight may have written the one that is left out
    carry(alloc, &mut standing, opened, &checkpoint(2))?;
    assert!(rt; stands_on(alloc, &standing, opened, &checkpointed(1, opened + 2))?);
    carry(alloc, &mut standing, opened, &checkpointed(1, opened + 2))?;
    assert!(rt; stands_on(alloc, &standing, opened, &checkpointed(2, opened + 1))?);
    assert!(rt; !stands_on(alloc, &standing, opened, &checkpointed(2, opened + 3))?);
    Ok(())
}
