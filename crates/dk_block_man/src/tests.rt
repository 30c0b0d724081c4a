//! A mixed run against a plain list of the used blocks.
use crate::BlockMan;
use std::test::Fail;

#[test]
fn the_least_unused_block_is_taken(rt: HostRuntime) -> Result<(), Fail> {
    let mut man = BlockMan::new(rt.alloc(), 0)?;
    let first = man.take()?;
    let second = man.take()?;
    assert_eq!(rt; (first, second), (0, 1));
    assert!(rt; man.is_used(0));
    man.give(0);
    assert_eq!(rt; man.take()?, 0);
    assert_eq!(rt; man.take()?, 2);
    Ok(())
}

/// The least number that isn't in a list.
fn least_absent(used: &[u64]) -> u64 {
    let mut block = 0;
    for _ in 0..used.len() {
        if used.contains(&block) {
            block = block.saturating_add(1);
        }
    }
    block
}

#[test]
fn a_mixed_run_agrees_with_a_list(rt: HostRuntime) -> Result<(), Fail> {
    let mut man = BlockMan::new(rt.alloc(), 3)?;
    let mut used = Vec::new(rt.alloc());
    for turn in 0..60_u64 {
        let given = turn * 7 % 11;
        if turn % 3 == 2 && man.is_used(given) {
            man.give(given);
            used.retain(|block| *block != given);
        } else {
            let taken = man.take()?;
            assert_eq!(rt; taken, least_absent(used.as_slice()));
            used.push(taken)?;
        }
        assert_eq!(rt; man.is_used(given), used.contains(&given));
    }
    Ok(())
}
