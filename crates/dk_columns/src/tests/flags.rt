//! Changes of flags beside a plain vector, and flags at the ends of words.
use super::Draws;
use crate::Mask;
use dk_values::{OutOfMemory, TryCopy};
use std::alloc::Global;
use std::test::Fail;

/// Both twice, one behind the other.
fn double(mask: &mut Mask, plain: &mut Vec<bool>) -> Result<(), OutOfMemory> {
    let more = mask.copy()?;
    mask.append(&more)?;
    let more = Vec::from_slice(*plain.allocator(), plain)?;
    plain.extend_from_slice(&more)?;
    Ok(())
}

/// The same flag in a place of both, where there is one.
fn put(mask: &mut Mask, plain: &mut Vec<bool>, n: usize, set: bool) -> Result<(), OutOfMemory> {
    if n < mask.len() && n < plain.len() {
        mask.set(n, set)?;
        plain[n] = set;
    }
    Ok(())
}

/// The same flag at the end of both.
fn push(mask: &mut Mask, plain: &mut Vec<bool>, set: bool) -> Result<(), OutOfMemory> {
    mask.push(set)?;
    plain.push(set)?;
    Ok(())
}

/// The front of both.
fn cut(mask: &mut Mask, plain: &mut Vec<bool>, n: usize) {
    mask.truncate(n);
    plain.truncate(n);
}

/// The same change of both.
fn change(draws: &mut Draws, mask: &mut Mask, plain: &mut Vec<bool>) -> Result<(), OutOfMemory> {
    let n = draws.below(150) as usize;
    let set = draws.below(3) > 0;
    match draws.below(8) {
        0 => cut(mask, plain, n),
        1 => double(mask, plain)?,
        2 | 3 => put(mask, plain, n, set)?,
        _ => push(mask, plain, set)?,
    }
    Ok(())
}

fn are_flags(mask: &Mask, plain: &[bool]) -> bool {
    for i in 0..plain.len() {
        if i >= mask.len() || mask.get(i) != plain[i] {
            return false;
        }
    }
    mask.len() == plain.len()
}

/// Whether some changes leave a mask and a plain vector the same.
pub(super) fn sequence_agrees(alloc: Global, draws: &mut Draws) -> Result<bool, OutOfMemory> {
    let mut mask = Mask::new(alloc);
    let mut plain = Vec::new(alloc);
    for _ in 0..draws.below(30) {
        change(draws, &mut mask, &mut plain)?;
    }
    Ok(are_flags(&mask, &plain))
}

/// Clears each flag of which the place is a multiple, and none for 0.
fn clear_each(mask: &mut Mask, every: usize) -> Result<(), OutOfMemory> {
    if every == 0 {
        return Ok(());
    }
    for i in 0..mask.len() {
        if i < mask.len() && i % every == 0 {
            mask.set(i, false)?;
        }
    }
    Ok(())
}

/// How many flags are set.
fn count_set(mask: &Mask) -> usize {
    let mut count = 0usize;
    for i in 0..mask.len() {
        count = count.saturating_add(usize::from(mask.get(i)));
    }
    count
}

/// How many of so many flags are set, where those are cleared and then the mask is cut.
fn set_flags(alloc: Global, len: usize, every: usize, cut: usize) -> Result<usize, OutOfMemory> {
    let mut mask = Mask::all(alloc, len);
    clear_each(&mut mask, every)?;
    mask.truncate(cut);
    Ok(count_set(&mask))
}

#[test]
fn flags_are_kept_at_the_ends_of_words(rt: HostRuntime) -> Result<(), Fail> {
    let alloc = rt.alloc();
    for len in [0, 1, 63, 64, 65, 2_048, 122_880] {
        assert_eq!(rt; set_flags(alloc, len, 0, len)?, len);
        assert_eq!(rt; set_flags(alloc, len, 1, len)?, 0);
        assert_eq!(rt; set_flags(alloc, len, 2, len)?, len / 2);
    }
    assert_eq!(rt; set_flags(alloc, 130, 2, 65)?, 32);
    assert_eq!(rt; set_flags(alloc, 130, 2, 64)?, 32);
    assert_eq!(rt; set_flags(alloc, 130, 2, 63)?, 31);
    Ok(())
}
