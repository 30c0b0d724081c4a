//! A count and a sum at their ends.
ghost use Rattle.std.specs.Prelude.{◌≡◌, map, sum};
ghost use Rattle.dk_fault.specs.Counts.{capped};

use crate::{capped_sum, next_count};
use std::test::Fail;

// A caller: the sum of these numbers.
fn sum_of(numbers: &[u64]) -> u64
    ensures { result ≡ capped (sum (map (λ n. n) numbers.now)) }
{
    capped_sum(numbers, |n| *n)
}

#[test]
fn counts_end_at_the_greatest_number(rt: HostRuntime) -> Result<(), Fail> {
    assert_eq!(rt; next_count(0), 1);
    assert_eq!(rt; next_count(u64::MAX), u64::MAX);
    let halves: [u64; 3] = [1 << 62, 1 << 63, 1 << 62];
    assert_eq!(rt; sum_of(&halves[..2]), 3 << 62);
    assert_eq!(rt; sum_of(&halves), u64::MAX);
    Ok(())
}
