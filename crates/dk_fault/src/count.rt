//! Counts and sums in 64 bits, which stand still at the greatest number.
ghost use Rattle.std.specs.Prelude.{◌≡◌, ◌+◌, ℕ, map, sum};
ghost use Rattle.std.specs.Fn.{FnReturnsAt};
ghost use Rattle.dk_fault.specs.Counts.{capped, next_count};
ghost use Rattle.dk_fault.specs.Sums.{Sizes};

/// A count of one more.
pub fn next_count(count: u64) -> u64
    ensures { result ≡ next_count count }
{
    count.saturating_add(1)
}

/// The sum of the sizes that `size` tells of the items.
#[tactic(auto, using(crate::proofs::SumLemmas::capped_end))]
pub fn capped_sum<T, F: Fn(&T) -> u64>(items: &[T], size: F) -> u64
    requires { F.IsAlwaysCallable size }
    ensures { (f : T → ℕ) → Sizes (FnReturnsAt F.Fn size) f → result ≡ capped (sum (map f items.now)) }
{
    let mut total: u64 = 0;
    for item in items {
        total = total.saturating_add(size(item));
    }
    total
}
