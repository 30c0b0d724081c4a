//! Room for what is read.
ghost use Rattle.std.specs.Prelude.{◌≡◌, ◌<◌, ◌/◌, [], min, vec_len, vec_capacity, IfOk, IsErr};

use std::alloc::{AllocError, Global};

/// An empty list with room for so many things, but for no more than the bytes that are left can hold, where each takes
/// at least so many.
pub(crate) fn with_room<T: Drop>(
    alloc: Global,
    count: u64,
    left: usize,
    each: usize,
) -> Result<Vec<T>, AllocError>
    requires { 0 < each }
    ensures empty { IfOk result (λ v. v.items ≡ []) }
    ensures len { IfOk result (λ v. vec_len v ≡ 0) }
    ensures held { IfOk result (λ v. vec_capacity v ≡ min count (left / each)) }
    ensures none { IsErr result → 0 < min count (left / each) }
{
    Vec::with_capacity(alloc, room_for(count, left, each))
}

/// For how many of so many things room is taken.
fn room_for(count: u64, left: usize, each: usize) -> usize
    requires { 0 < each }
    ensures { result ≡ min count (left / each) }
{
    count.min((left / each) as u64) as usize
}
