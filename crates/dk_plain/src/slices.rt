//! The front and the rest of a slice, at any number.
ghost use Rattle.std.specs.Prelude.{◌≡◌, take, drop};

/// The first n items, or all where there are fewer.
pub fn first<T>(items: &[T], n: u64) -> &[T]
    ensures { result.now ≡ take n items.now }
{
    if n < items.len() as u64 {
        &items[..n as usize]
    } else {
        items
    }
}

/// The items behind the first n.
pub fn rest<T>(items: &[T], n: u64) -> &[T]
    ensures { result.now ≡ drop n items.now }
{
    if n < items.len() as u64 {
        &items[n as usize..]
    } else {
        &[]
    }
}
