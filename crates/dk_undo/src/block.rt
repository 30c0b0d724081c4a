//! Blocks of places, taken from an allocator and given back.
ghost use Rattle.std.specs.Prelude.{◌≡◌, IfOk, IsTrue};
ghost use Rattle.std.specs.Vec.Ownership.{FitsInBlock};
ghost use denote.Param.{layout};
ghost use prog.Memory.{size, capped};
ghost use Rattle.dk_undo.specs.Block.{IsEmptyBlock};

use crate::cells::{Base, Cells, Deed};
use std::alloc::{AllocError, Allocator};
use std::marker::PhantomData;
use std::mem::{align_of, size_of};

/// The size of `T` as a plain number, where elsewhere `size_of` of a type parameter stands only in a product.
fn size_of_item<T>() -> usize
    ensures { result ≡ capped (size (layout T.row)) }
{
    size_of::<T>()
}

/// Whether a block of `len` places is small enough to ask for.
pub(crate) fn fits_in_block<T>(len: usize) -> bool
    ensures { IsTrue result → FitsInBlock T.row len }
{
    let most = isize::MAX as usize;
    let size = size_of_item::<T>();
    if most < len || most < size {
        return false;
    }
    match len.checked_mul(size) {
        Some(bytes) => bytes <= most,
        None => false,
    }
}

/// Takes a block of `len` empty places from `alloc`.
pub(crate) fn allocate<T, A: Allocator>(
    alloc: &A,
    len: usize,
) -> Result<(Base<T>, Cells<T>, Deed<T, A>), AllocError>
    requires { FitsInBlock T.row len }
    ensures { IfOk result (λ r. IsEmptyBlock r.0 r.1 r.2 len alloc.now) }
{
    match alloc.allocate(len * size_of::<T>(), align_of::<T>()) {
        Ok(block) => {
            let base = Base {
                ptr: block as *mut T,
            };
            Ok((
                base,
                Cells { mark: PhantomData },
                Deed { mark: PhantomData },
            ))
        }
        Err(error) => Err(error),
    }
}

/// Gives a block whose places are all empty back to `alloc`.
pub(crate) fn deallocate<T, A: Allocator>(
    alloc: &A,
    base: Base<T>,
    len: usize,
    cells: Cells<T>,
    deed: Deed<T, A>,
)
    requires { IsEmptyBlock base cells deed len alloc.now }
{
    let Cells { mark: _ } = cells;
    let Deed { mark: _ } = deed;
    unsafe {
        alloc.deallocate(base.ptr as *mut u8, len * size_of::<T>(), align_of::<T>());
    }
}
