//! The parts of a block, which is as Rust's `[MaybeUninit<T>]`: a row of places, each empty or holding a value.
//!
//! `Cells` owns the places and knows which are filled, and `Deed` is the right to give the block back. Neither is
//! `Drop`, so a block is neither lost nor given back twice. A write asks for an empty place and a read for a filled
//! one, so no value is written over, read twice or read before it is written.
ghost use Rattle.std.specs.Prelude.{◌≡◌, ℕ, List, Option, Some, None, get_or, ⊤};
ghost use base.Fml.{ftrue};
ghost use denote.RawPtr.{Ptr};
ghost use Rattle.dk_undo.specs.Ownership.{cells_own, cells_lent, deed_owns};

use std::alloc::{AllocError, Allocator};
use std::marker::{Model, PhantomData, Send, Sync};

/// Where the block begins. It owns nothing.
pub struct Base<T> {
    pub(crate) ptr: *mut T,
}

impl<T> Clone for Base<T> {
    ghost is_clone = { λ x y. y ≡ x };

    ghost is_infallible = { λ _. ⊤ };

    fn clone(&self) -> Result<Base<T>, AllocError> {
        Ok(*self)
    }
}

impl<T> Copy for Base<T> {}

unsafe impl<T> Send for Base<T> {}

unsafe impl<T> Sync for Base<T> {}

/// The owner of the places. It takes no space: the chunk holds the pointer.
pub struct Cells<T> {
    pub(crate) mark: PhantomData<*const T>,
    ghost at: { Ptr },
    ghost slots: { List (Option T) },
}

impl<T> Model for Cells<T> {
    ghost also_owns = { λ c. cells_own T.row c.at c.slots };

    ghost also_shares = { λ c _ κ. cells_lent T.row c.at c.slots κ };
}

unsafe impl<T: Send> Send for Cells<T> {}

unsafe impl<T: Sync> Sync for Cells<T> {}

/// The right to give the block of `len` places at `at` back to `alloc`. It takes no space.
pub struct Deed<T, A: Allocator> {
    pub(crate) mark: PhantomData<*const (T, A)>,
    ghost at: { Ptr },
    ghost len: { ℕ },
    ghost alloc: { A },
}

impl<T, A: Allocator> Model for Deed<T, A> {
    ghost also_owns = { λ d. deed_owns T.row (A.dealloc_token d.alloc) d.at d.len };

    ghost also_shares = { λ _ _ _. ftrue };
}

unsafe impl<T, A: Allocator + Send> Send for Deed<T, A> {}

// A `&` to it holds nothing.
unsafe impl<T, A: Allocator> Sync for Deed<T, A> {}

impl<T> Cells<T> {
    ghost use Rattle.dk_undo.specs.Block.{HasEmptyPlace, HasFilledPlace, ChangesPlace};

    /// Puts `item` into the empty place at `index`.
    pub(crate) fn write(&mut self, base: Base<T>, index: usize, item: T)
        requires { HasEmptyPlace self.old base index }
        ensures { ChangesPlace self.old self.new index (Some item) }
    {
        unsafe { base.ptr.add(index).write(item) }
    }

    /// Takes the value out of the place at `index`.
    pub(crate) fn read(&mut self, base: Base<T>, index: usize) -> T
        requires { HasFilledPlace self.old base index }
        ensures value { get_or self.old.slots index None ≡ Some result }
        ensures slots { ChangesPlace self.old self.new index None }
    {
        unsafe { base.ptr.add(index).read() }
    }

    /// Lends the value in the place at `index`.
    pub(crate) fn get(&self, base: Base<T>, index: usize) -> &T
        requires { HasFilledPlace self.now base index }
        ensures { get_or self.now.slots index None ≡ Some result.now }
    {
        unsafe { &*base.ptr.add(index) }
    }
}
