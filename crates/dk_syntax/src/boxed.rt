//! A part of a tree, behind a pointer.
ghost use Rattle.std.specs.Prelude.{◌≡◌, IfOk};

use dk_values::OutOfMemory;
use sqlite_items as items;
use std::alloc::Global;
use std::marker::Model;

/// A box that contracts see as its value.
///
/// A type that leads back to itself holds its parts in these. It keeps the allocator that it was made with, so that a
/// tree can be copied.
#[derive(Debug, Drop)]
pub struct Boxed<T> {
    inner: items::Boxed<T>,
    alloc: Global,
}

impl<T> Model for Boxed<T> {
    ghost Value = { T };

    ghost coded = { T.code };

    ghost view = { λ boxed. boxed.inner };
}

impl<T> Boxed<T> {
    /// Lends the value.
    pub fn get(&self) -> &T
        ensures { result.now ≡ self.now }
    {
        self.inner.get()
    }

    /// Takes the value out, in place.
    pub fn into_inner(self) -> T
        ensures { result ≡ self }
    {
        let Boxed { inner, alloc: _ } = self;
        inner.into_inner()
    }
}

impl<T: Drop> Boxed<T> {
    /// Moves a value behind a pointer.
    pub fn new(alloc: Global, value: T) -> Result<Boxed<T>, OutOfMemory>
        ensures { IfOk result (λ boxed. boxed ≡ value) }
    {
        let inner = items::Boxed::new(alloc, value)?;
        Ok(Boxed { inner, alloc })
    }

    /// Moves a value behind a pointer of its own, with the allocator of this one.
    pub fn another(&self, value: T) -> Result<Boxed<T>, OutOfMemory>
        ensures { IfOk result (λ boxed. boxed ≡ value) }
    {
        Boxed::new(self.alloc, value)
    }
}

impl<T: PartialEq> PartialEq for Boxed<T> {
    ghost eq = { λ x y. T.eq x y };

    ghost laws = { T.laws };

    fn eq(&self, other: &Boxed<T>) -> bool {
        *self.get() == *other.get()
    }
}
