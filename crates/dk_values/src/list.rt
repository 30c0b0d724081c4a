//! A growable list, and copies that take memory.
ghost use Rattle.std.specs.Prelude.{◌≡◌, ◌<◌, [], ◌∷◌, ◌++◌, ◌↔◌, length, map, slice_get, slice_set, IsTrue, IfOk, OnOk, OnErr};

pub use std::alloc::AllocError as OutOfMemory;
use std::alloc::Global;
use std::marker::Model;

/// A growable list that contracts see as the list of its items.
///
/// It keeps the allocator that it was made with. A type that leads back to itself holds its parts in another way.
#[derive(Debug, Drop)]
pub struct List<T> {
    items: Vec<T>,
}

impl<T> Model for List<T> {
    ghost use Rattle.std.specs.Prelude.{List};
    ghost use Rattle.std.specs.Coded.{coded_list};

    ghost Value = { List T };

    ghost coded = { coded_list T.code };

    ghost view = { λ list. list.items.items };
}

impl<T> List<T> {
    /// A list with no item. It takes no memory yet.
    pub fn new(alloc: Global) -> List<T>
        ensures { result ≡ [] }
    {
        List {
            items: Vec::new(alloc),
        }
    }

    /// The items of a vector, in place.
    pub fn from_vec(items: Vec<T>) -> List<T>
        ensures { result ≡ items.items }
    {
        List { items }
    }

    /// The items as a vector, in place.
    pub fn into_vec(self) -> Vec<T>
        ensures { result.items ≡ self }
    {
        let List { items } = self;
        items
    }

    pub fn as_slice(&self) -> &[T]
        ensures { result.now ≡ self.now }
    {
        self.items.as_slice()
    }

    pub fn len(&self) -> usize
        ensures { result ≡ length self.now }
    {
        self.items.len()
    }

    pub fn is_empty(&self) -> bool
        ensures { IsTrue result ↔ (self.now ≡ []) }
    {
        self.items.is_empty()
    }

    /// Lends the i-th item, counted from 0.
    pub fn get(&self, i: usize) -> &T
        requires { i < length self.now }
        ensures { slice_get self.now i ≡ Some result.now }
    {
        &self.items[i]
    }
}

impl<T: Drop> List<T> {
    /// Adds an item at the end.
    pub fn push(&mut self, item: T) -> Result<(), OutOfMemory>
        ensures ok { OnOk result (self.new ≡ self.old ++ item ∷ []) }
        ensures err { OnErr result (self.new ≡ self.old) }
    {
        self.items.push(item).map_err(|_| OutOfMemory)
    }

    /// Puts an item in the place of the i-th, which is dropped.
    pub fn set(&mut self, i: usize, item: T)
        requires { i < length self.old }
        ensures { self.new ≡ slice_set self.old i item }
    {
        self.items[i] = item;
    }

    /// Moves the items of another list to the end. Without memory this list stays, and the other is dropped.
    pub fn append(&mut self, more: List<T>) -> Result<(), OutOfMemory>
        ensures ok { OnOk result (self.new ≡ self.old ++ more) }
        ensures err { OnErr result (self.new ≡ self.old) }
    {
        let List { mut items } = more;
        self.items.append(&mut items)
    }
}

/// A copy that takes memory, and equals what it copies.
pub trait TryCopy: Drop {
    fn copy(&self) -> Result<Self, OutOfMemory>
        ensures { IfOk result (λ copied. copied ≡ self.now) };
}

impl<T: TryCopy> TryCopy for List<T> {
    fn copy(&self) -> Result<List<T>, OutOfMemory> {
        let mut copied = List::new(*self.items.allocator());
        for item in self.items.as_slice() {
            copied.push(item.copy()?)?;
        }
        Ok(copied)
    }
}

impl<T: TryCopy> TryCopy for Option<T> {
    fn copy(&self) -> Result<Option<T>, OutOfMemory> {
        match self {
            None => Ok(None),
            Some(item) => Ok(Some(item.copy()?)),
        }
    }
}

impl<A: TryCopy, B: TryCopy> TryCopy for (A, B) {
    fn copy(&self) -> Result<(A, B), OutOfMemory> {
        Ok((self.0.copy()?, self.1.copy()?))
    }
}

impl TryCopy for u8 {
    fn copy(&self) -> Result<u8, OutOfMemory> {
        Ok(*self)
    }
}

impl TryCopy for u32 {
    fn copy(&self) -> Result<u32, OutOfMemory> {
        Ok(*self)
    }
}

impl TryCopy for u64 {
    fn copy(&self) -> Result<u64, OutOfMemory> {
        Ok(*self)
    }
}

impl<T: PartialEq> PartialEq for List<T> {
    ghost use lib.Pointwise.{pointwise};
    ghost use Rattle.std.specs.Cmp.Lexicographic.{lists_per};

    ghost eq = { λ x y. pointwise T.eq x y };

    ghost laws = { lists_per T.laws };

    fn eq(&self, other: &List<T>) -> bool {
        self.items.as_slice() == other.items.as_slice()
    }
}
