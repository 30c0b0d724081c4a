//! A chunk: a block of 64 places that is filled from the front and never moves.
ghost use Rattle.std.specs.Prelude.{◌≡◌, ◌+◌, ◌<◌, [], ◌∷◌, ◌++◌, length, slice_get, Some, IfOk};
ghost use Rattle.dk_undo.specs.declared.chunk.TheConstants.{CHUNK_LEN};

use crate::block::{allocate, deallocate, fits_in_block};
use crate::cells::{Base, Cells, Deed};
use std::alloc::{AllocError, Global};
use std::marker::Model;

/// How many places a chunk has.
pub(crate) const CHUNK_LEN: usize = 64;

/// A block of places that the chunk owns until `destroy_empty` frees it. How many places are filled the caller keeps.
pub struct Chunk<T> {
    base: Base<T>,
    cells: Cells<T>,
    deed: Deed<T, Global>,
    alloc: Global,
}

impl<T> Model for Chunk<T> {
    ghost use Rattle.dk_undo.specs.ChunkContent.{Held, held_code};

    ghost Value = { Held T };

    ghost coded = { held_code T.code };

    ghost use Rattle.dk_undo.specs.Chunk.{held, IsChunk};

    ghost view = { held };

    ghost invariant = { IsChunk };
}

impl<T> Chunk<T> {
    /// An empty chunk.
    pub(crate) fn new(alloc: Global) -> Result<Chunk<T>, AllocError>
        ensures { IfOk result (λ c. c.items ≡ []) }
    {
        if !fits_in_block::<T>(CHUNK_LEN) {
            return Err(AllocError);
        }
        let (base, cells, deed) = allocate(&alloc, CHUNK_LEN)?;
        Ok(Chunk {
            base,
            cells,
            deed,
            alloc,
        })
    }

    /// Puts `item` behind the others, into the first empty place, which is the one at `index`.
    pub(crate) fn put(&mut self, index: usize, item: T)
        requires behind { index ≡ length self.old.items }
        requires room { index < CHUNK_LEN }
        ensures items { self.new.items ≡ self.old.items ++ item ∷ [] }
        ensures place { self.new.place ≡ self.old.place }
    {
        self.cells.write(self.base, index, item);
    }

    /// Takes the last item, which is the one at `index`.
    pub(crate) fn take(&mut self, index: usize) -> T
        requires { length self.old.items ≡ index + 1 }
        ensures items { self.old.items ≡ self.new.items ++ result ∷ [] }
        ensures place { self.new.place ≡ self.old.place }
    {
        self.cells.read(self.base, index)
    }

    /// The item at `index`, counted from the oldest.
    pub(crate) fn get(&self, index: usize) -> &T
        requires { index < length self.now.items }
        ensures { slice_get self.now.items index ≡ Some result.now }
    {
        self.cells.get(self.base, index)
    }

    /// Frees an empty chunk.
    pub(crate) fn destroy_empty(self)
        requires { self.items ≡ [] }
    {
        let Chunk {
            base,
            cells,
            deed,
            alloc,
        } = self;
        deallocate(&alloc, base, CHUNK_LEN, cells, deed);
    }
}
