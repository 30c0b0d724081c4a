//! The undo stack.
ghost use Rattle.std.specs.Prelude.{◌≡◌, ◌+◌, ◌-◌, ◌<◌, ◌≤◌, ◌↔◌, [], ◌∷◌, ◌++◌, length, slice_get, Some, IsNone, IsOk, IfSome, OnSome, OnOk, OnErr, IfNone};
ghost use Rattle.dk_undo.specs.Stack.{stack, reserved};

use crate::chain::{add_chunks, free_chunks, put_last, take_last};
use crate::chunk::{CHUNK_LEN, Chunk};
use std::alloc::{AllocError as OutOfMemory, Global};
use std::marker::Model;

/// The most chunks whose places a `usize` counts.
const MOST_CHUNKS: usize = usize::MAX / CHUNK_LEN;

/// A stack of entries that never move once they stand. The first `len` places of its chunks are filled.
pub struct UndoStack<T> {
    chunks: Vec<Chunk<T>>,
    len: usize,
}

impl<T> Model for UndoStack<T> {
    ghost use Rattle.dk_undo.specs.Stack.{Stack, stack_code};

    ghost Value = { Stack T };

    ghost coded = { stack_code T.code };

    ghost use Rattle.dk_undo.specs.Chain.{stack_view, IsStack};

    ghost view = { stack_view };

    ghost invariant = { IsStack };
}

impl<T> UndoStack<T> {
    /// An empty stack, which takes its memory from `alloc` and has taken none yet.
    pub fn new(alloc: Global) -> UndoStack<T>
        ensures { result ≡ stack [] 0 }
    {
        UndoStack {
            chunks: Vec::new(alloc),
            len: 0,
        }
    }

    /// How many entries the stack has.
    pub fn len(&self) -> usize
        ensures { result ≡ length self.now.entries }
    {
        self.len
    }

    /// How many entries there is room for without taking memory.
    pub fn spare(&self) -> usize
        ensures { result ≡ self.now.spare }
    {
        self.chunks.len() * CHUNK_LEN - self.len
    }

    /// Takes memory until there is room for `n` more entries, and moves no entry. Where memory is missing it gives back
    /// what it took.
    pub fn reserve(&mut self, n: usize) -> Result<(), OutOfMemory>
        ensures room { OnOk result (n ≤ self.new.spare) }
        ensures ok { OnOk result (self.new ≡ stack self.old.entries (reserved self.old.spare n)) }
        ensures err { OnErr result (self.new ≡ self.old) }
        ensures enough { n ≤ self.old.spare → IsOk result }
    {
        let missing = n.saturating_sub(self.spare()).div_ceil(CHUNK_LEN);
        if missing > MOST_CHUNKS - self.chunks.len() {
            return Err(OutOfMemory);
        }
        add_chunks(&mut self.chunks, missing)?;
        Ok(())
    }

    /// Puts `v` on the stack, into room that was reserved.
    pub fn push(&mut self, v: T)
        requires { 1 ≤ self.old.spare }
        ensures { self.new ≡ stack (self.old.entries ++ v ∷ []) (self.old.spare - 1) }
    {
        put_last(&mut self.chunks, self.len, v);
        self.len += 1;
    }

    /// Takes the newest entry. Its room stays.
    pub fn pop(&mut self) -> Option<T>
        ensures none { IsNone result ↔ (self.old.entries ≡ []) }
        ensures newest { IfSome result (λ v. self.old.entries ≡ self.new.entries ++ v ∷ []) }
        ensures room { OnSome result (self.new.spare ≡ self.old.spare + 1) }
        ensures unchanged { IfNone result (self.new ≡ self.old) }
    {
        if self.len == 0 {
            return None;
        }
        self.len -= 1;
        Some(take_last(&mut self.chunks, self.len))
    }

    /// The `i`-th entry from the newest, counted from 0.
    pub fn newest(&self, i: usize) -> &T
        requires { i < length self.now.entries }
        ensures { slice_get self.now.entries (length self.now.entries - 1 - i) ≡ Some result.now }
    {
        let at = self.len - 1 - i;
        self.chunks[at / CHUNK_LEN].get(at % CHUNK_LEN)
    }

    /// Ends an empty stack, also where `T` is not `Drop`.
    pub fn destroy_empty(self)
        requires { self.entries ≡ [] }
    {
        let UndoStack { mut chunks, len: _ } = self;
        free_chunks(&mut chunks, 0);
        chunks.destroy_empty();
    }
}

impl<T: Drop> Drop for UndoStack<T> {
    fn drop(mut self) {
        while let Some(entry) = self.pop() {
            drop(entry);
        }
        self.destroy_empty();
    }
}
