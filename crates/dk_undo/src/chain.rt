//! The chain of a stack's chunks: how entries go into it, and how it grows by empty chunks and gives them back.
ghost use Rattle.std.specs.Prelude.{◌≡◌, ◌+◌, ◌*◌, ◌<◌, [], ◌∷◌, ◌++◌, length, slice_get, Some, IsOk, OnOk, OnErr, drop, take};
ghost use Rattle.dk_undo.specs.declared.chunk.TheConstants.{CHUNK_LEN};
ghost use Rattle.dk_undo.specs.Chain.{AreEmpty, Grows, IsPacked, entries_of, places_of};

use crate::chunk::{CHUNK_LEN, Chunk};
use std::alloc::AllocError as OutOfMemory;

/// Puts `entry` behind the `len` entries of the chunks. No chunk moves.
pub(crate) fn put_last<T>(chunks: &mut Vec<Chunk<T>>, len: usize, entry: T)
    requires packed { IsPacked len chunks.old.items }
    requires room { len < CHUNK_LEN * length chunks.old.items }
    ensures packed { IsPacked (len + 1) chunks.new.items }
    ensures entries { entries_of chunks.new.items ≡ entries_of chunks.old.items ++ entry ∷ [] }
    ensures places { places_of chunks.new.items ≡ places_of chunks.old.items }
{
    chunks[len / CHUNK_LEN].put(len % CHUNK_LEN, entry);
}

/// Takes the last of the `at + 1` entries of the chunks. No chunk moves.
pub(crate) fn take_last<T>(chunks: &mut Vec<Chunk<T>>, at: usize) -> T
    requires { IsPacked (at + 1) chunks.old.items }
    ensures packed { IsPacked at chunks.new.items }
    ensures entries { entries_of chunks.old.items ≡ entries_of chunks.new.items ++ result ∷ [] }
    ensures places { places_of chunks.new.items ≡ places_of chunks.old.items }
{
    chunks[at / CHUNK_LEN].take(at % CHUNK_LEN)
}

/// Adds one empty chunk.
fn add_chunk<T>(chunks: &mut Vec<Chunk<T>>) -> Result<(), OutOfMemory>
    ensures ok { OnOk result (Grows chunks.old.items chunks.new.items 1) }
    ensures err { OnErr result (chunks.new.items ≡ chunks.old.items) }
{
    let chunk = Chunk::new(*chunks.allocator())?;
    match chunks.push(chunk) {
        Ok(()) => Ok(()),
        Err(refused) => {
            refused.value.destroy_empty();
            Err(OutOfMemory)
        }
    }
}

/// Gives the chunks behind the first `keep` back, which are empty.
pub(crate) fn free_chunks<T>(chunks: &mut Vec<Chunk<T>>, keep: usize)
    requires { AreEmpty (drop keep chunks.old.items) }
    ensures { chunks.new.items ≡ take keep chunks.old.items }
{
    while chunks.len() > keep {
        if let Some(chunk) = chunks.pop() {
            chunk.destroy_empty();
        }
    }
}

/// Adds `count` empty chunks, or none.
pub(crate) fn add_chunks<T>(chunks: &mut Vec<Chunk<T>>, count: usize) -> Result<(), OutOfMemory>
    ensures ok { OnOk result (Grows chunks.old.items chunks.new.items count) }
    ensures err { OnErr result (chunks.new.items ≡ chunks.old.items) }
    ensures none { count ≡ 0 → IsOk result }
{
    let before = chunks.len();
    for _added in 0..count {
        if let Err(refused) = add_chunk(chunks) {
            free_chunks(chunks, before);
            return Err(refused);
        }
    }
    Ok(())
}
