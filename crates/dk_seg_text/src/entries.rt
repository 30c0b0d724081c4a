//! The entries of a dictionary while it is made or read.
ghost use Rattle.std.specs.List.{AllByRecursion, flat_map};
ghost use Rattle.std.specs.Prelude.{◌≡◌, ◌++◌, ◌<◌, ◌^◌, [], take, not, length, slice_index_or, IfOk, OnOk};
ghost use Rattle.dk_seg_text.specs.Dictionary.{IsShort, is_entry, with_entry, code_of, entry_bytes};

use dk_bytes::put_u16;
use dk_values::OutOfMemory;
use indexmap::IndexSet;
use std::alloc::Global;
use std::marker::Model;

/// Different texts in the order in which they came.
#[derive(Drop)]
pub(crate) struct Entries<'a> {
    texts: IndexSet<&'a [u8]>,
}

impl<'a> Model for Entries<'a> {
    ghost use Rattle.std.specs.Prelude.{List, ℕ, map};

    ghost Value = { List (List ℕ) };

    ghost view = { λ e. map (λ t. t.now) e.texts.keys };
}

impl<'a> Entries<'a> {
    pub(crate) fn new(alloc: Global) -> Self
        ensures { result ≡ [] }
    {
        Entries {
            texts: IndexSet::new(alloc),
        }
    }

    /// The place of the text, which goes last if it is a new one.
    pub(crate) fn add(&mut self, text: &'a [u8]) -> Result<usize, OutOfMemory>
        ensures entries { OnOk result (self.new ≡ with_entry self.old text.now) }
        ensures code { IfOk result (λ code. code ≡ code_of self.old text.now) }
    {
        let Ok((code, _)) = self.texts.insert_full(text) else {
            return Err(OutOfMemory);
        };
        Ok(code)
    }

    /// Whether the text is a new one, which then goes last.
    pub(crate) fn add_new(&mut self, text: &'a [u8]) -> Result<bool, OutOfMemory>
        ensures entries { OnOk result (self.new ≡ with_entry self.old text.now) }
        ensures fresh { IfOk result (λ fresh. fresh ≡ not (is_entry self.old text.now)) }
    {
        let Ok((_, fresh)) = self.texts.insert_full(text) else {
            return Err(OutOfMemory);
        };
        Ok(fresh)
    }

    pub(crate) fn len(&self) -> usize
        ensures { result ≡ length self.now }
    {
        self.texts.len()
    }

    /// The text at that place, and an empty one past the last.
    pub(crate) fn get(&self, code: usize) -> &'a [u8]
        ensures { result.now ≡ slice_index_or self.now code [] }
    {
        match self.texts.get_index(code) {
            Some(text) => text,
            None => &[],
        }
    }

    /// Appends the texts, each behind its length. Without memory some of them may have been appended.
    pub(crate) fn put(&self, out: &mut Vec<u8>) -> Result<(), OutOfMemory>
        requires { AllByRecursion IsShort self.now }
        ensures ok { OnOk result (out.new.items ≡ out.old.items ++ flat_map entry_bytes self.now) }
        ensures kept { take (length out.old.items) out.new.items ≡ out.old.items }
    {
        let count = self.len();
        'texts: for code in 0..count {
            put_entry(out, self.get(code))?;
        }
        Ok(())
    }
}

/// Appends a text behind its length.
fn put_entry(out: &mut Vec<u8>, text: &[u8]) -> Result<(), OutOfMemory>
    requires { IsShort text.now }
    ensures ok { OnOk result (out.new.items ≡ out.old.items ++ entry_bytes text.now) }
    ensures kept { take (length out.old.items) out.new.items ≡ out.old.items }
{
    put_u16(out, text.len() as u16)?;
    out.extend_from_slice(text)
}
