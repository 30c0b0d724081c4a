//! Texts in one buffer.
ghost use Rattle.std.specs.Prelude.{◌≡◌, ◌<◌, ◌≤◌, ◌∷◌, ◌++◌, [], Some, length, slice_get, take, OnOk, OnErr, IfOk};
ghost use Rattle.dk_rows.specs.Parts.{parts, AreEnds, start_of};

use dk_values::{OutOfMemory, TryCopy};
use std::alloc::Global;
use std::marker::Model;

/// Texts, seen as the list of their bytes: all bytes in one buffer, and where each text ends.
#[derive(Debug, Drop)]
pub struct Texts {
    bytes: Vec<u8>,
    ends: Vec<usize>,
}

impl Model for Texts {
    ghost use Rattle.std.specs.Prelude.{List, ℕ};
    ghost use Rattle.dk_rows.specs.Parts.{parts, AreEnds};

    ghost Value = { List (List ℕ) };

    ghost view = { λ texts. parts 0 texts.bytes.items texts.ends.items };

    ghost invariant = { λ texts. AreEnds 0 texts.bytes.items texts.ends.items };
}

impl Texts {
    /// No texts. It takes no memory yet.
    pub fn new(alloc: Global) -> Texts
        ensures { result ≡ [] }
    {
        Texts {
            bytes: Vec::new(alloc),
            ends: Vec::new(alloc),
        }
    }

    #[tactic(auto, using(crate::proofs::PartsLemmas::parts_len))]
    pub fn len(&self) -> usize
        ensures { result ≡ length self.now }
    {
        self.ends.len()
    }

    /// Lends the bytes of the i-th text, counted from 0.
    pub fn get(&self, i: usize) -> &[u8]
        requires { i < length self.now }
        ensures { slice_get self.now i ≡ Some result.now }
    {
        text_at(&self.bytes, &self.ends, i)
    }

    /// Adds a text at the end.
    pub fn push(&mut self, text: &[u8]) -> Result<(), OutOfMemory>
        ensures ok { OnOk result (self.new ≡ self.old ++ text.now ∷ []) }
        ensures err { OnErr result (self.new ≡ self.old) }
    {
        push_text(&mut self.bytes, &mut self.ends, text)
    }

    /// Keeps the first n texts.
    pub fn truncate(&mut self, n: usize)
        ensures { self.new ≡ take n self.old }
    {
        truncate_texts(&mut self.bytes, &mut self.ends, n);
    }
}

impl TryCopy for Texts {
    fn copy(&self) -> Result<Texts, OutOfMemory> {
        let bytes = Vec::from_slice(*self.bytes.allocator(), &self.bytes)?;
        let ends = Vec::from_slice(*self.ends.allocator(), &self.ends)?;
        Ok(Texts { bytes, ends })
    }
}

/// Lends the i-th text.
fn text_at<'a>(bytes: &'a [u8], ends: &[usize], i: usize) -> &'a [u8]
    requires within { i < length ends.now }
    requires ends { AreEnds 0 bytes.now ends.now }
    ensures { slice_get (parts 0 bytes.now ends.now) i ≡ Some result.now }
{
    let start = start_at(ends, i);
    &bytes[start..ends[i]]
}

/// Where the i-th part begins: at the end of the one before.
pub(crate) fn start_at(ends: &[usize], i: usize) -> usize
    requires { i ≤ length ends.now }
    ensures { result ≡ start_of 0 i ends.now }
{
    if i == 0 { 0 } else { ends[i - 1] }
}

/// Adds a text behind the others, and its end.
fn push_text(bytes: &mut Vec<u8>, ends: &mut Vec<usize>, text: &[u8]) -> Result<(), OutOfMemory>
    ensures bytes { OnOk result (bytes.new.items ≡ bytes.old.items ++ text.now) }
    ensures ends { OnOk result (ends.new.items ≡ ends.old.items ++ length bytes.new.items ∷ []) }
    ensures err { OnErr result (bytes.new.items ≡ bytes.old.items) }
    ensures same { OnErr result (ends.new.items ≡ ends.old.items) }
{
    let len = bytes.len();
    bytes.extend_from_slice(text)?;
    let pushed = ends.push(bytes.len());
    if pushed.is_err() {
        bytes.truncate(len);
        return Err(OutOfMemory);
    }
    Ok(())
}

/// Keeps the first n texts and their bytes.
fn truncate_texts(bytes: &mut Vec<u8>, ends: &mut Vec<usize>, n: usize)
    requires { AreEnds 0 bytes.old.items ends.old.items }
    ensures texts { parts 0 bytes.new.items ends.new.items ≡ take n (parts 0 bytes.old.items ends.old.items) }
    ensures ends { AreEnds 0 bytes.new.items ends.new.items }
{
    if n < ends.len() {
        bytes.truncate(start_at(ends, n));
        ends.truncate(n);
    }
}
