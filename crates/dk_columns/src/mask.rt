//! A flag for each of many values.
ghost use Rattle.std.specs.Prelude.{◌≡◌, ◌≢◌, ◌<◌, ◌≤◌, ◌-◌, ◌^◌, ◌∷◌, ◌++◌, ◌↔◌, ℕ, Some, true, false, [], length, slice_get, slice_set, get_or, replicate, take, IsTrue, IfOk, OnOk, OnErr};
ghost use Rattle.dk_columns.specs.Flags.{flag, IsWord, Widened};

use dk_values::{OutOfMemory, TryCopy};
use std::alloc::Global;
use std::marker::Model;

/// How many flags a word has.
pub const WORD_FLAGS: usize = 64;

/// Flags, seen as their list: 64 to a word, the least bit first.
///
/// The flags behind the last word are set, so no words stand for flags that are all set, and a flag that is set
/// takes no memory there.
#[derive(Debug, Drop)]
pub struct Mask {
    len: usize,
    words: Vec<u64>,
}

impl Model for Mask {
    ghost use Rattle.std.specs.Prelude.{ℕ, Bool, List, true, ◌≡◌, ◌≤◌};
    ghost use Rattle.dk_columns.specs.Flags.{flags, flag};

    ghost Value = { List Bool };

    ghost view = { λ mask. flags mask.len mask.words.items };

    ghost invariant = { λ mask. (i : ℕ) → mask.len ≤ i → flag mask.words.items i ≡ true };
}

impl Mask {
    /// No flags. It takes no memory yet.
    #[tactic(auto, using(crate::proofs::MaskLemmas::no_words))]
    pub fn new(alloc: Global) -> Mask
        ensures { result ≡ [] }
    {
        Mask {
            len: 0,
            words: Vec::new(alloc),
        }
    }

    /// Flags that are all set. They take no memory.
    #[tactic(auto, using(crate::proofs::MaskLemmas::all_set, crate::proofs::MaskLemmas::no_words))]
    pub fn all(alloc: Global, len: usize) -> Mask
        ensures { result ≡ replicate len true }
    {
        Mask {
            len,
            words: Vec::new(alloc),
        }
    }

    #[tactic(auto, using(crate::proofs::MaskLemmas::flags_len))]
    pub fn len(&self) -> usize
        ensures { result ≡ length self.now }
    {
        self.len
    }

    #[tactic(auto, using(crate::proofs::MaskLemmas::got))]
    pub fn get(&self, i: usize) -> bool
        requires { i < length self.now }
        ensures { slice_get self.now i ≡ Some result }
    {
        is_set(&self.words, i)
    }

    /// Whether no words are kept, so that all flags are set.
    pub fn is_whole(&self) -> bool
        ensures { IsTrue result → self.now ≡ replicate (length self.now) true }
    {
        self.words.is_empty()
    }

    /// The flags from the k-th 64 on, the least bit first. The bits behind the last flag are set.
    pub fn word(&self, k: usize) -> u64
        ensures { IsWord k result self.now }
    {
        word_at(&self.words, k)
    }

    /// Adds a flag at the end. Only one that is not set may take memory.
    pub fn push(&mut self, set: bool) -> Result<(), OutOfMemory>
        ensures ok { OnOk result (self.new ≡ self.old ++ set ∷ []) }
        ensures err { OnErr result (self.new ≡ self.old) }
    {
        if self.len == usize::MAX {
            return Err(OutOfMemory);
        }
        mark(&mut self.words, self.len, set)?;
        self.len += 1;
        Ok(())
    }

    /// Adds so many copies of a flag at the end. Only one that is not set may take memory.
    #[tactic(auto, using(dk_rows::proofs::RowLemmas::taken_back, crate::proofs::CopyLemmas::one_more))]
    pub fn push_copies(&mut self, set: bool, count: usize) -> Result<(), OutOfMemory>
        ensures ok { OnOk result (self.new ≡ self.old ++ replicate count set) }
        ensures err { OnErr result (self.new ≡ self.old) }
    {
        if set {
            return self.push_set(count);
        }
        let before = self.len();
        'copies: for _ in 0..count {
            if let Err(lack) = self.push(false) {
                self.truncate(before);
                return Err(lack);
            }
        }
        Ok(())
    }

    /// Adds so many flags that are set at the end. They take no memory.
    fn push_set(&mut self, count: usize) -> Result<(), OutOfMemory>
        ensures ok { OnOk result (self.new ≡ self.old ++ replicate count true) }
        ensures err { OnErr result (self.new ≡ self.old) }
    {
        let Some(len) = self.len.checked_add(count) else {
            return Err(OutOfMemory);
        };
        self.len = len;
        Ok(())
    }

    /// Removes all flags, and keeps the memory of their words.
    #[tactic(auto, using(crate::proofs::MaskLemmas::no_words))]
    pub fn clear(&mut self)
        ensures { self.new ≡ [] }
    {
        self.words.clear();
        self.len = 0;
    }

    /// Puts a flag in the place of the i-th. Only one that is not set may take memory.
    pub fn set(&mut self, i: usize, set: bool) -> Result<(), OutOfMemory>
        requires { i < length self.old }
        ensures ok { OnOk result (self.new ≡ slice_set self.old i set) }
        ensures err { OnErr result (self.new ≡ self.old) }
    {
        mark(&mut self.words, i, set)?;
        Ok(())
    }

    /// Adds the flags of another mask at the end.
    #[tactic(auto, using(dk_rows::proofs::RowLemmas::taken_back, dk_rows::proofs::RowLemmas::put_next))]
    pub fn append(&mut self, more: &Mask) -> Result<(), OutOfMemory>
        ensures ok { OnOk result (self.new ≡ self.old ++ more.now) }
        ensures err { OnErr result (self.new ≡ self.old) }
    {
        let before = self.len();
        'flags: for i in 0..more.len() {
            if let Err(lack) = self.push(more.get(i)) {
                self.truncate(before);
                return Err(lack);
            }
        }
        Ok(())
    }

    /// Whether the same flags are set.
    pub fn is_same(&self, other: &Mask) -> bool
        ensures { IsTrue result ↔ (self.now ≡ other.now) }
    {
        if self.len() != other.len() {
            return false;
        }
        'flags: for i in 0..other.len() {
            if !is_same_flag(self.get(i), other.get(i)) {
                return false;
            }
        }
        true
    }

    /// Keeps the first n flags.
    pub fn truncate(&mut self, n: usize)
        ensures { self.new ≡ take n self.old }
    {
        if n < self.len {
            widen(&mut self.words, n, self.len);
            self.words.truncate(n.div_ceil(WORD_FLAGS));
            self.len = n;
        }
    }
}

impl TryCopy for Mask {
    fn copy(&self) -> Result<Mask, OutOfMemory> {
        let words = Vec::from_slice(*self.words.allocator(), &self.words)?;
        Ok(Mask {
            len: self.len,
            words,
        })
    }
}

impl PartialEq for Mask {
    ghost use Rattle.dk_columns.specs.Equal.{flags_eq, flags_per};

    ghost eq = { flags_eq };

    ghost laws = { flags_per };

    fn eq(&self, other: &Mask) -> bool {
        self.is_same(other)
    }
}

/// Whether both flags are set, or none.
fn is_same_flag(set: bool, other: bool) -> bool
    ensures { IsTrue result ↔ (set ≡ other) }
{
    set == other
}

/// Whether flag i is set.
#[tactic(auto, using(crate::proofs::MaskLemmas::tested))]
fn is_set(words: &[u64], i: usize) -> bool
    ensures { result ≡ flag words.now i }
{
    let word = word_at(words, i / WORD_FLAGS);
    (word >> (i % WORD_FLAGS)) & 1 == 1
}

/// The k-th word, or one of set flags behind the words.
fn word_at(words: &[u64], k: usize) -> u64
    ensures { result ≡ get_or words.now k (2 ^ 64 - 1) }
{
    if k < words.len() { words[k] } else { u64::MAX }
}

/// Sets or clears flag i.
fn mark(words: &mut Vec<u64>, i: usize, set: bool) -> Result<(), OutOfMemory>
    ensures here { OnOk result (flag words.new.items i ≡ set) }
    ensures others { OnOk result ((j : ℕ) → j ≢ i → flag words.new.items j ≡ flag words.old.items j) }
    ensures err { OnErr result ((j : ℕ) → flag words.new.items j ≡ flag words.old.items j) }
{
    if set {
        raise(words, i);
        return Ok(());
    }
    clear(words, i)
}

/// Sets flag i. Behind the words it is set.
fn raise(words: &mut Vec<u64>, i: usize)
    ensures here { flag words.new.items i ≡ true }
    ensures others { (j : ℕ) → j ≢ i → flag words.new.items j ≡ flag words.old.items j }
{
    if i / WORD_FLAGS < words.len() {
        words[i / WORD_FLAGS] |= 1u64 << (i % WORD_FLAGS);
    }
}

/// Clears flag i.
fn clear(words: &mut Vec<u64>, i: usize) -> Result<(), OutOfMemory>
    ensures here { OnOk result (flag words.new.items i ≡ false) }
    ensures others { OnOk result ((j : ℕ) → j ≢ i → flag words.new.items j ≡ flag words.old.items j) }
    ensures err { OnErr result ((j : ℕ) → flag words.new.items j ≡ flag words.old.items j) }
{
    fill(words, i / WORD_FLAGS)?;
    words[i / WORD_FLAGS] &= !(1u64 << (i % WORD_FLAGS));
    Ok(())
}

/// Adds words of set flags until there is a k-th.
fn fill(words: &mut Vec<u64>, k: usize) -> Result<(), OutOfMemory>
    ensures long { OnOk result (k < length words.new.items) }
    ensures same { (j : ℕ) → get_or words.new.items j (2 ^ 64 - 1) ≡ get_or words.old.items j (2 ^ 64 - 1) }
{
    'fill: while words.len() <= k {
        words.push(u64::MAX)?;
    }
    Ok(())
}

/// Sets the flags from one to before another.
fn widen(words: &mut Vec<u64>, from: usize, to: usize)
    requires { from ≤ to }
    ensures { Widened words.old.items words.new.items from to }
{
    'flags: for i in from..to {
        raise(words, i);
    }
}
