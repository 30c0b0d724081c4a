//! The values of rows in nine bytes each: a byte for the kind, and a word.
ghost use Rattle.std.specs.Prelude.{◌≡◌, ◌<◌, ◌∷◌, ◌++◌, [], Some, length, slice_get, take, OnOk, OnErr};
ghost use Rattle.dk_rows.specs.Slots.{slot_of, kind_of, slots};

use dk_values::{OutOfMemory, TryCopy};
use std::alloc::Global;
use std::marker::Model;

/// A value, or the place among the texts or the sums where it is kept.
#[derive(Clone, Copy, Debug)]
pub enum Slot {
    Null,
    Bool(bool),
    Int(i32),
    Big(i64),
    Text(usize),
    Huge(usize),
}

/// What a word means.
#[derive(Clone, Copy, Debug)]
pub enum Kind {
    Null,
    Bool,
    Int,
    Big,
    Text,
    Huge,
}

impl Slot {
    fn kind(self) -> Kind
        ensures { result ≡ kind_of self }
    {
        match self {
            Slot::Null => Kind::Null,
            Slot::Bool(_) => Kind::Bool,
            Slot::Int(_) => Kind::Int,
            Slot::Big(_) => Kind::Big,
            Slot::Text(_) => Kind::Text,
            Slot::Huge(_) => Kind::Huge,
        }
    }

    fn word(self) -> u64
        ensures { slot_of (kind_of self) result ≡ self }
    {
        match self {
            Slot::Null => 0,
            Slot::Bool(truth) => truth as u64,
            Slot::Int(number) => number.cast_unsigned() as u64,
            Slot::Big(number) => number.cast_unsigned(),
            Slot::Text(place) => place as u64,
            Slot::Huge(place) => place as u64,
        }
    }
}

/// What a word of that kind stands for.
fn slot_of(kind: Kind, word: u64) -> Slot
    ensures { result ≡ slot_of kind word }
{
    match kind {
        Kind::Null => Slot::Null,
        Kind::Bool => Slot::Bool(word == 1),
        Kind::Int => Slot::Int(((word % (1 << 32)) as u32).cast_signed()),
        Kind::Big => Slot::Big(word.cast_signed()),
        Kind::Text => Slot::Text(word as usize),
        Kind::Huge => Slot::Huge(word as usize),
    }
}

/// Slots, seen as their list.
#[derive(Debug, Drop)]
pub struct Slots {
    kinds: Vec<Kind>,
    words: Vec<u64>,
}

impl Model for Slots {
    ghost use Rattle.std.specs.Prelude.{◌≡◌, List, length};
    ghost use Rattle.dk_rows.specs.declared.slots.Slot.{Slot};
    ghost use Rattle.dk_rows.specs.Slots.{slots};

    ghost Value = { List Slot };

    ghost view = { λ s. slots s.kinds.items s.words.items };

    ghost invariant = { λ s. length s.kinds.items ≡ length s.words.items };
}

impl Slots {
    /// No slots. It takes no memory yet.
    pub fn new(alloc: Global) -> Slots
        ensures { result ≡ [] }
    {
        Slots {
            kinds: Vec::new(alloc),
            words: Vec::new(alloc),
        }
    }

    #[tactic(auto, using(crate::proofs::SlotsLemmas::slots_len))]
    pub fn len(&self) -> usize
        ensures { result ≡ length self.now }
    {
        self.kinds.len()
    }

    pub fn get(&self, i: usize) -> Slot
        requires { i < length self.now }
        ensures { slice_get self.now i ≡ Some result }
    {
        slot_of(self.kinds[i], self.words[i])
    }

    pub fn push(&mut self, slot: Slot) -> Result<(), OutOfMemory>
        ensures ok { OnOk result (self.new ≡ self.old ++ slot ∷ []) }
        ensures err { OnErr result (self.new ≡ self.old) }
    {
        push_both(&mut self.kinds, &mut self.words, slot.kind(), slot.word())
    }

    /// Keeps the first n slots.
    #[tactic(auto, using(crate::proofs::SlotsLemmas::slots_front))]
    pub fn truncate(&mut self, n: usize)
        ensures { self.new ≡ take n self.old }
    {
        self.kinds.truncate(n);
        self.words.truncate(n);
    }
}

impl TryCopy for Slots {
    fn copy(&self) -> Result<Slots, OutOfMemory> {
        let kinds = Vec::from_slice(*self.kinds.allocator(), &self.kinds)?;
        let words = Vec::from_slice(*self.words.allocator(), &self.words)?;
        Ok(Slots { kinds, words })
    }
}

/// Adds a kind and its word, or neither.
fn push_both(
    kinds: &mut Vec<Kind>,
    words: &mut Vec<u64>,
    kind: Kind,
    word: u64,
) -> Result<(), OutOfMemory>
    ensures kinds { OnOk result (kinds.new.items ≡ kinds.old.items ++ kind ∷ []) }
    ensures words { OnOk result (words.new.items ≡ words.old.items ++ word ∷ []) }
    ensures err { OnErr result (kinds.new.items ≡ kinds.old.items) }
    ensures same { OnErr result (words.new.items ≡ words.old.items) }
{
    kinds.push(kind)?;
    let pushed = words.push(word);
    if pushed.is_err() {
        let _ = kinds.pop();
        return Err(OutOfMemory);
    }
    Ok(())
}
