//! Values of any kind, one behind the other.
ghost use Rattle.std.specs.Prelude.{◌≡◌, ◌<◌, ◌≤◌, ◌∷◌, ◌++◌, [], Some, length, slice_get, take, drop, sum_by, IfOk, OnOk, OnErr};
ghost use Rattle.dk_rows.specs.Cells.{value_of};
ghost use Rattle.dk_rows.specs.Values.{value_in, values_in, AllNamed, IsThere, Keeps, text_count, sum_count};

use crate::cell::Cell;
use crate::slots::{Slot, Slots};
use crate::texts::Texts;
use dk_values::{OutOfMemory, TryCopy};
use std::alloc::Global;
use std::marker::Model;

/// Values, seen as their list: a slot each, the texts in one buffer and the sums of 128 bits in another.
#[derive(Debug, Drop)]
pub struct Values {
    slots: Slots,
    texts: Texts,
    sums: Vec<i128>,
}

impl Model for Values {
    ghost use Rattle.std.specs.Prelude.{List, length};
    ghost use Rattle.dk_values.specs.declared.value.Value.{Value as StoredValue};
    ghost use Rattle.dk_rows.specs.Values.{values_in, AllNamed};

    ghost Value = { List StoredValue };

    ghost view = { λ values. values_in values.texts values.sums.items values.slots };

    ghost invariant = { λ values. AllNamed (length values.texts) (length values.sums.items) 0 0 values.slots };
}

impl Values {
    /// No values. It takes no memory yet.
    pub fn new(alloc: Global) -> Values
        ensures { result ≡ [] }
    {
        Values {
            slots: Slots::new(alloc),
            texts: Texts::new(alloc),
            sums: Vec::new(alloc),
        }
    }

    #[tactic(auto, using(crate::proofs::ValuesLemmas::values_len))]
    pub fn len(&self) -> usize
        ensures { result ≡ length self.now }
    {
        self.slots.len()
    }

    /// Lends the i-th value, counted from 0.
    pub fn get(&self, i: usize) -> Cell<'_>
        requires { i < length self.now }
        ensures { slice_get self.now i ≡ Some (value_of result) }
    {
        cell_in(&self.texts, &self.sums, self.slots.get(i))
    }

    /// Adds a value at the end.
    pub fn push(&mut self, cell: &Cell<'_>) -> Result<(), OutOfMemory>
        ensures ok { OnOk result (self.new ≡ self.old ++ value_of cell.now ∷ []) }
        ensures err { OnErr result (self.new ≡ self.old) }
    {
        push_cell(&mut self.slots, &mut self.texts, &mut self.sums, cell)
    }

    /// Keeps the first n values.
    pub fn truncate(&mut self, n: usize)
        ensures { self.new ≡ take n self.old }
    {
        truncate_parts(&mut self.slots, &mut self.texts, &mut self.sums, n);
    }
}

impl TryCopy for Values {
    fn copy(&self) -> Result<Values, OutOfMemory> {
        let slots = self.slots.copy()?;
        let texts = self.texts.copy()?;
        let sums = Vec::from_slice(*self.sums.allocator(), &self.sums)?;
        Ok(Values { slots, texts, sums })
    }
}

/// Lends the value of a slot.
fn cell_in<'a>(texts: &'a Texts, sums: &[i128], slot: Slot) -> Cell<'a>
    requires { IsThere (length texts.now) (length sums.now) slot }
    ensures { value_of result ≡ value_in texts.now sums.now slot }
{
    match slot {
        Slot::Null => Cell::Null,
        Slot::Bool(truth) => Cell::Bool(truth),
        Slot::Int(number) => Cell::Int(number),
        Slot::Big(number) => Cell::Big(number),
        Slot::Text(place) => Cell::Text(texts.get(place)),
        Slot::Huge(place) => Cell::Huge(sums[place]),
    }
}

/// Adds a value: what it keeps apart, and its slot.
fn push_cell(
    slots: &mut Slots,
    texts: &mut Texts,
    sums: &mut Vec<i128>,
    cell: &Cell<'_>,
) -> Result<(), OutOfMemory>
    requires { AllNamed (length texts.old) (length sums.old.items) 0 0 slots.old }
    ensures named { AllNamed (length texts.new) (length sums.new.items) 0 0 slots.new }
    ensures ok { OnOk result (values_in texts.new sums.new.items slots.new
        ≡ values_in texts.old sums.old.items slots.old ++ value_of cell.now ∷ []) }
    ensures err { OnErr result (values_in texts.new sums.new.items slots.new
        ≡ values_in texts.old sums.old.items slots.old) }
{
    let texts_before = texts.len();
    let sums_before = sums.len();
    let slot = keep(texts, sums, cell)?;
    match slots.push(slot) {
        Ok(()) => Ok(()),
        Err(lack) => {
            texts.truncate(texts_before);
            sums.truncate(sums_before);
            Err(lack)
        }
    }
}

/// Keeps the text or the sum of a value, and gives the slot that stands for it.
fn keep(texts: &mut Texts, sums: &mut Vec<i128>, cell: &Cell<'_>) -> Result<Slot, OutOfMemory>
    ensures ok { IfOk result (λ slot.
        Keeps texts.old texts.new sums.old.items sums.new.items (value_of cell.now) slot) }
    ensures texts { OnErr result (texts.new ≡ texts.old) }
    ensures sums { OnErr result (sums.new.items ≡ sums.old.items) }
{
    match cell {
        Cell::Null => Ok(Slot::Null),
        Cell::Bool(truth) => Ok(Slot::Bool(*truth)),
        Cell::Int(number) => Ok(Slot::Int(*number)),
        Cell::Big(number) => Ok(Slot::Big(*number)),
        Cell::Text(text) => {
            let place = texts.len();
            texts.push(text)?;
            Ok(Slot::Text(place))
        }
        Cell::Huge(number) => {
            let place = sums.len();
            sums.push(*number)?;
            Ok(Slot::Huge(place))
        }
    }
}

/// Keeps the first n slots, with the texts and the sums that they name.
fn truncate_parts(slots: &mut Slots, texts: &mut Texts, sums: &mut Vec<i128>, n: usize)
    requires { AllNamed (length texts.old) (length sums.old.items) 0 0 slots.old }
    ensures named { AllNamed (length texts.new) (length sums.new.items) 0 0 slots.new }
    ensures values { values_in texts.new sums.new.items slots.new
        ≡ take n (values_in texts.old sums.old.items slots.old) }
{
    let counts = counts_behind(slots, n);
    slots.truncate(n);
    texts.truncate(texts.len() - counts.texts);
    sums.truncate(sums.len() - counts.sums);
}

/// How many texts and sums slots name.
#[derive(Clone, Copy)]
struct Counts {
    texts: usize,
    sums: usize,
}

/// How many texts and sums the slots from the n-th on name.
fn counts_behind(slots: &Slots, n: usize) -> Counts
    ensures texts { result.texts ≡ sum_by text_count (drop n slots.now) }
    ensures sums { result.sums ≡ sum_by sum_count (drop n slots.now) }
{
    let mut texts = 0;
    let mut sums = 0;
    'slots: for i in n..slots.len() {
        let slot = slots.get(i);
        texts += text_count(slot);
        sums += sum_count(slot);
    }
    Counts { texts, sums }
}

fn text_count(slot: Slot) -> usize
    ensures { result ≡ text_count slot }
{
    match slot {
        Slot::Text(_) => 1,
        _ => 0,
    }
}

fn sum_count(slot: Slot) -> usize
    ensures { result ≡ sum_count slot }
{
    match slot {
        Slot::Huge(_) => 1,
        _ => 0,
    }
}
