//! Numbers that may be missing.
ghost use Rattle.std.specs.Prelude.{◌≡◌, ◌<◌, ◌∷◌, ◌++◌, [], Some, length, map, is_some, slice_get, slice_set, take, replicate, OnOk, OnErr};
ghost use Rattle.dk_columns.specs.Options.{options, option_if, Stands, AllStand, number_or_zero};

use crate::mask::Mask;
use dk_values::{OutOfMemory, TryCopy};
use std::alloc::Global;
use std::marker::Model;

/// Numbers of 64 bits, each of which may be missing, seen as the list of these options. 0 is kept for a missing one.
#[derive(Debug, Drop)]
pub struct Numbers {
    numbers: Vec<i64>,
    present: Mask,
}

impl Model for Numbers {
    ghost use Rattle.std.specs.Prelude.{List, Option, ℤ};
    ghost use Rattle.dk_columns.specs.Options.{options, AllStand};

    ghost Value = { List (Option ℤ) };

    ghost view = { λ s. options s.present s.numbers.items };

    ghost invariant = { λ s. AllStand s.present s.numbers.items };
}

impl Numbers {
    /// No numbers. It takes no memory yet.
    pub fn new(alloc: Global) -> Numbers
        ensures { result ≡ [] }
    {
        Numbers {
            numbers: Vec::new(alloc),
            present: Mask::new(alloc),
        }
    }

    /// These numbers, none of them missing.
    #[tactic(auto, using(crate::proofs::OptionsLemmas::all_there, crate::proofs::OptionsLemmas::all_stand))]
    pub fn from_vec(numbers: Vec<i64>) -> Numbers
        ensures { result ≡ map Some numbers.items }
    {
        let present = Mask::all(*numbers.allocator(), numbers.len());
        Numbers { numbers, present }
    }

    pub fn len(&self) -> usize
        ensures { result ≡ length self.now }
    {
        self.present.len()
    }

    pub fn get(&self, i: usize) -> Option<i64>
        requires { i < length self.now }
        ensures { slice_get self.now i ≡ Some result }
    {
        number_if(self.present.get(i), self.numbers[i])
    }

    /// Lends the numbers, with 0 for each that is missing.
    pub fn numbers(&self) -> &[i64]
        ensures { result.now ≡ map number_or_zero self.now }
    {
        &self.numbers
    }

    /// Lends the flags of the numbers that are there.
    pub fn present(&self) -> &Mask
        ensures { result.now ≡ map is_some self.now }
    {
        &self.present
    }

    pub fn push(&mut self, number: Option<i64>) -> Result<(), OutOfMemory>
        ensures ok { OnOk result (self.new ≡ self.old ++ number ∷ []) }
        ensures err { OnErr result (self.new ≡ self.old) }
    {
        push_both(&mut self.numbers, &mut self.present, number)
    }

    /// Adds so many copies of a number, or of none, at the end.
    pub fn push_copies(&mut self, number: Option<i64>, count: usize) -> Result<(), OutOfMemory>
        ensures ok { OnOk result (self.new ≡ self.old ++ replicate count number) }
        ensures err { OnErr result (self.new ≡ self.old) }
    {
        push_both_copies(&mut self.numbers, &mut self.present, number, count)
    }

    /// Removes all numbers, and keeps their memory.
    pub fn clear(&mut self)
        ensures { self.new ≡ [] }
    {
        self.numbers.clear();
        self.present.clear();
    }

    /// Removes all numbers, and gives their memory away.
    pub fn take_buffer(&mut self) -> Vec<i64>
        ensures buffer { result.items ≡ [] }
        ensures numbers { self.new ≡ [] }
    {
        self.numbers.clear();
        self.present.clear();
        let alloc = *self.numbers.allocator();
        std::mem::replace(&mut self.numbers, Vec::new(alloc))
    }

    /// Puts a number, or none, in the place of the i-th.
    pub fn set(&mut self, i: usize, number: Option<i64>) -> Result<(), OutOfMemory>
        requires { i < length self.old }
        ensures ok { OnOk result (self.new ≡ slice_set self.old i number) }
        ensures err { OnErr result (self.new ≡ self.old) }
    {
        set_both(&mut self.numbers, &mut self.present, i, number)
    }

    /// Keeps the first n numbers.
    #[tactic(auto, using(crate::proofs::OptionsLemmas::options_front, crate::proofs::OptionsLemmas::stand_front))]
    pub fn truncate(&mut self, n: usize)
        ensures { self.new ≡ take n self.old }
    {
        self.numbers.truncate(n);
        self.present.truncate(n);
    }
}

impl TryCopy for Numbers {
    fn copy(&self) -> Result<Numbers, OutOfMemory> {
        let numbers = Vec::from_slice(*self.numbers.allocator(), &self.numbers)?;
        let present = self.present.copy()?;
        Ok(Numbers { numbers, present })
    }
}

/// The number, where its flag is set.
fn number_if(present: bool, number: i64) -> Option<i64>
    ensures { result ≡ option_if present number }
{
    if present { Some(number) } else { None }
}

/// What is kept for a number.
fn kept_number(number: Option<i64>) -> i64
    ensures again { option_if (is_some number) result ≡ number }
    ensures stands { Stands (is_some number) result }
{
    match number {
        None => 0,
        Some(number) => number,
    }
}

/// Adds a number and its flag, or neither.
fn push_both(
    numbers: &mut Vec<i64>,
    present: &mut Mask,
    number: Option<i64>,
) -> Result<(), OutOfMemory>
    requires { AllStand present.old numbers.old.items }
    ensures stand { AllStand present.new numbers.new.items }
    ensures ok { OnOk result (options present.new numbers.new.items
        ≡ options present.old numbers.old.items ++ number ∷ []) }
    ensures err { OnErr result (options present.new numbers.new.items ≡ options present.old numbers.old.items) }
{
    numbers.push(kept_number(number))?;
    match present.push(number.is_some()) {
        Ok(()) => Ok(()),
        Err(lack) => {
            let _ = numbers.pop();
            Err(lack)
        }
    }
}

/// Adds so many copies of a number and of its flag, or nothing.
fn push_both_copies(
    numbers: &mut Vec<i64>,
    present: &mut Mask,
    number: Option<i64>,
    count: usize,
) -> Result<(), OutOfMemory>
    requires { AllStand present.old numbers.old.items }
    ensures stand { AllStand present.new numbers.new.items }
    ensures ok { OnOk result (options present.new numbers.new.items
        ≡ options present.old numbers.old.items ++ replicate count number) }
    ensures err { OnErr result (options present.new numbers.new.items ≡ options present.old numbers.old.items) }
{
    let before = numbers.len();
    push_number_copies(numbers, kept_number(number), count)?;
    match present.push_copies(number.is_some(), count) {
        Ok(()) => Ok(()),
        Err(lack) => {
            numbers.truncate(before);
            Err(lack)
        }
    }
}

/// Adds so many copies of a number.
fn push_number_copies(numbers: &mut Vec<i64>, number: i64, count: usize) -> Result<(), OutOfMemory>
    ensures ok { OnOk result (numbers.new.items ≡ numbers.old.items ++ replicate count number) }
    ensures err { OnErr result (numbers.new.items ≡ numbers.old.items) }
{
    let Some(len) = numbers.len().checked_add(count) else {
        return Err(OutOfMemory);
    };
    numbers.resize(len, number)?;
    Ok(())
}

/// Puts a number and its flag in the place of the i-th, or neither.
fn set_both(
    numbers: &mut Vec<i64>,
    present: &mut Mask,
    i: usize,
    number: Option<i64>,
) -> Result<(), OutOfMemory>
    requires within { i < length present.old }
    requires stand { AllStand present.old numbers.old.items }
    ensures stand { AllStand present.new numbers.new.items }
    ensures ok { OnOk result (options present.new numbers.new.items
        ≡ slice_set (options present.old numbers.old.items) i number) }
    ensures err { OnErr result (options present.new numbers.new.items ≡ options present.old numbers.old.items) }
{
    present.set(i, number.is_some())?;
    numbers[i] = kept_number(number);
    Ok(())
}
