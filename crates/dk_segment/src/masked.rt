//! Truths or numbers with nulls among them: the flags of the values that are present, and the numbers of these.
ghost use Rattle.std.specs.Prelude.{◌≡◌, ◌++◌, map, length, IfOk, OnOk};
ghost use Rattle.dk_bytes.specs.PlainValue.{bit_byte};
ghost use Rattle.dk_segment.specs.Masked.{flagged, number_if, AreFlags, flags_bytes};

use crate::present::has;
use dk_bytes::{pack, put_u8, put_u32};
use dk_columns::Mask;
use dk_values::OutOfMemory;
use std::alloc::Global;

/// A number 1 for each flag that is set, and 0 for each other one.
pub(crate) fn flags_in(alloc: Global, present: &Mask) -> Result<Vec<u64>, OutOfMemory>
    ensures { IfOk result (λ flags. flags.items ≡ map bit_byte present.now) }
{
    let mut flags = Vec::with_capacity(alloc, present.len())?;
    'flags: for i in 0..present.len() {
        flags.push(bit_of(present.get(i)))?;
    }
    Ok(flags)
}

fn bit_of(set: bool) -> u64
    ensures { result ≡ bit_byte set }
{
    set as u64
}

/// The numbers whose flag is 1.
pub(crate) fn flagged(
    alloc: Global,
    flags: &[u64],
    numbers: &[i64],
) -> Result<Vec<i64>, OutOfMemory>
    requires { length flags.now ≡ length numbers.now }
    ensures { IfOk result (λ found. found.items ≡ flagged flags.now numbers.now) }
{
    let mut found = Vec::with_capacity(alloc, numbers.len())?;
    'numbers: for i in 0..numbers.len() {
        push_if(&mut found, flags[i], &numbers[i])?;
    }
    Ok(found)
}

/// Adds a number whose flag is 1.
fn push_if(found: &mut Vec<i64>, flag: u64, number: &i64) -> Result<(), OutOfMemory>
    ensures { OnOk result (found.new.items ≡ found.old.items ++ number_if flag number.now) }
{
    if flag == 1 {
        found.push(*number)?;
    }
    Ok(())
}

/// Appends whether a mask follows, the number of values, and the mask where a null is among them.
pub(crate) fn put_flags(out: &mut Vec<u8>, flags: &[u64]) -> Result<(), OutOfMemory>
    requires { AreFlags flags.now }
    ensures { OnOk result (out.new.items ≡ out.old.items ++ flags_bytes flags.now) }
{
    let masked = has(flags, 0);
    put_u8(out, masked as u8)?;
    put_u32(out, flags.len() as u32)?;
    if masked {
        pack(out, 1, flags)?;
    }
    Ok(())
}
