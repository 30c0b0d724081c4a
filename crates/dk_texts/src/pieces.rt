//! Bytes, and numbers in decimal.
ghost use Rattle.std.specs.Prelude.{◌≡◌, ◌++◌, decimal, OnOk, OnErr};

use dk_types::OutOfMemory;
use itoa::{Buffer, Integer};

/// Puts bytes at the end.
pub fn put(out: &mut Vec<u8>, bytes: &[u8]) -> Result<(), OutOfMemory>
    ensures ok { OnOk result (out.new.items ≡ out.old.items ++ bytes.now) }
    ensures err { OnErr result (out.new.items ≡ out.old.items) }
{
    out.extend_from_slice(bytes)
}

/// Puts a number at the end, in decimal.
pub fn put_number<I: Integer>(out: &mut Vec<u8>, number: I) -> Result<(), OutOfMemory>
    ensures ok { OnOk result (out.new.items ≡ out.old.items ++ I.text number) }
    ensures err { OnErr result (out.new.items ≡ out.old.items) }
{
    let mut digits = Buffer::new();
    out.extend_from_slice(digits.format(number).as_bytes())
}

/// Puts words and a number at the end.
pub fn put_counted(out: &mut Vec<u8>, words: &[u8], number: u64) -> Result<(), OutOfMemory>
    ensures ok { OnOk result (out.new.items ≡ out.old.items ++ (words.now ++ decimal number)) }
{
    put(out, words)?;
    put_number(out, number)
}
