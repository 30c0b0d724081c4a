//! Fields of numbers, appended with their least byte first.
ghost use Rattle.std.specs.Prelude.{◌≡◌, [], ◌∷◌, ◌++◌, take, OnOk, OnErr};
ghost use Rattle.std.specs.Int.{w16, w32, w64, to_le_bytes};

use std::alloc::AllocError as OutOfMemory;

/// Appends one byte.
pub fn put_u8(out: &mut Vec<u8>, v: u8) -> Result<(), OutOfMemory>
    ensures ok { OnOk result (out.new.items ≡ out.old.items ++ v ∷ []) }
    ensures err { OnErr result (out.new.items ≡ out.old.items) }
{
    out.push(v)?;
    Ok(())
}

/// Appends two bytes.
pub fn put_u16(out: &mut Vec<u8>, v: u16) -> Result<(), OutOfMemory>
    ensures ok { OnOk result (out.new.items ≡ out.old.items ++ to_le_bytes w16 v) }
    ensures err { OnErr result (out.new.items ≡ out.old.items) }
{
    out.extend_from_slice(&v.to_le_bytes())
}

/// Appends four bytes.
pub fn put_u32(out: &mut Vec<u8>, v: u32) -> Result<(), OutOfMemory>
    ensures ok { OnOk result (out.new.items ≡ out.old.items ++ to_le_bytes w32 v) }
    ensures err { OnErr result (out.new.items ≡ out.old.items) }
{
    out.extend_from_slice(&v.to_le_bytes())
}

/// Appends eight bytes.
pub fn put_u64(out: &mut Vec<u8>, v: u64) -> Result<(), OutOfMemory>
    ensures ok { OnOk result (out.new.items ≡ out.old.items ++ to_le_bytes w64 v) }
    ensures err { OnErr result (out.new.items ≡ out.old.items) }
{
    out.extend_from_slice(&v.to_le_bytes())
}

/// Leaves what was put behind the first `start` bytes if all of it was, and takes it back if memory was missing.
pub fn cut_if_failed(
    out: &mut Vec<u8>,
    start: usize,
    put: Result<(), OutOfMemory>,
) -> Result<(), OutOfMemory>
    ensures same { result ≡ put }
    ensures ok { OnOk result (out.new.items ≡ out.old.items) }
    ensures err { OnErr result (out.new.items ≡ take start out.old.items) }
{
    if put.is_err() {
        out.truncate(start);
    }
    put
}
