//! Bytes written over others.
ghost use Rattle.std.specs.Prelude.{◌≡◌, ◌+◌, ◌≤◌, ◌++◌, length, take, drop, vec_len, OnOk, OnErr};
ghost use Rattle.dk_device.specs.Disk.{overlay};

use std::alloc::AllocError as OutOfMemory;

fn put_over(target: &mut [u8], at: usize, bytes: &[u8])
    requires { at + length bytes.now ≤ length target.old }
    ensures { target.new ≡ take at target.old ++ bytes.now ++ drop (at + length bytes.now)
        target.old }
{
    let (_, rest) = target.split_at_mut(at);
    let (place, _) = rest.split_at_mut(bytes.len());
    place.copy_from_slice(bytes);
}

/// Writes the bytes over those at a place within, and past the end.
fn overwrite_within(content: &mut Vec<u8>, at: usize, bytes: &[u8]) -> Result<(), OutOfMemory>
    requires { at ≤ vec_len content.old }
    ensures ok { OnOk result (content.new.items ≡ overlay at bytes.now content.old.items) }
    ensures err { OnErr result (content.new.items ≡ content.old.items) }
{
    let inside = bytes.len().min(content.len() - at);
    let (over, past) = bytes.split_at(inside);
    content.extend_from_slice(past)?;
    put_over(content.as_mut_slice(), at, over);
    Ok(())
}

/// Writes the bytes over those at a place, or at the end where the place is past it.
#[tactic(auto, using(crate::proofs::OverlayLemmas::overlaid_min))]
pub(crate) fn overwrite(content: &mut Vec<u8>, at: usize, bytes: &[u8]) -> Result<(), OutOfMemory>
    ensures ok { OnOk result (content.new.items ≡ overlay at bytes.now content.old.items) }
    ensures err { OnErr result (content.new.items ≡ content.old.items) }
{
    let within = at.min(content.len());
    overwrite_within(content, within, bytes)
}
