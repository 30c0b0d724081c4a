//! The plain bytes of numbers that stand for values.
ghost use Rattle.std.specs.Prelude.{◌≡◌, ◌++◌, OnOk, OnErr};
ghost use Rattle.dk_bytes.specs.PlainValue.{plain_bytes};
ghost use Rattle.dk_seg_body.specs.Numbers.{StandsFor, value_for, number_len};

use dk_bytes::{put_u8, put_u32, put_u64};
use dk_values::{ColType, OutOfMemory};

/// How many bytes each value of a type of truth or numbers has.
pub fn number_len(kind: ColType) -> usize
    ensures { result ≡ number_len kind }
{
    match kind {
        ColType::Bool => 1,
        ColType::Int => 4,
        ColType::Big => 8,
        ColType::Text => 0,
    }
}

/// Appends the plain bytes of the value that a number stands for.
pub fn put_number(out: &mut Vec<u8>, number: i64, kind: ColType) -> Result<(), OutOfMemory>
    requires { StandsFor kind number }
    ensures ok { OnOk result (out.new.items ≡ out.old.items ++ plain_bytes (value_for kind number)) }
    ensures err { OnErr result (out.new.items ≡ out.old.items) }
{
    match kind {
        ColType::Bool => put_u8(out, (number == 1) as u8),
        ColType::Int => put_u32(out, (number as i32).cast_unsigned()),
        ColType::Big => put_u64(out, number.cast_unsigned()),
        ColType::Text => unreachable!(),
    }
}
