//! The body of each encoding: its length, how it is appended, and how it is read.
ghost use Rattle.std.specs.Prelude.{◌≡◌, ◌++◌, ◌↔◌, ◌≤◌, ℕ, [], length, IsSome, IfErr, IfSome, OnOk};
ghost use Rattle.dk_bytes.specs.PlainValue.{present};
ghost use Rattle.dk_bytes.specs.Reading.{Gives};
ghost use Rattle.dk_bytes.specs.declared.field_error.FieldError.TheVariants.{Malformed};
ghost use Rattle.dk_segment.specs.Bodies.{Holds, body_of, body_at};

use crate::encoding::Encoding;
use dk_bytes::SegError;
use dk_columns::Cells;
use dk_seg_body::Body;
use dk_seg_pack::packed::Packed;
use dk_seg_run::constant::Constant;
use dk_seg_run::run_length::RunLength;
use dk_seg_text::dictionary::Dictionary;
use dk_seg_text::plain::Plain;
use dk_values::{ColType, OutOfMemory, Value};
use std::alloc::Global;

/// How long the body of the present values is, if the encoding can hold them.
pub(crate) fn body_size(encoding: Encoding, values: &[Value], kind: ColType) -> Option<usize>
    ensures held { IsSome result ↔ Holds encoding kind (present values.now) }
    ensures length { IfSome result (λ n. n ≡ length (body_of encoding (present values.now))) }
{
    match encoding {
        Encoding::Constant => Constant::size(values, kind),
        Encoding::RunLength => RunLength::size(values, kind),
        Encoding::Packed => Packed::size(values, kind),
        Encoding::Dictionary => Dictionary::size(values, kind),
        Encoding::Plain => Plain::size(values, kind),
    }
}

/// Appends the body of the present values.
pub(crate) fn put_body(
    encoding: Encoding,
    values: &[Value],
    kind: ColType,
    out: &mut Vec<u8>,
) -> Result<(), OutOfMemory>
    requires { Holds encoding kind (present values.now) }
    ensures { OnOk result (out.new.items ≡ out.old.items ++ body_of encoding (present values.now)) }
{
    match encoding {
        Encoding::Constant => Constant::encode(values, kind, out),
        Encoding::RunLength => RunLength::encode(values, kind, out),
        Encoding::Packed => Packed::encode(values, kind, out),
        Encoding::Dictionary => Dictionary::encode(values, kind, out),
        Encoding::Plain => Plain::encode(values, kind, out),
    }
}

/// Fills a column that has no values with the present values that a body stands for; a fault stands at most at the
/// body's end.
#[tactic(auto, using(crate::proofs::BodyLemmas::place_within))]
pub(crate) fn read_body(
    alloc: Global,
    encoding: Encoding,
    bytes: &[u8],
    count: usize,
    cells: &mut Cells,
) -> Result<(), SegError>
    requires { cells.old.values ≡ [] }
    ensures kind { cells.new.kind ≡ cells.old.kind }
    ensures place { Gives (λ _. cells.new.values) result (body_at encoding cells.old.kind count bytes.now) }
    ensures within { IfErr result (λ e. (at : ℕ) → e ≡ Malformed at → at ≤ length bytes.now) }
{
    read(alloc, encoding, bytes, count, cells)
}

fn read(
    alloc: Global,
    encoding: Encoding,
    bytes: &[u8],
    count: usize,
    cells: &mut Cells,
) -> Result<(), SegError>
    requires { cells.old.values ≡ [] }
    ensures kind { cells.new.kind ≡ cells.old.kind }
    ensures place { Gives (λ _. cells.new.values) result (body_at encoding cells.old.kind count bytes.now) }
{
    match encoding {
        Encoding::Constant => Constant::read(alloc, bytes, count, cells),
        Encoding::RunLength => RunLength::read(alloc, bytes, count, cells),
        Encoding::Packed => Packed::read(alloc, bytes, count, cells),
        Encoding::Dictionary => Dictionary::read(alloc, bytes, count, cells),
        Encoding::Plain => Plain::read(alloc, bytes, count, cells),
    }
}
