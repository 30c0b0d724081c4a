//! Encodings of the values of a segment.
ghost use Rattle.std.specs.Prelude.{◌≡◌, ◌++◌, ◌↔◌, ◌⊎◌, ℕ, List, [], Result, Ok, Err, length, IsSome, IfSome, IfOk, IfErr, OnOk, OnErr};
ghost use Rattle.dk_values.specs.declared.value.Value.{Value};
ghost use Rattle.dk_values.specs.declared.value.ColType.{ColType};
ghost use Rattle.dk_bytes.specs.PlainValue.{present};
ghost use Rattle.dk_bytes.specs.Reading.{Gives};
ghost use Rattle.dk_seg_body.specs.Grammar.{Grammar, ReadsAs};
ghost use Rattle.dk_bytes.specs.declared.field_error.FieldError.TheVariants as fault;

use dk_bytes::SegError;
use dk_columns::Cells;
use dk_values::{ColType, OutOfMemory, Value};
use std::alloc::Global;

/// An encoding of values that are not null. Nulls among the values that are given are passed over.
pub trait Body {
    /// Which values it holds, and which bytes stand for them.
    ghost grammar: { Grammar };

    /// How long the body of these values is, if the encoding holds them.
    fn size(values: &[Value], kind: ColType) -> Option<usize>
        ensures held { IsSome result ↔ grammar.Is kind (present values.now) }
        ensures length { IfSome result (λ n. n ≡ length (grammar.spell (present values.now))) };

    /// Appends the body.
    fn encode(values: &[Value], kind: ColType, out: &mut Vec<u8>) -> Result<(), OutOfMemory>
        requires { grammar.Is kind (present values.now) }
        ensures ok { OnOk result (out.new.items ≡ out.old.items ++ grammar.spell (present values.now)) }
        ensures err { OnErr result (out.new.items ≡ out.old.items) };

    /// Fills a column that has no values with so many that the bytes stand for, up to their first fault. Where it fails
    /// the column may have some of them.
    fn fill(alloc: Global, bytes: &[u8], count: usize, cells: &mut Cells) -> Result<(), SegError>
        requires { cells.old.values ≡ [] }
        ensures kind { cells.new.kind ≡ cells.old.kind }
        ensures values { Gives (λ _. cells.new.values) result (grammar.at cells.old.kind count bytes.now) };

    /// The same, and so just what is a body of so many values is read.
    fn read(alloc: Global, bytes: &[u8], count: usize, cells: &mut Cells) -> Result<(), SegError>
        requires { cells.old.values ≡ [] }
        ensures kind { cells.new.kind ≡ cells.old.kind }
        ensures values { ReadsAs grammar cells.old.kind count bytes.now (λ _. cells.new.values) result };
}

/// The `count` values that a body stands for, as a list.
pub fn decode<B: Body>(
    alloc: Global,
    bytes: &[u8],
    kind: ColType,
    count: usize,
) -> Result<Vec<Value>, SegError>
    ensures { ReadsAs B.grammar kind count bytes.now (λ v. v.items) result }
{
    let mut cells = Cells::new(alloc, kind);
    let read = B::read(alloc, bytes, count, &mut cells);
    values_if_read(alloc, read, &cells)
}

/// The values of a column that was read, or the error.
fn values_if_read(
    alloc: Global,
    read: Result<(), SegError>,
    cells: &Cells,
) -> Result<Vec<Value>, SegError>
    ensures values { IfOk result (λ v. (read ≡ Ok tt) × (v.items ≡ cells.now.values)) }
    ensures err { IfErr result (λ e. (e ≡ fault.OutOfMemory) ⊎ (read ≡ Err e)) }
{
    read?;
    Ok(cells.to_values(alloc)?.into_vec())
}
