//! The choice of the smallest encoding.
ghost use Rattle.std.specs.Prelude.{◌≡◌, ◌↔◌, length, IsSome, IfSome};
ghost use Rattle.dk_segment.specs.Bodies.{Holds, body_of};
ghost use Rattle.dk_segment.specs.Choice.{IsBest, AreSizes, better, best_of};
ghost use Rattle.dk_segment.specs.Segment.{IsColumn};
ghost use Rattle.dk_bytes.specs.PlainValue.{present};

use crate::bodies::body_size;
use crate::encoding::Encoding;
use dk_values::{ColType, Value};

/// An encoding that holds the values, and the length of their body.
#[derive(Clone, Copy)]
pub(crate) struct Choice {
    pub(crate) encoding: Encoding,
    pub(crate) size: usize,
}

/// How long the body of each encoding is that holds the values. The plain one holds them all.
#[derive(Clone, Copy)]
pub(crate) struct Sizes {
    pub(crate) constant: Option<usize>,
    pub(crate) run_length: Option<usize>,
    pub(crate) packed: Option<usize>,
    pub(crate) dictionary: Option<usize>,
    pub(crate) plain: usize,
}

/// The encoding of least size for the values that are present, ties to the first.
pub fn analyse(values: &[Value], kind: ColType) -> Encoding
    requires { IsColumn kind values.now }
    ensures { IsBest kind (present values.now) result }
{
    best_for(values, kind, body_size(Encoding::Dictionary, values, kind))
}

/// The encoding of least size, where the length of a dictionary is known.
pub(crate) fn best_for(values: &[Value], kind: ColType, dictionary: Option<usize>) -> Encoding
    requires plain { Holds Encoding.Plain kind (present values.now) }
    requires held { IsSome dictionary ↔ Holds Encoding.Dictionary kind (present values.now) }
    requires length { IfSome dictionary (λ n. n ≡ length (body_of Encoding.Dictionary (present values.now))) }
    ensures { IsBest kind (present values.now) result }
{
    best(sizes_of(values, kind, dictionary))
}

/// The lengths of the bodies, where that of a dictionary is known.
fn sizes_of(values: &[Value], kind: ColType, dictionary: Option<usize>) -> Sizes
    requires plain { Holds Encoding.Plain kind (present values.now) }
    requires held { IsSome dictionary ↔ Holds Encoding.Dictionary kind (present values.now) }
    requires length { IfSome dictionary (λ n. n ≡ length (body_of Encoding.Dictionary (present values.now))) }
    ensures { AreSizes kind (present values.now) result }
{
    let Some(plain) = body_size(Encoding::Plain, values, kind) else {
        unreachable!();
    };
    Sizes {
        constant: body_size(Encoding::Constant, values, kind),
        run_length: body_size(Encoding::RunLength, values, kind),
        packed: body_size(Encoding::Packed, values, kind),
        dictionary,
        plain,
    }
}

/// The first encoding of least size.
pub(crate) fn best(sizes: Sizes) -> Encoding
    ensures { result ≡ best_of sizes }
{
    let plain = Choice {
        encoding: Encoding::Plain,
        size: sizes.plain,
    };
    let choice = better(plain, Encoding::Dictionary, sizes.dictionary);
    let choice = better(choice, Encoding::Packed, sizes.packed);
    let choice = better(choice, Encoding::RunLength, sizes.run_length);
    better(choice, Encoding::Constant, sizes.constant).encoding
}

/// Of a choice among the later encodings and one more, the one of less size; a tie goes to the one more.
fn better(choice: Choice, encoding: Encoding, size: Option<usize>) -> Choice
    ensures { result ≡ better choice encoding size }
{
    match size {
        Some(size) if size <= choice.size => Choice { encoding, size },
        _ => choice,
    }
}
