//! The five encodings, and the bytes that name them.
ghost use Rattle.std.specs.Prelude.{◌≡◌, Option, Some, None};
ghost use Rattle.dk_segment.specs.Bodies.{code_of, encoding_of, goes_with};

use dk_values::ColType;

/// How the present values of a segment are written. Of two encodings of one size the first is taken.
#[derive(Clone, Copy, Debug, PartialEq, Eq)]
pub enum Encoding {
    Constant,
    RunLength,
    Packed,
    Dictionary,
    Plain,
}

/// The byte that names the encoding.
pub(crate) fn code_of(encoding: Encoding) -> u8
    ensures { result ≡ code_of encoding }
{
    match encoding {
        Encoding::Plain => 0,
        Encoding::Constant => 1,
        Encoding::RunLength => 2,
        Encoding::Packed => 3,
        Encoding::Dictionary => 4,
    }
}

fn goes_with(encoding: Encoding, kind: ColType) -> bool
    ensures { result ≡ goes_with encoding kind }
{
    match (encoding, kind) {
        (Encoding::Packed, ColType::Text) => false,
        (Encoding::Dictionary, ColType::Text) => true,
        (Encoding::Dictionary, _) => false,
        _ => true,
    }
}

/// The encoding that the byte names, if the type has it.
pub(crate) fn encoding_of(kind: ColType, code: u8) -> Option<Encoding>
    ensures { result ≡ encoding_of kind code }
{
    let encoding = match code {
        0 => Encoding::Plain,
        1 => Encoding::Constant,
        2 => Encoding::RunLength,
        3 => Encoding::Packed,
        4 => Encoding::Dictionary,
        _ => return None,
    };
    if goes_with(encoding, kind) {
        Some(encoding)
    } else {
        None
    }
}
