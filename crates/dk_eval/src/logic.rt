//! Logic of three values by Kleene: what is not known is none.
ghost use Rattle.std.specs.Prelude.{◌≡◌, not, option_map};
ghost use Rattle.dk_eval.specs.Values.{and_of, or_of};

/// False where one side is, and true where both are.
pub fn and_of(left: Option<bool>, right: Option<bool>) -> Option<bool>
    ensures { result ≡ and_of left right }
{
    match left {
        Some(false) => Some(false),
        Some(true) => right,
        None => match right {
            Some(false) => Some(false),
            _ => None,
        },
    }
}

/// True where one side is, and false where both are.
pub fn or_of(left: Option<bool>, right: Option<bool>) -> Option<bool>
    ensures { result ≡ or_of left right }
{
    match left {
        Some(true) => Some(true),
        Some(false) => right,
        None => match right {
            Some(true) => Some(true),
            _ => None,
        },
    }
}

pub fn not_of(truth: Option<bool>) -> Option<bool>
    ensures { result ≡ option_map not truth }
{
    match truth {
        None => None,
        Some(truth) => Some(!truth),
    }
}
