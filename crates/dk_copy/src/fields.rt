//! The value of a field in a column.
ghost use Rattle.std.specs.Prelude.{◌≡◌, option_map};
ghost use Rattle.dk_rows.specs.Cells.{value_of};
ghost use Rattle.dk_copy.specs.Fields.{truth_in, is_text, content_value, field_value};

use crate::numbers::number_in;
use dk_rows::Cell;
use dk_values::{ColType, is_utf8};

/// How many bytes a text of a VARCHAR may have.
const MAX_TEXT: usize = 65_535;

/// The most that an INTEGER and a BIGINT hold.
const MAX_INTEGER: u64 = 0x7FFF_FFFF;

const MAX_BIGINT: u64 = 0x7FFF_FFFF_FFFF_FFFF;

fn truth_in(bytes: &[u8]) -> Option<bool>
    ensures { result ≡ truth_in bytes.now }
{
    if bytes.eq_ignore_ascii_case(b"true") {
        Some(true)
    } else if bytes.eq_ignore_ascii_case(b"false") {
        Some(false)
    } else {
        None
    }
}

fn is_text(bytes: &[u8]) -> bool
    ensures { result ≡ is_text bytes.now }
{
    bytes.len() <= MAX_TEXT && is_utf8(bytes)
}

/// The value of a field that isn't empty.
fn content_cell(kind: ColType, bytes: &[u8]) -> Option<Cell<'_>>
    ensures { option_map value_of result ≡ content_value kind bytes.now }
{
    match kind {
        ColType::Bool => match truth_in(bytes) {
            Some(truth) => Some(Cell::Bool(truth)),
            None => None,
        },
        ColType::Int => match number_in(MAX_INTEGER, bytes) {
            Some(number) => Some(Cell::Int(number as i32)),
            None => None,
        },
        ColType::Big => match number_in(MAX_BIGINT, bytes) {
            Some(number) => Some(Cell::Big(number)),
            None => None,
        },
        ColType::Text if is_text(bytes) => Some(Cell::Text(bytes)),
        ColType::Text => None,
    }
}

/// The value of a field in a column of a type, if it has one. A text is lent.
pub fn field_cell(kind: ColType, bytes: &[u8]) -> Option<Cell<'_>>
    ensures { option_map value_of result ≡ field_value kind bytes.now }
{
    if bytes.is_empty() {
        return Some(Cell::Null);
    }
    content_cell(kind, bytes)
}
