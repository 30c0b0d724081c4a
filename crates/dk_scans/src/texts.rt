//! The least or the greatest of texts.
ghost use Rattle.std.specs.Prelude.{◌≡◌, ◌<◌, cond, true, false, length, option_map, slice_index_or};
ghost use Rattle.dk_values.specs.declared.value.Value.TheVariants.{Null};
ghost use Rattle.dk_values.specs.declared.value.ColType.TheVariants.{Text};
ghost use Rattle.dk_columns.specs.Columns.{IsOfKind};
ghost use Rattle.dk_scans.specs.Extremes.{beats, better, extreme_of, text_less};
ghost use Rattle.dk_scans.specs.Selection.{text_if, texts};

use crate::extremes::Extreme;
use dk_columns::{Cells, Mask};
use dk_rows::Cell;

/// The least or the greatest of the texts of a column that are asked for and not null.
pub fn best_text<'a>(cells: &'a Cells, rows: &Mask, extreme: Extreme) -> Option<&'a [u8]>
    requires text { cells.now.kind ≡ Text }
    requires rows { length rows.now ≡ length cells.now.values }
    ensures { option_map (λ text. text.now) result
        ≡ extreme_of (beats text_less extreme) (texts rows.now cells.now.values) }
{
    let mut best = None;
    'rows: for i in 0..cells.len() {
        best = better(extreme, best, text_at(cells, rows, i));
    }
    best
}

/// The text of the i-th row, if it is asked for and not null.
fn text_at<'a>(cells: &'a Cells, rows: &Mask, i: usize) -> Option<&'a [u8]>
    requires within { i < length cells.now.values }
    requires rows { length rows.now ≡ length cells.now.values }
    requires kind { cells.now.kind ≡ Text }
    ensures text { option_map (λ text. text.now) result
        ≡ text_if (slice_index_or rows.now i false) (slice_index_or cells.now.values i Null) }
    ensures kind { slice_index_or rows.now i false ≡ true → IsOfKind Text (slice_index_or cells.now.values i Null) }
{
    if !rows.get(i) {
        return None;
    }
    match cells.get(i) {
        Cell::Text(text) => Some(text),
        _ => None,
    }
}

/// The one of two texts that goes before the other: of equal ones the first.
fn better<'a>(extreme: Extreme, best: Option<&'a [u8]>, text: Option<&'a [u8]>) -> Option<&'a [u8]>
    ensures { option_map (λ text. text.now) result ≡ better (beats text_less extreme)
        (option_map (λ text. text.now) best.entry) (option_map (λ text. text.now) text.entry) }
{
    match (best, text) {
        (None, text) => text,
        (best, None) => best,
        (Some(best), Some(text)) => Some(better_text(extreme, best, text)),
    }
}

/// The second of two texts where it goes before the first, else the first.
fn better_text<'a>(extreme: Extreme, best: &'a [u8], text: &'a [u8]) -> &'a [u8]
    ensures { result.now ≡ cond (beats text_less extreme text.now best.now) text.now best.now }
{
    if goes_before(extreme, text, best) {
        text
    } else {
        best
    }
}

/// Whether a text is less than another where the least is asked for, else whether it is greater.
fn goes_before(extreme: Extreme, text: &[u8], other: &[u8]) -> bool
    ensures { result ≡ beats text_less extreme text.now other.now }
{
    match extreme {
        Extreme::Least => text.cmp(&other).is_lt(),
        Extreme::Greatest => other.cmp(&text).is_lt(),
    }
}
