//! Scans of a column over rows that are asked for.
ghost use Rattle.std.specs.Prelude.{◌≡◌, ◌+ℤ◌, pos, int_lt, length, fold, option_map};
ghost use Rattle.dk_values.specs.declared.value.ColType.TheVariants.{Text};
ghost use Rattle.dk_columns.specs.Stored.{IsNumeric};
ghost use Rattle.dk_scans.specs.Extremes.{beats, extreme_of, text_less, IsExtreme};
ghost use Rattle.dk_scans.specs.Selection.{numbers, present_values, texts};

use crate::extremes::Extreme;
use crate::selection::Selection;
use crate::{counts, extremes, sums, texts};
use dk_columns::{Cells, Mask};

/// How many of the values that are asked for are not null, in a column of any type.
pub fn count(cells: &Cells, rows: &Mask) -> usize
    requires { length rows.now ≡ length cells.now.values }
    ensures { result ≡ length (present_values rows.now cells.now.values) }
{
    counts::count(&Selection::new(rows, cells.present()))
}

/// The sum of the numbers that are asked for and not null. It is exact: 128 bits hold any sum of 2^64 numbers.
pub fn sum(cells: &Cells, rows: &Mask) -> i128
    requires numeric { IsNumeric cells.now.kind }
    requires rows { length rows.now ≡ length cells.now.values }
    ensures { result ≡ fold ◌+ℤ◌ (pos 0) (numbers rows.now cells.now.values) }
{
    let Some(numbers) = cells.numbers() else {
        return 0;
    };
    sums::sum(numbers, &Selection::new(rows, cells.present()))
}

/// The least or the greatest of the numbers that are asked for and not null. False is 0 and true is 1.
pub fn extreme_number(cells: &Cells, rows: &Mask, extreme: Extreme) -> Option<i64>
    requires numeric { IsNumeric cells.now.kind }
    requires rows { length rows.now ≡ length cells.now.values }
    ensures fold { result ≡ extreme_of (beats int_lt extreme) (numbers rows.now cells.now.values) }
    ensures extreme { IsExtreme (beats int_lt extreme) (numbers rows.now cells.now.values) result }
{
    let numbers = cells.numbers()?;
    extremes::best_number(numbers, &Selection::new(rows, cells.present()), extreme)
}

/// The least or the greatest of the texts that are asked for and not null, by their bytes.
pub fn extreme_text<'a>(cells: &'a Cells, rows: &Mask, extreme: Extreme) -> Option<&'a [u8]>
    requires text { cells.now.kind ≡ Text }
    requires rows { length rows.now ≡ length cells.now.values }
    ensures fold { option_map (λ text. text.now) result
        ≡ extreme_of (beats text_less extreme) (texts rows.now cells.now.values) }
    ensures extreme { IsExtreme (beats text_less extreme) (texts rows.now cells.now.values)
        (option_map (λ text. text.now) result) }
{
    texts::best_text(cells, rows, extreme)
}
