//! The least or the greatest of numbers: one fold for both, over keys.
ghost use Rattle.std.specs.Prelude.{◌≡◌, ◌≤◌, ◌∷◌, [], int_lt, length, fold};
ghost use Rattle.dk_scans.specs.Extremes.{beats, extreme_of, first, number_key, lower_key};
ghost use Rattle.dk_scans.specs.Selection.{select, in_word};

use crate::parts::{is_set, part_at};
use crate::selection::Selection;
use dk_columns::mask::WORD_FLAGS;

/// Which value of many is asked for.
#[derive(Clone, Copy, Debug, PartialEq, Eq)]
pub enum Extreme {
    Least,
    Greatest,
}

/// The least or the greatest of the numbers whose flag is set.
pub fn best_number(numbers: &[i64], flags: &Selection<'_>, extreme: Extreme) -> Option<i64>
    requires { length flags.now ≡ length numbers.now }
    ensures { result ≡ extreme_of (beats int_lt extreme) (select flags.now numbers.now) }
{
    let first = first_number(numbers, flags)?;
    let lowest = lowest_key(numbers, flags, extreme, key(extreme, first));
    Some(key(extreme, lowest))
}

/// The first of the numbers whose flag is set.
fn first_number(numbers: &[i64], flags: &Selection<'_>) -> Option<i64>
    requires { length flags.now ≡ length numbers.now }
    ensures { result ≡ first (select flags.now numbers.now) }
{
    'numbers: for i in 0..numbers.len() {
        if flags.get(i) {
            return Some(numbers[i]);
        }
    }
    None
}

/// A number that is the lower, the nearer a number is to the extreme. The key of a key is the number again.
fn key(extreme: Extreme, number: i64) -> i64
    ensures { result ≡ number_key extreme number }
{
    match extreme {
        Extreme::Least => number,
        Extreme::Greatest => -1 - number,
    }
}

/// The lower of a key and the key of a number.
fn lower_key(extreme: Extreme, lowest: i64, number: i64) -> i64
    ensures { result ≡ lower_key extreme lowest number }
{
    lowest.min(key(extreme, number))
}

/// The lower of a key and the key of a number, where its flag is set.
fn lower_if(extreme: Extreme, lowest: i64, set: bool, number: i64) -> i64
    ensures { result ≡ fold (lower_key extreme) lowest (select (set ∷ []) (number ∷ [])) }
{
    if set {
        lower_key(extreme, lowest, number)
    } else {
        lowest
    }
}

/// The least of a key and those of the numbers whose flag is set.
#[tactic(auto, using(crate::proofs::FoldLemmas::all_words))]
fn lowest_key(numbers: &[i64], flags: &Selection<'_>, extreme: Extreme, first: i64) -> i64
    requires { length flags.now ≡ length numbers.now }
    ensures { result ≡ fold (lower_key extreme) first (select flags.now numbers.now) }
{
    let mut lowest = first;
    'words: for k in 0..numbers.len().div_ceil(WORD_FLAGS) {
        let part = part_at(numbers, flags, k);
        lowest = lowest_in_word(extreme, lowest, part.numbers, part.word);
    }
    lowest
}

/// The least of a key and those of the numbers, of at most 64, whose bit is set.
fn lowest_in_word(extreme: Extreme, first: i64, numbers: &[i64], word: u64) -> i64
    requires { length numbers.now ≤ 64 }
    ensures { result ≡ fold (lower_key extreme) first (in_word word numbers.now) }
{
    if word == u64::MAX {
        return lowest_of(extreme, first, numbers);
    }
    let mut lowest = first;
    'numbers: for i in 0..numbers.len() {
        lowest = lower_if(extreme, lowest, is_set(word, i), numbers[i]);
    }
    lowest
}

/// The least of a key and those of numbers.
fn lowest_of(extreme: Extreme, first: i64, numbers: &[i64]) -> i64
    ensures { result ≡ fold (lower_key extreme) first numbers.now }
{
    let mut lowest = first;
    'numbers: for number in numbers {
        lowest = lower_key(extreme, lowest, *number);
    }
    lowest
}
