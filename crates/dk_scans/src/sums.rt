//! The sum of numbers, exact in 128 bits.
ghost use Rattle.std.specs.Prelude.{◌≡◌, ◌≤◌, ◌+ℤ◌, ◌≤ℤ◌, ◌*◌, ◌^◌, pos, neg_ℤ, length, fold};
ghost use Rattle.dk_scans.specs.Selection.{select, in_word, if_set};

use crate::parts::{is_set, part_at};
use crate::selection::Selection;
use dk_columns::mask::WORD_FLAGS;

/// The sum of the numbers whose flag is set.
#[tactic(auto, using(crate::proofs::FoldLemmas::all_words))]
pub fn sum(numbers: &[i64], flags: &Selection<'_>) -> i128
    requires { length flags.now ≡ length numbers.now }
    ensures { result ≡ fold ◌+ℤ◌ (pos 0) (select flags.now numbers.now) }
{
    let mut sum = 0i128;
    'words: for k in 0..numbers.len().div_ceil(WORD_FLAGS) {
        let part = part_at(numbers, flags, k);
        sum += sum_word(part.numbers, part.word);
    }
    sum
}

/// The number where its flag is set, else 0.
fn if_set(set: bool, number: i64) -> i64
    ensures { result ≡ if_set set number }
{
    if set { number } else { 0 }
}

/// The sum of all of at most 64 numbers.
fn sum_all(numbers: &[i64]) -> i128
    requires { length numbers.now ≤ 64 }
    ensures sum { result ≡ fold ◌+ℤ◌ (pos 0) numbers.now }
    ensures low { neg_ℤ (pos (2 ^ 63 * length numbers.now)) ≤ℤ result }
    ensures high { result ≤ℤ pos (2 ^ 63 * length numbers.now) }
{
    let mut sum = 0i128;
    'numbers: for number in numbers {
        sum += *number as i128;
    }
    sum
}

/// The sum of those of at most 64 numbers whose bit is set.
fn sum_word(numbers: &[i64], word: u64) -> i128
    requires { length numbers.now ≤ 64 }
    ensures sum { result ≡ fold ◌+ℤ◌ (pos 0) (in_word word numbers.now) }
    ensures low { neg_ℤ (pos (2 ^ 63 * length numbers.now)) ≤ℤ result }
    ensures high { result ≤ℤ pos (2 ^ 63 * length numbers.now) }
{
    if word == u64::MAX {
        return sum_all(numbers);
    }
    sum_bits(numbers, word)
}

/// The sum of those of at most 64 numbers whose bit is set, one after the other.
fn sum_bits(numbers: &[i64], word: u64) -> i128
    requires { length numbers.now ≤ 64 }
    ensures sum { result ≡ fold ◌+ℤ◌ (pos 0) (in_word word numbers.now) }
    ensures low { neg_ℤ (pos (2 ^ 63 * length numbers.now)) ≤ℤ result }
    ensures high { result ≤ℤ pos (2 ^ 63 * length numbers.now) }
{
    let mut sum = 0i128;
    'numbers: for i in 0..numbers.len() {
        sum += if_set(is_set(word, i), numbers[i]) as i128;
    }
    sum
}
