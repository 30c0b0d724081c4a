//! Numbers, 64 at a time, with the word of their flags.
ghost use Rattle.std.specs.Prelude.{◌≡◌, ◌<◌, ◌≤◌, ◌+◌, ◌-◌, ◌*◌, ◌==◌, ◌++◌, length, min};
ghost use Rattle.std.specs.Int.{bit_at};
ghost use Rattle.dk_scans.specs.Selection.{in_word, in_words};

use crate::selection::Selection;
use dk_columns::mask::WORD_FLAGS;

/// At most 64 numbers, and their flags, the least bit first.
#[derive(Clone, Copy)]
pub struct Part<'a> {
    pub numbers: &'a [i64],
    pub word: u64,
}

/// The numbers from the k-th 64 on, and their flags.
pub fn part_at<'a>(numbers: &'a [i64], flags: &Selection<'_>, k: usize) -> Part<'a>
    requires same { length flags.now ≡ length numbers.now }
    requires within { 64 * k ≤ length numbers.now }
    ensures len { length result.numbers.now ≡ min 64 (length numbers.now - 64 * k) }
    ensures next { in_words (k + 1) flags.now numbers.now
        ≡ in_words k flags.now numbers.now ++ in_word result.word result.numbers.now }
{
    let start = WORD_FLAGS * k;
    let len = (numbers.len() - start).min(WORD_FLAGS);
    Part {
        numbers: &numbers[start..start + len],
        word: flags.word(k),
    }
}

/// Whether bit i of a word is set.
#[tactic(auto, using(crate::proofs::FoldLemmas::tested))]
pub fn is_set(word: u64, i: usize) -> bool
    requires { i < 64 }
    ensures { result ≡ (bit_at word i == 1) }
{
    (word >> i) & 1 == 1
}
