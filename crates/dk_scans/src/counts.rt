//! How many flags are set.
ghost use Rattle.std.specs.Prelude.{◌≡◌, ◌≤◌, ◌%◌, ◌^◌, length};
ghost use Rattle.dk_scans.specs.Selection.{bits, set_flags};

use crate::selection::Selection;
use dk_columns::mask::WORD_FLAGS;

/// How many flags are set.
#[tactic(auto, using(crate::proofs::FoldLemmas::all_words))]
pub fn count(flags: &Selection<'_>) -> usize
    ensures { result ≡ length (set_flags flags.now) }
{
    let mut count = 0;
    'words: for k in 0..flags.len().div_ceil(WORD_FLAGS) {
        count += set_bits(
            flags.word(k),
            (flags.len() - WORD_FLAGS * k).min(WORD_FLAGS),
        );
    }
    count
}

/// How many of the first n bits of a word are set.
fn set_bits(word: u64, n: usize) -> usize
    requires { n ≤ 64 }
    ensures set { result ≡ length (set_flags (bits n word)) }
    ensures most { result ≤ n }
{
    first_bits(word, n).count_ones() as usize
}

/// The first n bits of a word.
#[tactic(auto, using(crate::proofs::CountLemmas::cut, crate::proofs::CountLemmas::uncut))]
fn first_bits(word: u64, n: usize) -> u64
    requires { n ≤ 64 }
    ensures { result ≡ word % 2 ^ n }
{
    if n == WORD_FLAGS {
        return word;
    }
    word & ((1 << n) - 1)
}
