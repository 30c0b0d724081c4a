//! The checksum of a byte string.
ghost use Rattle.std.specs.Prelude.{◌≡◌, ℕ, List};
ghost use Rattle.std.specs.Int.{w64, from_le_bytes};
ghost use Rattle.dk_bytes.specs.Checksum.{with_word, with_bytes, checksum_of, DifferInOneWord};

use crate::word::{last_word, word_of};

/// The odd number that a word is multiplied by: 2^64 over the golden ratio.
const MULTIPLIER: u64 = 0x9E37_79B9_7F4A_7C15;

/// The sum before the first word.
const SEED: u64 = 5381;

/// How far the higher bits of a product are folded down.
const SPREAD: u32 = 29;

/// The sum with one more word folded in.
fn fold_word(sum: u64, word: u64) -> u64
    ensures { result ≡ with_word sum word }
{
    let mixed = (sum ^ word).wrapping_mul(MULTIPLIER);
    mixed ^ (mixed >> SPREAD)
}

/// The sum with the words of these bytes folded in.
#[tactic(auto, using(crate::proofs::WordLemmas::fold_first, crate::proofs::WordLemmas::fold_last, crate::proofs::WordLemmas::fold_none))]
fn fold_bytes(start: u64, bytes: &[u8]) -> u64
    ensures { result ≡ with_bytes start bytes.now }
{
    let mut sum = start;
    let mut rest = bytes;
    'words: while rest.len() >= 8 {
        sum = fold_word(sum, word_of(rest));
        let (_, after) = rest.split_at(8);
        rest = after;
    }
    if rest.is_empty() {
        sum
    } else {
        fold_word(sum, last_word(rest))
    }
}

/// The checksum of a byte string: a fold over its words of 8 bytes, the last one filled with zeros, and then over its
/// length. Another word in place of one of them, or of a bit of one, changes it.
pub fn checksum(bytes: &[u8]) -> u64
    ensures fold { result ≡ checksum_of bytes.now }
    ensures tells { (other : List ℕ) → DifferInOneWord bytes.now other → checksum_of other ≡ result → ⊥ }
{
    folded(bytes)
}

/// The fold that `checksum` answers.
fn folded(bytes: &[u8]) -> u64
    ensures { result ≡ checksum_of bytes.now }
{
    fold_word(fold_bytes(SEED, bytes), bytes.len() as u64)
}
