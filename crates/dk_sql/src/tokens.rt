//! Blanks, words, numbers, texts and signs. Each reader takes one from the front, and hands on the rest.
ghost use Rattle.std.specs.Prelude.{◌≡◌, ◌<◌, ◌≤◌, ◌^◌, ◌∷◌, ◌++◌, ℕ, List, length, map, IfOk, IfSome, IfNone, option_map, Ok, false};
ghost use Rattle.std.specs.List.{prefix_len, list_any};
ghost use Rattle.std.specs.Char.{to_ascii_lowercase};
ghost use Rattle.dk_sql.specs.Readers.{Gives};
ghost use Rattle.dk_sql.specs.Tokens.{is_blank, is_digit, begins_word, continues_word, is_inside, begins, unblank, bytes_left, word_len, word_in, word_at, is_same_word, keyword_after, keyword_at, is_reserved, name_at, mark_in, mark_after, mark_at, value_from, number_at, piece_len, behind_text, single, text_at, place_at};

use crate::fault::Stop;
use dk_values::{Bytes, List, OutOfMemory, is_name, is_utf8};
use std::alloc::Global;

/// The words of the grammar, also those of statements that come later. None of them is a name.
const RESERVED: [&[u8]; 38] = [
    b"and",
    b"asc",
    b"begin",
    b"bigint",
    b"boolean",
    b"by",
    b"checkpoint",
    b"commit",
    b"copy",
    b"count",
    b"create",
    b"delete",
    b"desc",
    b"false",
    b"from",
    b"group",
    b"insert",
    b"integer",
    b"into",
    b"is",
    b"limit",
    b"max",
    b"min",
    b"not",
    b"null",
    b"or",
    b"order",
    b"rollback",
    b"select",
    b"set",
    b"stdin",
    b"sum",
    b"table",
    b"true",
    b"update",
    b"values",
    b"varchar",
    b"where",
];

fn is_blank(byte: u8) -> bool
    ensures { result ≡ is_blank byte }
{
    byte == b' ' || byte == b'\t'
}

fn is_digit(byte: u8) -> bool
    ensures { result ≡ is_digit byte }
{
    b'0' <= byte && byte <= b'9'
}

fn begins_word(byte: u8) -> bool
    ensures { result ≡ begins_word byte }
{
    (b'A' <= byte && byte <= b'Z') || (b'a' <= byte && byte <= b'z') || byte == b'_'
}

fn continues_word(byte: u8) -> bool
    ensures { result ≡ continues_word byte }
{
    begins_word(byte) || is_digit(byte)
}

fn is_inside(byte: u8) -> bool
    ensures { result ≡ is_inside byte }
{
    byte != b'\''
}

fn leading_blanks(text: &[u8]) -> usize
    ensures len { result ≡ prefix_len is_blank text.now }
    ensures within { result ≤ length text.now }
{
    text.iter().take_while(|b| is_blank(**b)).count()
}

fn leading_digits(text: &[u8]) -> usize
    ensures len { result ≡ prefix_len is_digit text.now }
    ensures within { result ≤ length text.now }
{
    text.iter().take_while(|b| is_digit(**b)).count()
}

fn leading_word_bytes(text: &[u8]) -> usize
    ensures len { result ≡ prefix_len continues_word text.now }
    ensures within { result ≤ length text.now }
{
    text.iter().take_while(|b| continues_word(**b)).count()
}

fn leading_inside(text: &[u8]) -> usize
    ensures len { result ≡ prefix_len is_inside text.now }
    ensures within { result ≤ length text.now }
{
    text.iter().take_while(|b| is_inside(**b)).count()
}

/// The text from its first byte on that is no blank.
pub fn skip_blanks(text: &[u8]) -> &[u8]
    ensures rest { result.now ≡ unblank text.now }
    ensures within { length result.now ≤ length text.now }
{
    let (_, rest) = text.split_at(leading_blanks(text));
    rest
}

/// A fault at what stands next.
pub fn fault(text: &[u8]) -> Stop
    ensures { result ≡ Stop.Fault (bytes_left text.now) }
{
    Stop::Fault {
        left: skip_blanks(text).len(),
    }
}

/// The place of what stands next: how many bytes of the whole stand before it.
pub fn place(whole: u32, text: &[u8]) -> u32
    requires { length text.now ≤ whole }
    ensures { result ≡ place_at whole text.now }
{
    whole - skip_blanks(text).len() as u32
}

/// Whether a word stands next.
pub fn is_word_next(text: &[u8]) -> bool
    ensures { result ≡ begins begins_word (unblank text.now) }
{
    match skip_blanks(text) {
        [first, ..] => begins_word(*first),
        [] => false,
    }
}

/// Whether a number stands next.
pub fn is_number_next(text: &[u8]) -> bool
    ensures { result ≡ begins is_digit (unblank text.now) }
{
    match skip_blanks(text) {
        [first, ..] => is_digit(*first),
        [] => false,
    }
}

/// How long the word at the front is: the longest one, or 0 where there is none.
fn word_len(text: &[u8]) -> usize
    ensures len { result ≡ word_len text.now }
    ensures within { result ≤ length text.now }
{
    match text {
        [first, ..] if begins_word(*first) => leading_word_bytes(text),
        _ => 0,
    }
}

/// The word that stands next, if one does, as it is written.
pub fn word_after(text: &[u8]) -> Option<(&[u8], &[u8])>
    ensures exact { option_map (λ x. (x.0.now, x.1.now)) result ≡ word_in (unblank text.now) }
    ensures within { IfSome result (λ x. length x.1.now ≤ length text.now) }
{
    let text = skip_blanks(text);
    let len = word_len(text);
    if len == 0 {
        return None;
    }
    Some(text.split_at(len))
}

/// A word as it is written.
pub fn word(text: &[u8]) -> Result<(&[u8], &[u8]), Stop>
    ensures exact { Gives (λ x. (x.0.now, x.1.now)) result (word_at text.now) }
    ensures within { IfOk result (λ x. length x.1.now ≤ length text.now) }
{
    match word_after(text) {
        Some(word) => Ok(word),
        None => Err(fault(text)),
    }
}

/// Whether a word is this one, in capital or in small letters.
pub fn is_same_word(word: &[u8], wanted: &[u8]) -> bool
    ensures { result ≡ is_same_word word.now wanted.now }
{
    word.eq_ignore_ascii_case(wanted)
}

/// The rest behind this word, if it stands next.
pub fn keyword_after<'a>(text: &'a [u8], wanted: &[u8]) -> Option<&'a [u8]>
    ensures exact { option_map (λ x. x.now) result ≡ keyword_after wanted.now text.now }
    ensures within { IfSome result (λ x. length x.now ≤ length text.now) }
{
    match word_after(text) {
        Some((word, rest)) if is_same_word(word, wanted) => Some(rest),
        _ => None,
    }
}

/// Passes over this word.
pub fn keyword<'a>(text: &'a [u8], wanted: &[u8]) -> Result<&'a [u8], Stop>
    ensures exact { Gives (λ x. x.now) result (keyword_at wanted.now text.now) }
    ensures within { IfOk result (λ x. length x.now ≤ length text.now) }
{
    match keyword_after(text, wanted) {
        Some(rest) => Ok(rest),
        None => Err(fault(text)),
    }
}

/// Whether a word is one of a table.
fn is_listed(words: &[&[u8]], word: &[u8]) -> bool
    ensures { result ≡ list_any (λ listed. is_same_word word.now listed.now) words.now }
{
    words.iter().any(|listed| is_same_word(word, listed))
}

#[tactic(auto, unfolding(crate::specs::Tokens::reserved_words))]
fn is_reserved(word: &[u8]) -> bool
    ensures { result ≡ is_reserved word.now }
{
    is_listed(&RESERVED, word)
}

/// The bytes with their letters folded to lower case.
fn folded(alloc: Global, word: &[u8]) -> Result<Bytes, Stop>
    ensures { Gives (λ x. x) result (Ok (map to_ascii_lowercase word.now)) }
{
    let folded: Vec<u8> = word.iter().map(|b| b.to_ascii_lowercase()).collect(alloc)?;
    Ok(List::from_vec(folded))
}

/// A name: a word of at most 63 bytes that is none of the grammar's.
pub fn name(alloc: Global, text: &[u8]) -> Result<(Bytes, &[u8]), Stop>
    ensures exact { Gives (λ x. (x.0, x.1.now)) result (name_at text.now) }
    ensures within { IfOk result (λ x. length x.1.now ≤ length text.now) }
{
    let (word, rest) = word(text)?;
    if is_name(word) && !is_reserved(word) {
        Ok((folded(alloc, word)?, rest))
    } else {
        Err(fault(text))
    }
}

/// The rest behind a sign of one byte, if it stands in front.
fn mark_in(text: &[u8], mark: u8) -> Option<&[u8]>
    ensures exact { option_map (λ x. x.now) result ≡ mark_in mark text.now }
    ensures shorter { IfSome result (λ x. length x.now < length text.now) }
{
    match text {
        [first, rest @ ..] if *first == mark => Some(rest),
        _ => None,
    }
}

/// The rest behind a sign of one byte, if it stands next.
pub fn mark_after(text: &[u8], mark: u8) -> Option<&[u8]>
    ensures exact { option_map (λ x. x.now) result ≡ mark_after mark text.now }
    ensures within { IfSome result (λ x. length x.now ≤ length text.now) }
{
    mark_in(skip_blanks(text), mark)
}

/// Passes over a sign of one byte.
pub fn mark(text: &[u8], mark: u8) -> Result<&[u8], Stop>
    ensures exact { Gives (λ x. x.now) result (mark_at mark text.now) }
    ensures within { IfOk result (λ x. length x.now ≤ length text.now) }
{
    match mark_after(text, mark) {
        Some(rest) => Ok(rest),
        None => Err(fault(text)),
    }
}

/// The number that digits spell, if it is below 2^64.
fn value_of(digits: &[u8]) -> Option<u64>
    ensures value { IfSome result (λ value. value ≡ value_from 0 digits.now) }
    ensures none { IfNone result (2 ^ 64 ≤ value_from 0 digits.now) }
{
    let mut value = 0u64;
    'digits: for d in digits {
        let digit = u64::from(d.saturating_sub(b'0'));
        if value > (u64::MAX - digit) / 10 {
            return None;
        }
        value = 10 * value + digit;
    }
    Some(value)
}

/// A run of digits whose number is not above its limit.
pub fn number(text: &[u8], most: u64) -> Result<(u64, &[u8]), Stop>
    ensures exact { Gives (λ x. (x.0, x.1.now)) result (number_at most text.now) }
    ensures within { IfOk result (λ x. length x.1.now ≤ length text.now) }
    ensures most { IfOk result (λ x. x.0 ≤ most) }
{
    let bytes = skip_blanks(text);
    let len = leading_digits(bytes);
    if len == 0 {
        return Err(fault(text));
    }
    let (digits, rest) = bytes.split_at(len);
    match value_of(digits) {
        Some(value) if value <= most => Ok((value, rest)),
        _ => Err(fault(text)),
    }
}

/// How many bytes a piece of a text takes with the sign behind it, or 0.
fn piece_len(bytes: &[u8]) -> usize
    ensures len { result ≡ piece_len bytes.now }
    ensures within { result ≤ length bytes.now }
{
    let len = leading_inside(bytes);
    if len < bytes.len() && is_utf8(&bytes[..len]) {
        len + 1
    } else {
        0
    }
}

/// The rest behind the longest text that is open in front of the bytes, or all of them.
fn behind_text(bytes: &[u8]) -> &[u8]
    ensures exact { result.now ≡ behind_text bytes.now }
    ensures within { length result.now ≤ length bytes.now }
{
    let mut closed = bytes;
    let mut inside = bytes;
    'pieces: loop {
        let len = piece_len(inside);
        if len == 0 {
            return closed;
        }
        let (_, rest) = inside.split_at(len);
        let Some(more) = mark_in(rest, b'\'') else {
            return rest;
        };
        closed = rest;
        inside = more;
    }
}

/// Takes the next byte of a text, or passes over it, and answers whether it is the first sign of two.
fn keep(kept: &mut Vec<u8>, first: bool, byte: u8) -> Result<bool, OutOfMemory>
    ensures { IfOk result (λ next. (rest : List ℕ)
        → kept.new.items ++ single next rest ≡ kept.old.items ++ single first (byte ∷ rest)) }
{
    if byte == b'\'' && first {
        return Ok(false);
    }
    kept.push(byte)?;
    Ok(byte == b'\'')
}

/// The bytes of a text, with one sign for each two.
fn single(alloc: Global, bytes: &[u8]) -> Result<Bytes, Stop>
    ensures { Gives (λ x. x) result (Ok (single false bytes.now)) }
{
    let mut kept = Vec::new(alloc);
    let mut first = false;
    'bytes: for byte in bytes {
        first = keep(&mut kept, first, *byte)?;
    }
    Ok(List::from_vec(kept))
}

/// A text.
pub fn text(alloc: Global, text: &[u8]) -> Result<(Bytes, &[u8]), Stop>
    ensures exact { Gives (λ x. (x.0, x.1.now)) result (text_at text.now) }
    ensures within { IfOk result (λ x. length x.1.now ≤ length text.now) }
{
    let [b'\'', bytes @ ..] = skip_blanks(text) else {
        return Err(fault(text));
    };
    let rest = behind_text(bytes);
    if rest.len() < bytes.len() {
        Ok((single(alloc, &bytes[..bytes.len() - rest.len() - 1])?, rest))
    } else {
        Err(fault(text))
    }
}
