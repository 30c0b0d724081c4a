//! Texts that may be missing.
ghost use Rattle.std.specs.Prelude.{◌≡◌, ◌<◌, ◌∷◌, ◌++◌, [], Some, length, map, is_some, option_map, slice_get, slice_set, take, replicate, IfOk, OnOk, OnErr};
ghost use Rattle.dk_columns.specs.Options.{options, option_if};

use crate::mask::Mask;
use dk_rows::Texts;
use dk_values::{OutOfMemory, TryCopy};
use std::alloc::Global;
use std::marker::Model;

/// Texts, each of which may be missing, seen as the list of these options. No bytes are kept for a missing one.
#[derive(Debug, Drop)]
pub struct TextCells {
    texts: Texts,
    present: Mask,
}

impl Model for TextCells {
    ghost use Rattle.std.specs.Prelude.{◌≡◌, List, Option, ℕ, length};
    ghost use Rattle.dk_columns.specs.Options.{options};

    ghost Value = { List (Option (List ℕ)) };

    ghost view = { λ s. options s.present s.texts };

    ghost invariant = { λ s. length s.present ≡ length s.texts };
}

impl TextCells {
    /// No texts. It takes no memory yet.
    pub fn new(alloc: Global) -> TextCells
        ensures { result ≡ [] }
    {
        TextCells {
            texts: Texts::new(alloc),
            present: Mask::new(alloc),
        }
    }

    #[tactic(auto, using(crate::proofs::OptionsLemmas::options_len))]
    pub fn len(&self) -> usize
        ensures { result ≡ length self.now }
    {
        self.texts.len()
    }

    /// Lends the i-th text, if it is there.
    pub fn get(&self, i: usize) -> Option<&[u8]>
        requires { i < length self.now }
        ensures { slice_get self.now i ≡ Some (option_map (λ text. text.now) result) }
    {
        text_if(&self.texts, &self.present, i)
    }

    /// Lends the flags of the texts that are there.
    #[tactic(auto, using(crate::proofs::OptionsLemmas::flags_again))]
    pub fn present(&self) -> &Mask
        ensures { result.now ≡ map is_some self.now }
    {
        &self.present
    }

    pub fn push(&mut self, text: Option<&[u8]>) -> Result<(), OutOfMemory>
        ensures ok { OnOk result (self.new ≡ self.old ++ option_map (λ text. text.now) text.entry ∷ []) }
        ensures err { OnErr result (self.new ≡ self.old) }
    {
        push_both(&mut self.texts, &mut self.present, text)
    }

    /// Adds so many copies of a text, or of none, at the end.
    #[tactic(auto, using(dk_rows::proofs::RowLemmas::taken_back, crate::proofs::CopyLemmas::one_more))]
    pub fn push_copies(&mut self, text: Option<&[u8]>, count: usize) -> Result<(), OutOfMemory>
        ensures ok { OnOk result (self.new
            ≡ self.old ++ replicate count (option_map (λ text. text.now) text.entry)) }
        ensures err { OnErr result (self.new ≡ self.old) }
    {
        let before = self.len();
        'copies: for _ in 0..count {
            if let Err(lack) = self.push(text) {
                self.truncate(before);
                return Err(lack);
            }
        }
        Ok(())
    }

    /// Removes all texts, and keeps their memory.
    pub fn clear(&mut self)
        ensures { self.new ≡ [] }
    {
        self.texts.truncate(0);
        self.present.clear();
    }

    /// Puts a text, or none, in the place of the i-th. It takes time linear in the texts.
    pub fn set(&mut self, i: usize, text: Option<&[u8]>) -> Result<(), OutOfMemory>
        requires { i < length self.old }
        ensures ok { OnOk result (self.new ≡ slice_set self.old i (option_map (λ text. text.now) text.entry)) }
        ensures err { OnErr result (self.new ≡ self.old) }
    {
        set_both(&mut self.texts, &mut self.present, i, text)
    }

    /// Keeps the first n texts.
    #[tactic(auto, using(crate::proofs::OptionsLemmas::options_front, crate::proofs::OptionsLemmas::same_fronts))]
    pub fn truncate(&mut self, n: usize)
        ensures { self.new ≡ take n self.old }
    {
        self.texts.truncate(n);
        self.present.truncate(n);
    }
}

impl TryCopy for TextCells {
    fn copy(&self) -> Result<TextCells, OutOfMemory> {
        let texts = self.texts.copy()?;
        let present = self.present.copy()?;
        Ok(TextCells { texts, present })
    }
}

/// Lends the i-th text, if it is there.
fn text_if<'a>(texts: &'a Texts, present: &Mask, i: usize) -> Option<&'a [u8]>
    requires within { i < length texts.now }
    requires flags { length present.now ≡ length texts.now }
    ensures { slice_get (options present.now texts.now) i ≡ Some (option_map (λ text. text.now) result) }
{
    if present.get(i) {
        Some(texts.get(i))
    } else {
        None
    }
}

/// What is kept for a text.
fn kept_text<'a>(text: Option<&'a [u8]>) -> &'a [u8]
    ensures { option_if (is_some text.entry) result.now ≡ option_map (λ text. text.now) text.entry }
{
    match text {
        None => &[],
        Some(text) => text,
    }
}

/// Adds a text and its flag, or neither.
fn push_both(texts: &mut Texts, present: &mut Mask, text: Option<&[u8]>) -> Result<(), OutOfMemory>
    requires { length present.old ≡ length texts.old }
    ensures same { length present.new ≡ length texts.new }
    ensures ok { OnOk result (options present.new texts.new
        ≡ options present.old texts.old ++ option_map (λ text. text.now) text.entry ∷ []) }
    ensures err { OnErr result (options present.new texts.new ≡ options present.old texts.old) }
{
    let before = texts.len();
    texts.push(kept_text(text))?;
    match present.push(text.is_some()) {
        Ok(()) => Ok(()),
        Err(lack) => {
            texts.truncate(before);
            Err(lack)
        }
    }
}

/// Puts a text and its flag in the place of the i-th, or neither.
fn set_both(
    texts: &mut Texts,
    present: &mut Mask,
    i: usize,
    text: Option<&[u8]>,
) -> Result<(), OutOfMemory>
    requires within { i < length texts.old }
    requires flags { length present.old ≡ length texts.old }
    ensures same { length present.new ≡ length texts.new }
    ensures ok { OnOk result (options present.new texts.new
        ≡ slice_set (options present.old texts.old) i (option_map (λ text. text.now) text.entry)) }
    ensures err { OnErr result (options present.new texts.new ≡ options present.old texts.old) }
{
    let made = with_text(texts, i, kept_text(text))?;
    present.set(i, text.is_some())?;
    *texts = made;
    Ok(())
}

/// A copy with another text in the place of the i-th.
fn with_text(texts: &Texts, i: usize, text: &[u8]) -> Result<Texts, OutOfMemory>
    requires { i < length texts.now }
    ensures { IfOk result (λ made. made ≡ slice_set texts.now i text.now) }
{
    let len = texts.len();
    let mut made = texts.copy()?;
    made.truncate(i);
    made.push(text)?;
    'texts: for j in i + 1..len {
        made.push(texts.get(j))?;
    }
    Ok(made)
}
