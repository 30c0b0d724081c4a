//! A cursor over a byte string, which reads fields of numbers from its front.
ghost use Rattle.std.specs.Prelude.{◌≡◌, ◌+◌, ◌^◌, ◌<◌, ◌↔◌, [], ◌∷◌, length, Ok, Err, IsOk, IsErr, IfOk, IfErr, OnErr};
ghost use Rattle.std.specs.Int.{w8, w16, w32, w64, to_le_bytes};
ghost use Rattle.dk_bytes.specs.Fields.{IsBytes};
ghost use Rattle.dk_bytes.specs.declared.field_error.FieldError.TheVariants.{Malformed};

use crate::field_error::FieldError;
use crate::word::word_of;
use std::marker::Model;
use thiserror::Error;

/// Fewer bytes are left than the field at `at` has.
#[derive(Clone, Copy, Debug, PartialEq, Eq, Error)]
#[error("short at {at}")]
pub struct Short {
    pub at: u64,
}

/// Reads fields from the front of a byte string. A refused call leaves it where it is.
#[derive(Drop)]
pub struct Cursor<'a> {
    at: u64,
    rest: &'a [u8],
}

impl<'a> Model for Cursor<'a> {
    ghost use Rattle.std.specs.Prelude.{◌+◌, ◌^◌, ◌<◌, length};
    ghost use Rattle.dk_bytes.specs.Fields.{Place};

    ghost Value = { Place };

    ghost view = { λ c. record { at = c.at; rest = c.rest.now } };

    ghost invariant = { λ c. c.at + length c.rest.now < 2 ^ 64 };
}

/// How many bytes these are.
fn len_of(bytes: &[u8]) -> usize
    ensures len { result ≡ length bytes.now }
    ensures bytes { IsBytes bytes.now }
{
    bytes.len()
}

impl<'a> Cursor<'a> {
    ghost use Rattle.dk_bytes.specs.Fields.{Passes, number_at};

    pub fn new(bytes: &'a [u8]) -> Self
        ensures at { result.at ≡ 0 }
        ensures rest { result.rest ≡ bytes.now }
    {
        Cursor { at: 0, rest: bytes }
    }

    /// The offset of the next byte.
    pub fn at(&self) -> u64
        ensures { result ≡ self.now.at }
    {
        self.at
    }

    /// Ends a reading. Bytes that are left over are charged to the first of them.
    pub fn finish(&self) -> Result<(), FieldError>
        ensures ok { IsOk result ↔ (length self.now.rest ≡ 0) }
        ensures fault { IfErr result (λ e. e ≡ Malformed self.now.at) }
    {
        if self.rest.is_empty() {
            Ok(())
        } else {
            Err(FieldError::Malformed { at: self.at })
        }
    }

    /// How many bytes are left.
    pub fn left(&self) -> usize
        ensures left { result ≡ length self.now.rest }
        ensures bytes { IsBytes self.now.rest }
    {
        len_of(self.rest)
    }

    pub fn u8(&mut self) -> Result<u8, Short>
        ensures found { IfOk result (λ v. Passes self.old self.new (v ∷ [])) }
        ensures value { IfOk result (λ v. number_at w8 self.old ≡ Ok (v, self.new)) }
        ensures short { IsErr result ↔ (length self.old.rest < 1) }
        ensures at { IfErr result (λ e. e.at ≡ self.old.at) }
        ensures err { OnErr result (self.new ≡ self.old) }
    {
        let bytes = self.take(1)?;
        Ok(bytes[0])
    }

    pub fn u16(&mut self) -> Result<u16, Short>
        ensures found { IfOk result (λ v. Passes self.old self.new (to_le_bytes w16 v)) }
        ensures value { IfOk result (λ v. number_at w16 self.old ≡ Ok (v, self.new)) }
        ensures short { IsErr result ↔ (length self.old.rest < 2) }
        ensures at { IfErr result (λ e. e.at ≡ self.old.at) }
        ensures err { OnErr result (self.new ≡ self.old) }
    {
        let bytes = self.take(2)?;
        Ok(u16::from_le_bytes([bytes[0], bytes[1]]))
    }

    pub fn u32(&mut self) -> Result<u32, Short>
        ensures found { IfOk result (λ v. Passes self.old self.new (to_le_bytes w32 v)) }
        ensures value { IfOk result (λ v. number_at w32 self.old ≡ Ok (v, self.new)) }
        ensures short { IsErr result ↔ (length self.old.rest < 4) }
        ensures at { IfErr result (λ e. e.at ≡ self.old.at) }
        ensures err { OnErr result (self.new ≡ self.old) }
    {
        let bytes = self.take(4)?;
        Ok(u32::from_le_bytes([bytes[0], bytes[1], bytes[2], bytes[3]]))
    }

    pub fn u64(&mut self) -> Result<u64, Short>
        ensures found { IfOk result (λ v. Passes self.old self.new (to_le_bytes w64 v)) }
        ensures value { IfOk result (λ v. number_at w64 self.old ≡ Ok (v, self.new)) }
        ensures short { IsErr result ↔ (length self.old.rest < 8) }
        ensures at { IfErr result (λ e. e.at ≡ self.old.at) }
        ensures err { OnErr result (self.new ≡ self.old) }
    {
        let bytes = self.take(8)?;
        Ok(word_of(bytes))
    }

    /// Lends the next `n` bytes.
    pub fn take(&mut self, n: usize) -> Result<&'a [u8], Short>
        ensures found { IfOk result (λ front. Passes self.old self.new front.now) }
        ensures length { IfOk result (λ front. length front.now ≡ n) }
        ensures short { IsErr result ↔ (length self.old.rest < n) }
        ensures at { IfErr result (λ e. e.at ≡ self.old.at) }
        ensures err { OnErr result (self.new ≡ self.old) }
    {
        if self.rest.len() < n {
            return Err(Short { at: self.at });
        }
        let (front, rest) = self.rest.split_at(n);
        self.at += n as u64;
        self.rest = rest;
        Ok(front)
    }
}
