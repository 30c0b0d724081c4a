//! Why bytes do not stand for a field, with the place of the first fault.
ghost use Rattle.std.specs.Prelude.{◌≡◌};
ghost use Rattle.dk_bytes.specs.declared.field_error.FieldError.TheVariants.{Malformed, OutOfMemory};

use crate::cursor::Short;
use std::alloc::{AllocError, AllocFailed};
use thiserror::Error;

/// Why bytes stand for nothing that was to be read.
#[derive(Clone, Copy, Debug, PartialEq, Eq, Error)]
pub enum FieldError {
    /// The first field, in the order of the bytes, that is short or breaks a rule begins at this offset.
    #[error("malformed at {at}")]
    Malformed { at: u64 },
    #[error("out of memory")]
    OutOfMemory,
}

/// The same of a segment's bytes.
pub type SegError = FieldError;

impl From<Short> for FieldError {
    ghost from_gives = { λ short e. e ≡ Malformed short.at };

    fn from(short: Short) -> FieldError {
        FieldError::Malformed { at: short.at }
    }
}

impl From<AllocError> for FieldError {
    ghost from_gives = { λ _ e. e ≡ OutOfMemory };

    fn from(_e: AllocError) -> FieldError {
        FieldError::OutOfMemory
    }
}

impl<T: Drop> From<AllocFailed<T>> for FieldError {
    ghost from_gives = { λ _ e. e ≡ OutOfMemory };

    fn from(_e: AllocFailed<T>) -> FieldError {
        FieldError::OutOfMemory
    }
}
