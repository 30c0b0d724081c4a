//! Why a statement is not bound.
ghost use Rattle.std.specs.Prelude.{◌≡◌};

use dk_types::Refusal;
use std::alloc::AllocError;
use thiserror::Error;

/// Why a statement is not bound.
#[derive(Clone, Copy, Debug, PartialEq, Eq, Error)]
pub enum BindError {
    /// The first refusal by its place in the text.
    #[error("refused")]
    Refused(Refusal),
    #[error("out of memory")]
    OutOfMemory,
}

impl From<AllocError> for BindError {
    ghost use Rattle.std.specs.Prelude.{◌≡◌};
    ghost use Rattle.dk_bind.specs.declared.fault.BindError.TheVariants.{OutOfMemory};

    ghost from_gives = { λ _ e. e ≡ OutOfMemory };

    fn from(_e: AllocError) -> BindError {
        BindError::OutOfMemory
    }
}

/// A value doesn't fit at that place of the text.
pub fn mismatch(at: u32) -> BindError
    ensures { result ≡ BindError.Refused (Refusal.TypeMismatch at) }
{
    let at = u64::from(at);
    BindError::Refused(Refusal::TypeMismatch { at })
}
