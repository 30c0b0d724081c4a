//! Why an expression has no value.
use std::alloc::AllocError;
use thiserror::Error;

/// Why an expression was given no value.
#[derive(Clone, Copy, Debug, PartialEq, Eq, Error)]
pub enum EvalError {
    /// A sum, a difference, a product or a negated number needs more than 64 bits.
    #[error("out of range")]
    OutOfRange,
    #[error("out of memory")]
    OutOfMemory,
}

impl From<AllocError> for EvalError {
    ghost use Rattle.std.specs.Prelude.{◌≡◌};
    ghost use Rattle.dk_eval.specs.declared.fault.EvalError.TheVariants.{OutOfMemory};

    ghost from_gives = { λ _ e. e ≡ OutOfMemory };

    fn from(_e: AllocError) -> EvalError {
        EvalError::OutOfMemory
    }
}
