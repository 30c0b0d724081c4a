//! Why a text is no statement.
use std::alloc::{AllocError, AllocFailed};
use thiserror::Error;

/// Why a text is no statement.
#[derive(Clone, Copy, Debug, PartialEq, Eq, Error)]
pub enum ParseError {
    /// The place, in bytes, of the first token that continues no statement or passes a limit, of the first byte that
    /// begins no token, or of the text's end.
    #[error("syntax error at {at}")]
    Syntax { at: u64 },
    #[error("out of memory")]
    OutOfMemory,
}

/// Why a reader stopped: at a token, from which on so many bytes of the text are left, or for want of memory.
#[derive(Clone, Copy, Debug, PartialEq, Eq)]
pub enum Stop {
    Fault { left: usize },
    OutOfMemory,
}

impl From<AllocError> for Stop {
    ghost use Rattle.std.specs.Prelude.{◌≡◌};
    ghost use Rattle.dk_sql.specs.declared.fault.Stop.TheVariants.{OutOfMemory};

    ghost from_gives = { λ _ e. e ≡ OutOfMemory };

    fn from(_e: AllocError) -> Stop {
        Stop::OutOfMemory
    }
}

impl<T: Drop> From<AllocFailed<T>> for Stop {
    ghost use Rattle.std.specs.Prelude.{◌≡◌};
    ghost use Rattle.dk_sql.specs.declared.fault.Stop.TheVariants.{OutOfMemory};

    ghost from_gives = { λ _ e. e ≡ OutOfMemory };

    fn from(_e: AllocFailed<T>) -> Stop {
        Stop::OutOfMemory
    }
}
