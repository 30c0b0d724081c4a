//! Why a query gives no rows.
use std::alloc::AllocError;
use thiserror::Error;

/// Why a query gives no rows.
#[derive(Clone, Copy, Debug, PartialEq, Eq, Error)]
pub enum QueryError {
    /// The filter or an item has no value on the row of this id, and on none before it.
    #[error("out of range")]
    OutOfRange { row: u64 },
    #[error("out of memory")]
    OutOfMemory,
}

impl From<AllocError> for QueryError {
    ghost use Rattle.std.specs.Prelude.{◌≡◌};
    ghost use Rattle.dk_query.specs.declared.fault.QueryError.TheVariants.{OutOfMemory};

    ghost from_gives = { λ _ e. e ≡ OutOfMemory };

    fn from(_e: AllocError) -> QueryError {
        QueryError::OutOfMemory
    }
}
