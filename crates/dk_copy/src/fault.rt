//! Why data are no rows of a table.
use std::alloc::AllocError;
use thiserror::Error;

/// A field of the data: its record and its place there, both counted from 0.
#[derive(Clone, Copy, Debug, PartialEq, Eq)]
pub struct FieldPlace {
    pub row: u64,
    pub field: u32,
}

/// Why data are no rows of a table.
#[derive(Clone, Copy, Debug, PartialEq, Eq, Error)]
pub enum CopyError {
    /// The first field that has no value in its column. Where a record has another number of fields than the table has
    /// columns, that is the lesser of the two numbers, before other faults of the record.
    #[error("bad field")]
    BadField(FieldPlace),
    #[error("out of memory")]
    OutOfMemory,
}

impl From<AllocError> for CopyError {
    ghost use Rattle.std.specs.Prelude.{◌≡◌};
    ghost use Rattle.dk_copy.specs.declared.fault.CopyError.TheVariants.{OutOfMemory};

    ghost from_gives = { λ _ e. e ≡ OutOfMemory };

    fn from(_e: AllocError) -> CopyError {
        CopyError::OutOfMemory
    }
}
