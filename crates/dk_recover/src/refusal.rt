//! Why a database is not opened.
ghost use Rattle.std.specs.Prelude.{◌≡◌};

use dk_device::Failed;
use dk_types::Damage;
use thiserror::Error;

/// Why a database is not opened. Of several causes the first one is told, in the order in which an opening reads.
#[derive(Clone, Copy, Debug, PartialEq, Eq, Drop, Error)]
pub enum OpenError {
    /// The main file has no main header.
    #[error("not a database")]
    NotADatabase,
    /// The main header names another version.
    #[error("unknown version {found}")]
    VersionUnknown { found: u64 },
    /// The files are damaged.
    #[error("{0}")]
    Damaged(Damage),
    /// A call of the disk failed.
    #[error("disk fault")]
    DiskFault,
    #[error("out of memory")]
    OutOfMemory,
}

impl From<Failed> for OpenError {
    ghost use Rattle.dk_recover.specs.declared.refusal.OpenError.TheVariants.{DiskFault};

    ghost from_gives = { λ _ e. e ≡ DiskFault };

    fn from(_: Failed) -> OpenError {
        OpenError::DiskFault
    }
}
