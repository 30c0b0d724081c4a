//! Why a call on blocks failed.
ghost use Rattle.std.specs.Prelude.{◌≡◌};

use dk_device::Failed;
use dk_types::Damage;
use std::alloc::AllocError;
use thiserror::Error;

/// Why a call on a block or a header failed.
#[derive(Clone, Copy, Debug, PartialEq, Eq, Drop, Error)]
pub enum BlockFault {
    #[error("disk fault")]
    DiskFault,
    #[error("{0}")]
    Damaged(Damage),
    #[error("out of memory")]
    OutOfMemory,
}

impl From<Failed> for BlockFault {
    ghost use Rattle.dk_block_file.specs.declared.fault.BlockFault.TheVariants.{DiskFault};

    ghost from_gives = { λ _ e. e ≡ DiskFault };

    fn from(_: Failed) -> BlockFault {
        BlockFault::DiskFault
    }
}

impl From<AllocError> for BlockFault {
    ghost use Rattle.dk_block_file.specs.declared.fault.BlockFault.TheVariants.{OutOfMemory};

    ghost from_gives = { λ _ e. e ≡ OutOfMemory };

    fn from(_: AllocError) -> BlockFault {
        BlockFault::OutOfMemory
    }
}

impl From<dk_device::DiskFault> for BlockFault {
    ghost use Rattle.dk_block_file.specs.declared.fault.BlockFault.TheVariants.{DiskFault};

    ghost from_gives = { λ _ e. e ≡ DiskFault };

    fn from(_: dk_device::DiskFault) -> BlockFault {
        BlockFault::DiskFault
    }
}

/// Why a call on the rows or the tree in blocks failed: for the same causes as one on a block, under its own name.
pub type StoreFault = BlockFault;
