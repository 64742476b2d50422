//! Why a record file could not be opened or read.
ghost use Rattle.std.specs.Prelude.{◌≡◌};
ghost use Rattle.disk.specs.Faults.{of_disk, of_block};

use crate::device::DiskFault;
use block_types::BlockFault;
use std::alloc::AllocError;
use thiserror::Error;

/// Why a record file could not be opened or read.
#[derive(Clone, Copy, Debug, PartialEq, Eq, Error)]
pub enum FileFault {
    /// 20: the device failed in this call, and counts it.
    #[error("the disk failed")]
    Failed,
    /// 21: the bytes are no file of records.
    #[error("the bytes are no file of records")]
    Damaged,
    /// 22: no memory was left.
    #[error("no memory was left")]
    Memory,
}

impl From<AllocError> for FileFault {
    ghost use Rattle.disk.specs.declared.fault.FileFault.TheVariants as files;

    ghost from_gives = { λ _ e. e ≡ files.Memory };

    fn from(_: AllocError) -> FileFault {
        FileFault::Memory
    }
}

impl From<DiskFault> for FileFault {
    ghost from_gives = { λ d e. e ≡ of_disk d };

    fn from(fault: DiskFault) -> FileFault {
        match fault {
            DiskFault::Failed => FileFault::Failed,
            DiskFault::Memory => FileFault::Memory,
        }
    }
}

impl From<BlockFault> for FileFault {
    ghost from_gives = { λ d e. e ≡ of_block d };

    fn from(fault: BlockFault) -> FileFault {
        match fault {
            BlockFault::Damaged => FileFault::Damaged,
            BlockFault::Memory => FileFault::Memory,
        }
    }
}
