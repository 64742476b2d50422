//! Why a group could not be made, and a record not read or written.
ghost use Rattle.std.specs.Prelude.{◌≡◌};
ghost use Rattle.block_types.specs.declared.fault.BlockFault.TheVariants as faults;
ghost use Rattle.block_types.specs.declared.fault.GroupFault.TheVariants as group_faults;

use std::alloc::{AllocError, AllocFailed};
use thiserror::Error;

/// No memory was left (22), and nothing has changed.
#[derive(Clone, Copy, Debug, PartialEq, Eq, Error)]
#[error("no memory was left")]
pub struct Memory;

impl From<AllocError> for Memory {
    fn from(_e: AllocError) -> Memory {
        Memory
    }
}

impl<T: Drop> From<AllocFailed<T>> for Memory {
    fn from(_e: AllocFailed<T>) -> Memory {
        Memory
    }
}

/// Why bytes could not be read.
#[derive(Clone, Copy, Debug, PartialEq, Eq, Error)]
pub enum BlockFault {
    /// No front of the bytes is a spelling (21).
    #[error("no front of the bytes is a spelling")]
    Damaged,
    /// No memory was left (22), and nothing has changed.
    #[error("no memory was left")]
    Memory,
}

impl From<AllocError> for BlockFault {
    ghost from_gives = { λ _ e. e ≡ faults.Memory };

    fn from(_e: AllocError) -> BlockFault {
        BlockFault::Memory
    }
}

impl<T: Drop> From<AllocFailed<T>> for BlockFault {
    ghost from_gives = { λ _ e. e ≡ faults.Memory };

    fn from(_e: AllocFailed<T>) -> BlockFault {
        BlockFault::Memory
    }
}

/// Why texts are no group.
#[derive(Clone, Copy, Debug, PartialEq, Eq, Error)]
pub enum GroupFault {
    /// There are not 1 to 64 texts (6).
    #[error("a group has 1 to 64 blocks")]
    TooManyBlocks,
    /// A text has not 1 to 65,536 bytes (5).
    #[error("a block has 1 to 65,536 bytes")]
    BadBlock,
    /// No memory was left (22).
    #[error("no memory was left")]
    Memory,
}

impl From<AllocError> for GroupFault {
    ghost from_gives = { λ _ e. e ≡ group_faults.Memory };

    fn from(_e: AllocError) -> GroupFault {
        GroupFault::Memory
    }
}

impl<T: Drop> From<AllocFailed<T>> for GroupFault {
    ghost from_gives = { λ _ e. e ≡ group_faults.Memory };

    fn from(_e: AllocFailed<T>) -> GroupFault {
        GroupFault::Memory
    }
}
