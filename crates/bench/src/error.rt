//! Why a measurement ended early.
use block_types::{BlockFault, GroupFault};
use disk::DiskFault;
use enode::NodeFault;
use std::alloc::{AllocError, AllocFailed};
use std::io;

#[derive(Debug, Drop)]
pub enum Failure {
    /// The words name no measurement.
    Words,
    /// A call of the system failed.
    Io(io::Error),
    /// There was no memory (22).
    Memory,
    /// Bytes are no spelling, or a number is above the next (21).
    Damaged,
    /// A step was refused.
    Step,
}

impl Failure {
    /// What is printed of it.
    pub fn line(&self) -> &'static str {
        match self {
            Failure::Words => "the words name no measurement",
            Failure::Io(_) => "a call of the system failed",
            Failure::Memory => "refused 22 Memory",
            Failure::Damaged => "refused 21 Damaged",
            Failure::Step => "a step was refused",
        }
    }
}

impl From<io::Error> for Failure {
    fn from(error: io::Error) -> Self {
        match error.kind() {
            io::ErrorKind::OutOfMemory => Failure::Memory,
            _ => Failure::Io(error),
        }
    }
}

impl From<AllocError> for Failure {
    fn from(_refused: AllocError) -> Self {
        Failure::Memory
    }
}

impl<T: Drop> From<AllocFailed<T>> for Failure {
    fn from(_refused: AllocFailed<T>) -> Self {
        Failure::Memory
    }
}

impl From<block_types::Memory> for Failure {
    fn from(_refused: block_types::Memory) -> Self {
        Failure::Memory
    }
}

impl From<BlockFault> for Failure {
    fn from(fault: BlockFault) -> Self {
        match fault {
            BlockFault::Damaged => Failure::Damaged,
            BlockFault::Memory => Failure::Memory,
        }
    }
}

impl From<GroupFault> for Failure {
    fn from(fault: GroupFault) -> Self {
        match fault {
            GroupFault::Memory => Failure::Memory,
            _ => Failure::Step,
        }
    }
}

impl From<DiskFault> for Failure {
    fn from(fault: DiskFault) -> Self {
        match fault {
            DiskFault::Memory => Failure::Memory,
            DiskFault::Failed => Failure::Step,
        }
    }
}

impl<D: Drop> From<(DiskFault, D)> for Failure {
    fn from(refused: (DiskFault, D)) -> Self {
        Failure::from(refused.0)
    }
}

impl From<NodeFault> for Failure {
    fn from(fault: NodeFault) -> Self {
        match fault {
            NodeFault::Memory => Failure::Memory,
            NodeFault::Damaged => Failure::Damaged,
            NodeFault::Failed => Failure::Step,
        }
    }
}

impl<D: Drop> From<(NodeFault, D)> for Failure {
    fn from(refused: (NodeFault, D)) -> Self {
        Failure::from(refused.0)
    }
}

impl From<streams::StreamFault> for Failure {
    fn from(_refused: streams::StreamFault) -> Self {
        Failure::Step
    }
}
