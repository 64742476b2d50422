//! Why a call on a stamp came to nothing.
ghost use Rattle.std.specs.Prelude.{◌≡◌};
ghost use Rattle.stamp.specs.Faults.{of_shelf, of_trace};
ghost use Rattle.stamp.specs.declared.fault.StampFault.TheVariants as faults;

use shelf::ShelfFault;
use stamp_traces::TraceFault;
use std::alloc::AllocError;
use thiserror::Error;

/// Why a call on a stamp came to nothing.
#[derive(Clone, Copy, Debug, PartialEq, Eq, Error)]
pub enum StampFault {
    /// 9: the node has no sealed replica of the extent.
    #[error("the node has no sealed replica of the extent")]
    NotSealed,
    /// 22: no memory was left.
    #[error("no memory was left")]
    Memory,
    /// 50: the trace has no room for one more event and what it may send.
    #[error("the trace is full")]
    Full,
    /// 52: the actor has stopped, or its cell is stopped for good, or two tokens differ.
    #[error("the actor has stopped")]
    Stopped,
}

impl From<AllocError> for StampFault {
    ghost from_gives = { λ _ e. e ≡ faults.Memory };

    fn from(_e: AllocError) -> StampFault {
        StampFault::Memory
    }
}

impl From<TraceFault> for StampFault {
    ghost from_gives = { λ x e. e ≡ of_trace x };

    fn from(fault: TraceFault) -> StampFault {
        match fault {
            TraceFault::Memory => StampFault::Memory,
            TraceFault::Full => StampFault::Full,
            TraceFault::Stopped => StampFault::Stopped,
            TraceFault::Spent => StampFault::Stopped,
        }
    }
}

impl From<ShelfFault> for StampFault {
    ghost from_gives = { λ x e. e ≡ of_shelf x };

    fn from(fault: ShelfFault) -> StampFault {
        match fault {
            ShelfFault::Memory => StampFault::Memory,
        }
    }
}
