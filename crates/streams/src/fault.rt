//! Why a table of streams refuses a call.
ghost use Rattle.std.specs.Prelude.{◌≡◌};
ghost use Rattle.streams.specs.Faults.{refusal_of};
ghost use Rattle.streams.specs.declared.fault.StreamFault.TheVariants as faults;

use std::alloc::AllocError;
use thiserror::Error;
use wire::Refusal;

/// Why a call was refused. Nothing has changed.
#[derive(Clone, Copy, Debug, PartialEq, Eq, Error)]
pub enum StreamFault {
    /// 3: the generation is not the fence, or not above it.
    #[error("an older generation")]
    Stale,
    /// 11: there is no stream of this name.
    #[error("there is no stream of this name")]
    NoSuchStream,
    /// 12: there is a stream of this name.
    #[error("there is a stream of this name")]
    NameTaken,
    /// 13: the last extent is open.
    #[error("the last extent is open")]
    LastOpen,
    /// 22: no memory was left.
    #[error("no memory was left")]
    Memory,
}

impl From<StreamFault> for Refusal {
    ghost from_gives = { λ fault refusal. refusal ≡ refusal_of fault };

    fn from(fault: StreamFault) -> Refusal {
        match fault {
            StreamFault::Stale => Refusal::Stale,
            StreamFault::NoSuchStream => Refusal::NoSuchStream,
            StreamFault::NameTaken => Refusal::NameTaken,
            StreamFault::LastOpen => Refusal::LastOpen,
            StreamFault::Memory => Refusal::Memory,
        }
    }
}

impl From<AllocError> for StreamFault {
    ghost from_gives = { λ _ fault. fault ≡ faults.Memory };

    fn from(_: AllocError) -> StreamFault {
        StreamFault::Memory
    }
}
