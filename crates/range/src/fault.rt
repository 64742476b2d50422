//! Why a server does nothing with a range.
ghost use Rattle.std.specs.Prelude.{◌≡◌, Some};
ghost use Rattle.range.specs.Faults.{refusal_of, IsBeginningRefusal};
ghost use Rattle.range.specs.declared.fault.RangeFault.TheVariants as faults;

use std::alloc::AllocError;
use thiserror::Error;
use wire::Refusal;

/// Why a server does not give up on the jobs of a range, or begins no checkpoint, split or merge of it. Nothing has changed then.
#[derive(Clone, Copy, Debug, PartialEq, Eq, Error)]
pub enum RangeFault {
    /// 22: no memory was left.
    #[error("no memory was left")]
    Memory,
    /// 30: the server does not hold the range.
    #[error("the server does not hold the range")]
    NotOwner,
    /// 38: the range is not served yet.
    #[error("the range is loaded")]
    Loading,
    /// 34: the range is paused.
    #[error("the range is paused")]
    Paused,
    /// 35: a checkpoint, a split or a merge of the range is under way.
    #[error("a checkpoint, a split or a merge of the range is under way")]
    Busy,
    /// 39: the key does not split the range.
    #[error("the key does not split the range")]
    BadSplitKey,
    /// 40: the left range does not end where the right one begins.
    #[error("the ranges do not lie side by side")]
    NotAdjacent,
    /// 37: the two ranges have so many indexes that no record would name them.
    #[error("the ranges have too many indexes")]
    TooLarge,
}

impl From<AllocError> for RangeFault {
    ghost from_gives = { λ _ e. e ≡ faults.Memory };

    fn from(_: AllocError) -> Self {
        RangeFault::Memory
    }
}

impl RangeFault {
    /// The refusal that is told. None is told for want of memory.
    pub fn refusal(&self) -> Option<Refusal>
        ensures { result ≡ refusal_of self.now }
    {
        match self {
            RangeFault::Memory => None,
            RangeFault::NotOwner => Some(Refusal::NotOwner),
            RangeFault::Loading => Some(Refusal::Loading),
            RangeFault::Paused => Some(Refusal::Paused),
            RangeFault::Busy => Some(Refusal::Busy),
            RangeFault::BadSplitKey => Some(Refusal::BadSplitKey),
            RangeFault::NotAdjacent => Some(Refusal::NotAdjacent),
            RangeFault::TooLarge => Some(Refusal::TooLarge),
        }
    }

    /// Why no checkpoint, split or merge begins.
    pub(crate) fn of_beginning(refusal: Refusal) -> RangeFault
        requires { IsBeginningRefusal refusal }
        ensures { refusal_of result ≡ Some refusal }
    {
        match refusal {
            Refusal::Loading => RangeFault::Loading,
            Refusal::Paused => RangeFault::Paused,
            Refusal::Busy => RangeFault::Busy,
            Refusal::NotAdjacent => RangeFault::NotAdjacent,
            Refusal::TooLarge => RangeFault::TooLarge,
            _ => RangeFault::BadSplitKey,
        }
    }
}
