//! Why a replica refuses a step.

use thiserror::Error;

/// 3: the generation is below the fence.
#[derive(Clone, Copy, Debug, PartialEq, Eq, Error)]
#[error("an older generation")]
pub struct Stale;

/// 8: no group ends there, or there are not so many bytes.
#[derive(Clone, Copy, Debug, PartialEq, Eq, Error)]
#[error("past the end")]
pub struct PastEnd;

/// Why a group was not taken.
#[derive(Clone, Copy, Debug, PartialEq, Eq, Error)]
pub enum PutFault {
    /// 3: the generation is below the fence.
    #[error("an older generation")]
    Stale,
    /// 8: the offset is not the replica's length.
    #[error("not at the end")]
    PastEnd,
    /// 7: the length has reached the target.
    #[error("the extent is full")]
    ExtentFull,
    /// 22: there was no memory for one more group.
    #[error("no memory was left")]
    Memory,
}

/// Why the groups of a tail were not taken.
#[derive(Clone, Copy, Debug, PartialEq, Eq, Error)]
pub enum FillFault {
    /// 8: there are no groups, they do not begin at the replica's end, or they do not end at the length.
    #[error("not from the end to the length")]
    PastEnd,
    /// 7: the length is above 20,971,519 bytes.
    #[error("the extent is full")]
    ExtentFull,
    /// 22: there was no memory for the groups.
    #[error("no memory was left")]
    Memory,
}
