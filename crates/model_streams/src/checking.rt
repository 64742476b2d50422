//! A check that a primary has under way.
use wire::{ActorId, Fence, ReqNo};

/// The check of an open extent's length: the generation that it raises the fence to, who is to be answered with which
/// request number, and what the second and the third place have told of their lengths, in bytes.
#[derive(Clone, Copy)]
pub struct Checking {
    pub generation: Fence,
    pub asker: ActorId,
    pub request: ReqNo,
    pub second: Option<u32>,
    pub third: Option<u32>,
}
