//! Who calls the map, and what the caller names.
use wire::{ActorId, Fence, RangeId, ReqNo};

/// Who is answered, and under what number.
#[derive(Clone, Copy)]
pub struct Caller {
    pub from: ActorId,
    pub request: ReqNo,
}

/// A range, and the generation that its caller knows it under.
#[derive(Clone, Copy)]
pub struct KnownRange {
    pub range: RangeId,
    pub generation: Fence,
}
