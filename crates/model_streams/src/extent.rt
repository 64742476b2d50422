//! Extents at the manager.
use block_types::Nodes;
use wire::{ActorId, Fence, ReqNo};

/// What one place of an extent has told the manager since the manager started.
#[derive(Clone, Copy)]
pub struct PlaceReport {
    /// The length at which its replica is frozen, in bytes.
    pub frozen: Option<u32>,
    /// Whether its replica is sealed.
    pub sealed: bool,
}

/// Who asked last for the seal of an extent, and with which request number.
#[derive(Clone, Copy)]
pub struct Asker {
    pub who: ActorId,
    pub request: ReqNo,
}

/// An extent at the manager. The reports of its places and the asker are gone after a stop; the rest is in the records.
#[derive(Clone, Copy)]
pub struct Extent {
    /// Where its replicas are, the primary first.
    pub places: Nodes,
    /// The fence that its replicas are made with.
    pub fence: Fence,
    /// Its length in bytes, where it is sealed.
    pub sealed: Option<u32>,
    pub primary: PlaceReport,
    pub second: PlaceReport,
    pub third: PlaceReport,
    pub asker: Option<Asker>,
}
