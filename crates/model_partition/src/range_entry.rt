//! One range at the map.
use crate::pending::Pending;
use metadata::KeyRange;
use wire::{Fence, RangeId, ServerNo};

/// A range of keys: its number, its keys, the generation of its last assignment (0 before the first), who holds it, the end of
/// the lease, in ticks of the clock, and what is begun at it; a merge stands at the left one of its two ranges.
pub struct RangeEntry {
    pub range: RangeId,
    pub keys: KeyRange,
    pub generation: Fence,
    pub holder: Option<ServerNo>,
    pub until: u64,
    pub pending: Option<Pending>,
}

// Written out, so that a crate above that lets one go has no proof of what is in it.
impl Drop for RangeEntry {
    fn drop(self) {
        let RangeEntry {
            range: _,
            keys: _,
            generation: _,
            holder: _,
            until: _,
            pending: _,
        } = self;
    }
}
