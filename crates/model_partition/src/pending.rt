//! What is begun at a range of the map and not yet done.
use bytes::Bytes;
use wire::RangeId;

/// A split or a merge that is begun. The ranges that it is to leave have their numbers already.
#[derive(Drop)]
pub enum Pending {
    /// The range is to become the one of its keys below this key, and the one of those from it on.
    Split {
        key: Bytes,
        low: RangeId,
        high: RangeId,
    },
    /// The range and the one behind it, the right one, are to become one. This stands at the left one and counts for both.
    Merge {
        right: RangeId,
        into: RangeId,
    },
}
