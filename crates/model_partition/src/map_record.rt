//! The records of the partition map.
use bytes::Bytes;
use wire::{RangeId, ServerNo};

/// What the map writes down. Its bytes stand after the kind byte of a manage record.
#[derive(Drop)]
pub enum MapRecord {
    /// 16: a range is assigned to a server, under a generation one higher, with a lease up to this moment or to its old end,
    /// whichever is later. What was begun at it is dropped.
    Assign {
        range: RangeId,
        server: ServerNo,
        until: u64,
    },
    /// 17: the lease of a range runs up to this moment or to its old end, whichever is later.
    Renew {
        range: RangeId,
        until: u64,
    },
    /// 18: a split of a range at this key, of 1 to 256 bytes, is begun, in place of what was begun at it. The two ranges that
    /// it is to leave take the next two numbers.
    BeginSplit {
        range: RangeId,
        key: Bytes,
    },
    /// 19: the split that is begun at a range is done, and nobody holds the two that it becomes.
    CompleteSplit {
        range: RangeId,
    },
    /// 20: a merge of a range with the one behind it is begun, in place of what was begun at either. The range that it is to
    /// leave takes the next number.
    BeginMerge {
        left: RangeId,
        right: RangeId,
    },
    /// 21: the merge of two ranges that is begun is done, and nobody holds the one that they become.
    CompleteMerge {
        left: RangeId,
        right: RangeId,
    },
}
