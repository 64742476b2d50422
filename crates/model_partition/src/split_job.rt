//! A split that is under way.
use bytes::Bytes;
use client::StreamClient;
use wire::{Fence, RangeId, ReqNo, StreamKind};

/// Which of the two ranges that a split makes: that of the lower keys, or that of the higher ones.
#[derive(Clone, Copy, PartialEq, Eq)]
pub enum Side {
    Low,
    High,
}

/// What a split waits for. It goes through its phases in this order.
pub enum SplitPhase {
    /// The map is asked for the numbers of the two ranges.
    Begin { request: ReqNo },
    /// The range makes a checkpoint.
    Checkpoint,
    /// The transactions that wait are appended, and no others are taken.
    Queue,
    /// The record of the split is being appended to the metadata. From here on the range is paused.
    Record,
    /// The last extent of this stream is to be sealed.
    Seal { kind: StreamKind, request: ReqNo },
    /// The streams of the two ranges are to be built from those of the range.
    Build { request: ReqNo },
    /// The keys of one of the two are being appended to its metadata.
    Keys { side: Side, metadata: StreamClient },
    /// The map is asked to put the two in the place of the range.
    Complete { request: ReqNo },
}

// Written out, so that a crate above that lets one go has no proof of what is in it.
impl Drop for SplitPhase {
    fn drop(self) {
        match self {
            SplitPhase::Begin { request: _ } => {}
            SplitPhase::Checkpoint => {}
            SplitPhase::Queue => {}
            SplitPhase::Record => {}
            SplitPhase::Seal {
                kind: _,
                request: _,
            } => {}
            SplitPhase::Build { request: _ } => {}
            SplitPhase::Keys {
                side: _,
                metadata: _,
            } => {}
            SplitPhase::Complete { request: _ } => {}
        }
    }
}

/// A split of a range under a generation: the key from which on the higher range begins, the numbers of the two ranges, and that of
/// its record in the range's metadata, once the map has told of the two (0 before), and what it waits for.
pub struct SplitJob {
    pub range: RangeId,
    pub generation: Fence,
    pub key: Bytes,
    pub low: RangeId,
    pub high: RangeId,
    pub number: u64,
    pub phase: SplitPhase,
}

// Written out, so that a crate above that lets one go has no proof of what is in it.
impl Drop for SplitJob {
    fn drop(self) {
        let SplitJob {
            range: _,
            generation: _,
            key: _,
            low: _,
            high: _,
            number: _,
            phase: _,
        } = self;
    }
}
