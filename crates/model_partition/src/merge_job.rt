//! A merge that is under way.
use client::StreamClient;
use wire::{Fence, RangeId, ReqNo, StreamKind};

/// Which of the two ranges that are merged: that of the lower keys, or that of the higher ones.
#[derive(Clone, Copy, PartialEq, Eq)]
pub enum MergeSide {
    Left,
    Right,
}

/// What the metadata of the new range is to say: its keys first, and then its indexes and the regions of its log.
#[derive(Clone, Copy, PartialEq, Eq)]
pub enum MergeRecord {
    Keys,
    Regions,
}

/// What a merge waits for. It goes through its phases in this order, through the checkpoint of the left range before that of the
/// right one.
pub enum MergePhase {
    /// The map is asked for the number of the new range.
    Begin {
        request: ReqNo,
    },
    /// One of the two makes a checkpoint.
    Checkpoint {
        side: MergeSide,
    },
    /// The transactions that wait are appended, and no others are taken. Each of the two is paused as soon as none waits there.
    Queue,
    /// The last extent of this stream of one of the two is to be sealed. From here on both are paused.
    Seal {
        side: MergeSide,
        kind: StreamKind,
        request: ReqNo,
    },
    /// The log, the row data and the blob data of the new range are to be built from those of the two.
    Build {
        request: ReqNo,
    },
    /// The metadata of the new range is to be made, with nothing in it.
    Create {
        request: ReqNo,
    },
    /// A record is being appended to it.
    Write {
        record: MergeRecord,
        metadata: StreamClient,
    },
    /// The map is asked to put the new range in the place of the two.
    Complete {
        request: ReqNo,
    },
}

// Written out, so that a crate above that lets one go has no proof of what is in it.
impl Drop for MergePhase {
    fn drop(self) {
        match self {
            MergePhase::Begin { request: _ } => {}
            MergePhase::Checkpoint { side: _ } => {}
            MergePhase::Queue => {}
            MergePhase::Seal {
                side: _,
                kind: _,
                request: _,
            } => {}
            MergePhase::Build { request: _ } => {}
            MergePhase::Create { request: _ } => {}
            MergePhase::Write {
                record: _,
                metadata: _,
            } => {}
            MergePhase::Complete { request: _ } => {}
        }
    }
}

/// A merge of two ranges, each under a generation, into a new one, whose number the map tells (0 before), and what it waits for.
pub struct MergeJob {
    pub left: RangeId,
    pub left_generation: Fence,
    pub right: RangeId,
    pub right_generation: Fence,
    pub into: RangeId,
    pub phase: MergePhase,
}

// Written out, so that a crate above that lets one go has no proof of what is in it.
impl Drop for MergeJob {
    fn drop(self) {
        let MergeJob {
            left: _,
            left_generation: _,
            right: _,
            right_generation: _,
            into: _,
            phase: _,
        } = self;
    }
}
