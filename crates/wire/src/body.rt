//! What packets say, in the groups of docs/MODEL.md. A request ends with its number, and an answer begins with it.
use crate::actor::ReqNo;
use crate::blocks_list::Blocks;
use crate::extent_id::ExtentId;
use crate::fence::Fence;
use crate::range_id::RangeId;
use crate::refusal::Refusal;
use crate::server_number::ServerNo;
use crate::streams::{Modifies, OpenedStreams, StreamName};
use crate::transaction::Changes;
use block_types::{Group, Groups, Nodes};
use bytes::Bytes;

/// Appends and what acknowledges them. Offsets and lengths count payload bytes.
#[derive(Drop)]
pub enum AppendBody {
    /// To the primary: add these blocks at the end, for a generation.
    Append {
        extent: ExtentId,
        generation: Fence,
        blocks: Blocks,
        request: ReqNo,
    },
    /// From the primary to a secondary: add this group at this offset.
    Put {
        extent: ExtentId,
        offset: u32,
        group: Group,
    },
    /// From a secondary to the primary: its length.
    Have {
        extent: ExtentId,
        length: u32,
    },
    /// The blocks stand at this offset on all three places.
    Appended {
        request: ReqNo,
        extent: ExtentId,
        offset: u32,
    },
    /// The request is refused.
    Refused {
        request: ReqNo,
        refusal: Refusal,
    },
}

/// The check of an open extent's length, which raises its fence.
#[derive(Drop)]
pub enum CheckBody {
    Check {
        extent: ExtentId,
        generation: Fence,
        request: ReqNo,
    },
    Probe {
        extent: ExtentId,
        generation: Fence,
    },
    Probed {
        extent: ExtentId,
        generation: Fence,
        length: u32,
    },
    /// The length that all three places have, if they have one.
    Checked {
        request: ReqNo,
        length: Option<u32>,
    },
}

/// Making and sealing of extents.
#[derive(Drop)]
pub enum SealBody {
    Make {
        extent: ExtentId,
        fence: Fence,
        target: u32,
        places: Nodes,
    },
    SealExtent {
        extent: ExtentId,
        request: ReqNo,
    },
    SealedIs {
        request: ReqNo,
        extent: ExtentId,
        length: u32,
    },
    Freeze {
        extent: ExtentId,
    },
    Frozen {
        extent: ExtentId,
        length: u32,
    },
    Seal {
        extent: ExtentId,
        length: u32,
    },
    IsSealed {
        extent: ExtentId,
    },
    Short {
        extent: ExtentId,
        length: u32,
    },
    SendTail {
        extent: ExtentId,
        from: u32,
        to: u8,
    },
    Tail {
        extent: ExtentId,
        from: u32,
        length: u32,
        groups: Groups,
    },
}

/// Reads of a replica.
#[derive(Drop)]
pub enum ReadBody {
    ReadAt {
        extent: ExtentId,
        offset: u32,
        length: u32,
        request: ReqNo,
    },
    Bytes {
        request: ReqNo,
        extent: ExtentId,
        offset: u32,
        bytes: Bytes,
    },
    ReadGroups {
        extent: ExtentId,
        upto: u32,
        sealed: bool,
        request: ReqNo,
    },
    Groups {
        request: ReqNo,
        extent: ExtentId,
        groups: Groups,
    },
}

/// Calls of the stream manager.
#[derive(Drop)]
pub enum StreamBody {
    CreateStream {
        stream: StreamName,
        fence: Fence,
        request: ReqNo,
    },
    Created {
        request: ReqNo,
    },
    OpenStreams {
        range: RangeId,
        generation: Fence,
        request: ReqNo,
    },
    Opened {
        request: ReqNo,
        streams: OpenedStreams,
    },
    Confirm {
        range: RangeId,
        generation: Fence,
        request: ReqNo,
    },
    Confirmed {
        request: ReqNo,
    },
    Extend {
        stream: StreamName,
        generation: Fence,
        last: Option<ExtentId>,
        pick: Nodes,
        request: ReqNo,
    },
    Extended {
        request: ReqNo,
        extent: ExtentId,
        places: Nodes,
    },
    Trim {
        range: RangeId,
        generation: Fence,
        before: u64,
        to_blob: bool,
        request: ReqNo,
    },
    Trimmed {
        request: ReqNo,
    },
    MultiModify {
        list: Modifies,
        request: ReqNo,
    },
    Modified {
        request: ReqNo,
    },
}

/// Calls of the partition map, and its words to a server. Moments are ticks of one clock.
#[derive(Drop)]
pub enum MapBody {
    Assign {
        range: RangeId,
        generation: Fence,
        until: u64,
    },
    Renew {
        range: RangeId,
        generation: Fence,
        until: u64,
    },
    Route {
        key: Bytes,
        request: ReqNo,
    },
    RouteIs {
        request: ReqNo,
        range: RangeId,
        server: Option<ServerNo>,
    },
    BeginSplit {
        range: RangeId,
        generation: Fence,
        key: Bytes,
        request: ReqNo,
    },
    SplitBegun {
        request: ReqNo,
        low: RangeId,
        high: RangeId,
    },
    CompleteSplit {
        range: RangeId,
        generation: Fence,
        request: ReqNo,
    },
    SplitDone {
        request: ReqNo,
    },
    BeginMerge {
        left: RangeId,
        left_generation: Fence,
        right: RangeId,
        right_generation: Fence,
        request: ReqNo,
    },
    MergeBegun {
        request: ReqNo,
        range: RangeId,
    },
    CompleteMerge {
        left: RangeId,
        left_generation: Fence,
        right: RangeId,
        right_generation: Fence,
        request: ReqNo,
    },
    MergeDone {
        request: ReqNo,
    },
}

/// Calls of a range.
#[derive(Drop)]
pub enum TableBody {
    Transact {
        range: RangeId,
        changes: Changes,
        request: ReqNo,
    },
    /// The transaction has this number.
    Committed {
        request: ReqNo,
        number: u64,
    },
    Get {
        range: RangeId,
        key: Bytes,
        request: ReqNo,
    },
    Value {
        request: ReqNo,
        value: Option<Bytes>,
    },
}

/// What a packet says.
pub enum Body {
    Append(AppendBody),
    Check(CheckBody),
    Seal(SealBody),
    Read(ReadBody),
    Stream(StreamBody),
    Map(MapBody),
    Table(TableBody),
}

// Written out, so that a crate above that lets one go has no proof of what is in it.
impl Drop for Body {
    fn drop(self) {
        match self {
            Body::Append(_) => {}
            Body::Check(_) => {}
            Body::Seal(_) => {}
            Body::Read(_) => {}
            Body::Stream(_) => {}
            Body::Map(_) => {}
            Body::Table(_) => {}
        }
    }
}
