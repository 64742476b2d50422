//! The records of the stream manager.
use block_types::Nodes;
use wire::{ExtentId, Fence, Modifies, RangeId, StreamName};

/// What the manager writes down. Its bytes stand after the kind byte of a manage record.
#[derive(Drop)]
pub enum ManagerRecord {
    /// 1, the first record: how many nodes there are, and the target of each extent in bytes.
    First {
        nodes: u8,
        target: u32,
    },
    /// 2: a new stream, with its fence.
    CreateStream {
        stream: StreamName,
        fence: Fence,
    },
    /// 3: the four streams of a range listen to no generation below this one.
    OpenStreams {
        range: RangeId,
        generation: Fence,
    },
    /// 4: a new extent at the end of a stream, made with this fence on these places. Extents are numbered from 1.
    Extend {
        stream: StreamName,
        generation: Fence,
        pick: Nodes,
    },
    /// 5: an extent is sealed at this length, in bytes.
    Seal {
        extent: ExtentId,
        length: u32,
    },
    /// 6: the extents of a range's log below an index leave it, and go to the end of its blob stream where they are kept.
    Trim {
        range: RangeId,
        before: u64,
        to_blob: bool,
    },
    /// 7: streams that are built from the lists of others, in order.
    MultiModify {
        list: Modifies,
    },
}
