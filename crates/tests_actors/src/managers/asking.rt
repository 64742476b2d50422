//! What the cases ask of a manager. Where no extent is said, it is extent 1.
use block_types::Nodes;
use std::alloc::Global;
use wire::{
    Body, ExtentId, Fence, Modifies, Modify, RangeId, ReqNo, SealBody, ServerNo, Source, Sources,
    StreamBody, StreamKind, StreamName,
};

/// A packet to the manager, but for who sends it.
#[derive(Clone, Copy)]
pub enum Ask {
    /// The range of the stream.
    Create(u64),
    /// One more extent of range 0, after this last one, with this third place.
    Extend(Option<u64>, u8),
    /// The extent.
    SealExtent(u64),
    /// The length.
    Frozen(u32),
    IsSealed,
    /// The length.
    Short(u32),
    /// The range and the generation.
    Open(u64, u64),
    /// The range and the generation.
    Confirm(u64, u64),
    /// One more extent of range 1, for this generation, after this last one, with this third place.
    Lengthen(u64, Option<u64>, u8),
    /// One more extent of the log of range 1, for generation 4, after this last one.
    LengthenLog(Option<u64>),
    /// The range, the generation, the index, and whether what leaves is kept in the blob stream.
    Trim(u64, u64, u64, bool),
    /// Logs that are built from the lists of others.
    Modify(&'static [Entry]),
}

/// The range whose log is built, and the ranges whose logs it is built from, each with the generation that is named.
pub type Entry = (u64, &'static [(u64, u64)]);

const USER_REQUEST: ReqNo = ReqNo::User { user: 7, ticket: 0 };

fn server_request() -> ReqNo {
    ReqNo::Server {
        server: ServerNo(2),
        session: 1,
        count: 1,
    }
}

fn row_data(range: u64) -> StreamName {
    StreamName {
        range: RangeId(range),
        kind: StreamKind::RowData,
    }
}

fn log(range: u64) -> StreamName {
    StreamName {
        range: RangeId(range),
        kind: StreamKind::Log,
    }
}

fn create(range: u64) -> StreamBody {
    StreamBody::CreateStream {
        stream: row_data(range),
        fence: Fence(0),
        request: USER_REQUEST,
    }
}

fn extend(
    stream: StreamName,
    generation: u64,
    last: Option<u64>,
    third: u8,
    request: ReqNo,
) -> StreamBody {
    StreamBody::Extend {
        stream,
        generation: Fence(generation),
        last: last.map(|number| ExtentId(number)),
        pick: Nodes {
            primary: 1,
            second: 2,
            third,
        },
        request,
    }
}

fn open(range: u64, generation: u64) -> StreamBody {
    StreamBody::OpenStreams {
        range: RangeId(range),
        generation: Fence(generation),
        request: server_request(),
    }
}

fn confirm(range: u64, generation: u64) -> StreamBody {
    StreamBody::Confirm {
        range: RangeId(range),
        generation: Fence(generation),
        request: server_request(),
    }
}

fn trim(range: u64, generation: u64, before: u64, to_blob: bool) -> StreamBody {
    StreamBody::Trim {
        range: RangeId(range),
        generation: Fence(generation),
        before,
        to_blob,
        request: server_request(),
    }
}

// Without memory a list is cut short, and the case fails.
fn sources_of(alloc: Global, sources: &[(u64, u64)]) -> Sources {
    let mut items = Vec::new(alloc);
    for (range, generation) in sources {
        let source = Source {
            stream: log(*range),
            generation: Fence(*generation),
        };
        if items.push(source).is_err() {
            break;
        }
    }
    Sources { items }
}

fn list_of(alloc: Global, entries: &[Entry]) -> Modifies {
    let mut items = Vec::new(alloc);
    for (range, sources) in entries {
        let entry = Modify {
            stream: log(*range),
            sources: sources_of(alloc, sources),
        };
        if items.push(entry).is_err() {
            break;
        }
    }
    Modifies { items }
}

fn modify(alloc: Global, entries: &[Entry]) -> StreamBody {
    StreamBody::MultiModify {
        list: list_of(alloc, entries),
        request: server_request(),
    }
}

fn seal_extent(extent: u64) -> SealBody {
    SealBody::SealExtent {
        extent: ExtentId(extent),
        request: USER_REQUEST,
    }
}

pub fn body_of(alloc: Global, ask: Ask) -> Body {
    let extent = ExtentId(1);
    match ask {
        Ask::Create(range) => Body::Stream(create(range)),
        Ask::Extend(last, third) => Body::Stream(extend(row_data(0), 0, last, third, USER_REQUEST)),
        Ask::SealExtent(extent) => Body::Seal(seal_extent(extent)),
        Ask::Frozen(length) => Body::Seal(SealBody::Frozen { extent, length }),
        Ask::IsSealed => Body::Seal(SealBody::IsSealed { extent }),
        Ask::Short(length) => Body::Seal(SealBody::Short { extent, length }),
        Ask::Open(range, generation) => Body::Stream(open(range, generation)),
        Ask::Confirm(range, generation) => Body::Stream(confirm(range, generation)),
        Ask::Lengthen(generation, last, third) => {
            Body::Stream(extend(row_data(1), generation, last, third, server_request()))
        }
        Ask::LengthenLog(last) => Body::Stream(extend(log(1), 4, last, 3, server_request())),
        Ask::Trim(range, generation, before, to_blob) => {
            Body::Stream(trim(range, generation, before, to_blob))
        }
        Ask::Modify(entries) => Body::Stream(modify(alloc, entries)),
    }
}
