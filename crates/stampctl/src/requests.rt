//! What a user asks: of the metadata stream of range 0, and of its extent 1.
use block_types::Nodes;
use bytes::Bytes;
use std::alloc::{AllocError, Global};
use wire::{
    AppendBody, Blocks, Body, ExtentId, Fence, RangeId, ReadBody, ReqNo, SealBody, StreamBody,
    StreamKind, StreamName,
};

/// The nodes of each extent.
pub(crate) const PLACES: Nodes = Nodes {
    primary: 1,
    second: 2,
    third: 3,
};

#[derive(Clone, Copy)]
pub(crate) enum Ask {
    Create,
    /// The first extent of the stream.
    Extend,
    /// An append of "abc".
    Append,
    Seal,
    /// The groups of a sealed replica up to this length.
    Content(u32),
}

const REQUEST: ReqNo = ReqNo::User { user: 7, ticket: 0 };

fn metadata() -> StreamName {
    StreamName {
        range: RangeId(0),
        kind: StreamKind::Metadata,
    }
}

fn create() -> StreamBody {
    StreamBody::CreateStream {
        stream: metadata(),
        fence: Fence(0),
        request: REQUEST,
    }
}

fn extend() -> StreamBody {
    StreamBody::Extend {
        stream: metadata(),
        generation: Fence(0),
        last: None,
        pick: PLACES,
        request: REQUEST,
    }
}

/// The one block "abc".
pub(crate) fn abc(alloc: Global) -> Result<Blocks, AllocError> {
    let mut blocks = Vec::new(alloc);
    blocks.push(Bytes::copy_from_slice(alloc, b"abc")?)?;
    Blocks::of(blocks)
}

fn append(blocks: Blocks) -> AppendBody {
    AppendBody::Append {
        extent: ExtentId(1),
        generation: Fence(0),
        blocks,
        request: REQUEST,
    }
}

fn seal() -> SealBody {
    SealBody::SealExtent {
        extent: ExtentId(1),
        request: REQUEST,
    }
}

fn content(upto: u32) -> ReadBody {
    ReadBody::ReadGroups {
        extent: ExtentId(1),
        upto,
        sealed: true,
        request: REQUEST,
    }
}

pub(crate) fn body_of(alloc: Global, ask: Ask) -> Result<Body, AllocError> {
    match ask {
        Ask::Create => Ok(Body::Stream(create())),
        Ask::Extend => Ok(Body::Stream(extend())),
        Ask::Append => Ok(Body::Append(append(abc(alloc)?))),
        Ask::Seal => Ok(Body::Seal(seal())),
        Ask::Content(upto) => Ok(Body::Read(content(upto))),
    }
}
