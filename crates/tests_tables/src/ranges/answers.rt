//! The answers that a range gets.
ghost use Rattle.std.specs.Prelude.{◌≡◌, Some, IfOk};
ghost use Rattle.model_partition.specs.Answering.{answered_number};

use crate::asking::PLACES;
use block_types::{Group, Groups};
use std::alloc::Global;
use std::test::Fail;
use wire::{
    AppendBody, Body, ExtentId, OpenedStreams, ReadBody, ReqNo, StreamBody, StreamExtent,
    StreamExtents, StreamList, StreamLists,
};

/// An answer, but for the number that it bears.
pub(crate) enum Answer {
    /// The streams have no extent.
    Empty,
    /// The metadata has one extent, sealed at this length.
    Metadata(u32),
    /// The log has one extent, sealed at this length.
    Log(u32),
    /// One group, of one block with this text.
    Group(&'static [u8]),
    Confirmed,
    /// The extent 7 is the log's last.
    Extended,
}

fn no_extent(alloc: Global) -> StreamList {
    StreamList {
        base: 0,
        extents: StreamExtents {
            items: Vec::new(alloc),
        },
    }
}

fn one_extent(alloc: Global, length: u32) -> Result<StreamList, Fail> {
    let mut extents = Vec::new(alloc);
    extents.push(StreamExtent {
        extent: ExtentId(7),
        places: PLACES,
        length: Some(length),
    })?;
    Ok(StreamList {
        base: 0,
        extents: StreamExtents { items: extents },
    })
}

fn opened(
    alloc: Global,
    request: ReqNo,
    metadata: StreamList,
    log: StreamList,
) -> Result<Body, Fail>
    ensures { IfOk result (λ body. answered_number body ≡ Some request) }
{
    let lists = StreamLists {
        metadata,
        log,
        row_data: no_extent(alloc),
        blob_data: no_extent(alloc),
    };
    Ok(Body::Stream(StreamBody::Opened {
        request,
        streams: OpenedStreams::of(alloc, lists)?,
    }))
}

fn groups(alloc: Global, text: &[u8]) -> Result<Groups, Fail> {
    let mut texts = Vec::new(alloc);
    texts.push(text.to_vec(alloc)?)?;
    let mut groups = Vec::new(alloc);
    groups.push(Group::new(alloc, texts)?)?;
    Ok(Groups { items: groups })
}

fn group(request: ReqNo, groups: Groups) -> Body
    ensures { answered_number result ≡ Some request }
{
    Body::Read(ReadBody::Groups {
        request,
        extent: ExtentId(7),
        groups,
    })
}

fn confirmed(request: ReqNo) -> Body
    ensures { answered_number result ≡ Some request }
{
    Body::Stream(StreamBody::Confirmed { request })
}

fn extended(request: ReqNo) -> Body
    ensures { answered_number result ≡ Some request }
{
    Body::Stream(StreamBody::Extended {
        request,
        extent: ExtentId(7),
        places: PLACES,
    })
}

/// The answer that a group stands at the offset of the extent 7.
pub(crate) fn appended(request: ReqNo, offset: u32) -> Body {
    Body::Append(AppendBody::Appended {
        request,
        extent: ExtentId(7),
        offset,
    })
}

/// The body of an answer to the request of this number.
pub(crate) fn body_of(alloc: Global, request: ReqNo, answer: &Answer) -> Result<Body, Fail>
    ensures { IfOk result (λ body. answered_number body ≡ Some request) }
{
    match answer {
        Answer::Empty => opened(alloc, request, no_extent(alloc), no_extent(alloc)),
        Answer::Metadata(length) => {
            let metadata = one_extent(alloc, *length)?;
            opened(alloc, request, metadata, no_extent(alloc))
        }
        Answer::Log(length) => {
            let log = one_extent(alloc, *length)?;
            opened(alloc, request, no_extent(alloc), log)
        }
        Answer::Group(text) => Ok(group(request, groups(alloc, text)?)),
        Answer::Confirmed => Ok(confirmed(request)),
        Answer::Extended => Ok(extended(request)),
    }
}
