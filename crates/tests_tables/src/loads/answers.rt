//! The answers that a load gets.
use crate::asking::{extent, number};
use crate::records::groups;
use block_types::Groups;
use bytes::Bytes;
use std::alloc::Global;
use std::test::Fail;
use wire::{
    AppendBody, Body, CheckBody, ExtentId, OpenedStreams, ReadBody, Refusal, ReqNo, StreamBody,
    StreamExtents, StreamList, StreamLists,
};

/// An answer, but for the number that it bears.
pub(crate) enum Answer {
    /// The streams have no extent.
    Empty,
    /// The metadata has one extent, sealed at this length.
    Metadata(u32),
    /// The metadata has the extent 7, sealed at this length, and so has row data.
    MetadataAndRows(u32),
    /// The log has one extent, of this length where it is sealed.
    Log(Option<u32>),
    /// One group of the extent 7, of one block with this text.
    Group(&'static [u8]),
    /// These bytes stand at 11 of the extent 7.
    Bytes(&'static [u8]),
    /// The extent has this length on all places.
    Checked(u32),
    Stale,
    Confirmed,
}

// These calls pass no contract on, so that a test is proved from what it reads alone.
fn no_extent(alloc: Global) -> StreamList {
    StreamList {
        base: 0,
        extents: StreamExtents {
            items: Vec::new(alloc),
        },
    }
}

fn one_extent(alloc: Global, length: Option<u32>) -> Result<StreamList, Fail> {
    let mut extents = Vec::new(alloc);
    extents.push(extent(length))?;
    Ok(StreamList {
        base: 0,
        extents: StreamExtents { items: extents },
    })
}

fn opened(
    alloc: Global,
    request: ReqNo,
    metadata: StreamList,
    log: StreamList,
    row_data: StreamList,
) -> Result<Body, Fail> {
    let lists = StreamLists {
        metadata,
        log,
        row_data,
        blob_data: no_extent(alloc),
    };
    Ok(Body::Stream(StreamBody::Opened {
        request,
        streams: OpenedStreams::of(alloc, lists)?,
    }))
}

/// The streams of a range whose metadata has one extent of this length, and whose log has none.
fn metadata_opened(
    alloc: Global,
    request: ReqNo,
    length: u32,
    row_data: StreamList,
) -> Result<Body, Fail> {
    let metadata = one_extent(alloc, Some(length))?;
    opened(alloc, request, metadata, no_extent(alloc), row_data)
}

/// The streams of a range whose log has one extent, and whose metadata has none.
fn log_opened(alloc: Global, request: ReqNo, length: Option<u32>) -> Result<Body, Fail> {
    let log = one_extent(alloc, length)?;
    opened(alloc, request, no_extent(alloc), log, no_extent(alloc))
}

fn read(alloc: Global, request: ReqNo, text: &[u8]) -> Result<Body, Fail> {
    Ok(Body::Read(ReadBody::Groups {
        request,
        extent: ExtentId(7),
        groups: Groups {
            items: groups(alloc, text, &[])?,
        },
    }))
}

/// The body of an answer to the request of this number.
pub(crate) fn body_of(alloc: Global, asked: u32, answer: &Answer) -> Result<Body, Fail> {
    let request = number(u64::from(asked));
    match answer {
        Answer::Empty => opened(
            alloc,
            request,
            no_extent(alloc),
            no_extent(alloc),
            no_extent(alloc),
        ),
        Answer::Metadata(length) => metadata_opened(alloc, request, *length, no_extent(alloc)),
        Answer::MetadataAndRows(length) => {
            metadata_opened(alloc, request, *length, one_extent(alloc, None)?)
        }
        Answer::Log(length) => log_opened(alloc, request, *length),
        Answer::Group(text) => read(alloc, request, text),
        Answer::Bytes(text) => Ok(Body::Read(ReadBody::Bytes {
            request,
            extent: ExtentId(7),
            offset: 11,
            bytes: Bytes::from_static(text),
        })),
        Answer::Checked(length) => Ok(Body::Check(CheckBody::Checked {
            request,
            length: Some(*length),
        })),
        Answer::Stale => Ok(Body::Append(AppendBody::Refused {
            request,
            refusal: Refusal::Stale,
        })),
        Answer::Confirmed => Ok(Body::Stream(StreamBody::Confirmed { request })),
    }
}
