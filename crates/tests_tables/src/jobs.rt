//! What ranges that are split or merged are answered, and what is sent for them.
ghost use Rattle.std.specs.Prelude.{◌≡◌, Some};
ghost use Rattle.model_partition.specs.Answering.{answered_number};

use crate::asking::PLACES;
use wire::{
    AppendBody, Body, ExtentId, MapBody, Packet, RangeId, Refusal, ReqNo, SealBody, StreamBody,
};

/// An answer, but for the number that it bears.
pub(crate) enum Answer {
    /// The extent of this number is the stream's last.
    Extended(u64),
    /// The group stands at the front of the extent of this number.
    Appended(u64),
    Trimmed,
    /// The map has numbered the two ranges 2 and 3.
    SplitBegun,
    /// The map has numbered the new range 4.
    MergeBegun,
    /// The extent of this number is sealed.
    SealedIs(u64),
    Modified,
    Created,
    SplitDone,
    MergeDone,
    Refused(Refusal),
}

fn extended(request: ReqNo, extent: u64) -> Body
    ensures { answered_number result ≡ Some request }
{
    Body::Stream(StreamBody::Extended {
        request,
        extent: ExtentId(extent),
        places: PLACES,
    })
}

fn appended(request: ReqNo, extent: u64) -> Body
    ensures { answered_number result ≡ Some request }
{
    Body::Append(AppendBody::Appended {
        request,
        extent: ExtentId(extent),
        offset: 0,
    })
}

fn split_begun(request: ReqNo) -> Body
    ensures { answered_number result ≡ Some request }
{
    Body::Map(MapBody::SplitBegun {
        request,
        low: RangeId(2),
        high: RangeId(3),
    })
}

fn merge_begun(request: ReqNo) -> Body
    ensures { answered_number result ≡ Some request }
{
    Body::Map(MapBody::MergeBegun {
        request,
        range: RangeId(4),
    })
}

fn sealed_is(request: ReqNo, extent: u64) -> Body
    ensures { answered_number result ≡ Some request }
{
    Body::Seal(SealBody::SealedIs {
        request,
        extent: ExtentId(extent),
        length: 100,
    })
}

/// The body of an answer to the request of this number.
pub(crate) fn body_of(request: ReqNo, answer: &Answer) -> Body
    ensures { answered_number result ≡ Some request }
{
    match answer {
        Answer::Extended(extent) => extended(request, *extent),
        Answer::Appended(extent) => appended(request, *extent),
        Answer::Trimmed => Body::Stream(StreamBody::Trimmed { request }),
        Answer::SplitBegun => split_begun(request),
        Answer::MergeBegun => merge_begun(request),
        Answer::SealedIs(extent) => sealed_is(request, *extent),
        Answer::Modified => Body::Stream(StreamBody::Modified { request }),
        Answer::Created => Body::Stream(StreamBody::Created { request }),
        Answer::MergeDone => Body::Map(MapBody::MergeDone { request }),
        Answer::SplitDone => Body::Map(MapBody::SplitDone { request }),
        Answer::Refused(refusal) => Body::Append(AppendBody::Refused {
            request,
            refusal: *refusal,
        }),
    }
}

/// What is sent first.
#[derive(Clone, Copy, PartialEq, Eq)]
pub(crate) enum Sends {
    Nothing,
    BeginSplit,
    BeginMerge,
    SealExtent,
    MultiModify,
    CreateStream,
    CompleteSplit,
    CompleteMerge,
    Append,
    Extend,
    Other,
}

fn map_sends(body: &MapBody) -> Sends {
    match body {
        MapBody::BeginSplit { .. } => Sends::BeginSplit,
        MapBody::BeginMerge { .. } => Sends::BeginMerge,
        MapBody::CompleteSplit { .. } => Sends::CompleteSplit,
        MapBody::CompleteMerge { .. } => Sends::CompleteMerge,
        _ => Sends::Other,
    }
}

fn stream_sends(body: &StreamBody) -> Sends {
    match body {
        StreamBody::MultiModify { .. } => Sends::MultiModify,
        StreamBody::CreateStream { .. } => Sends::CreateStream,
        StreamBody::Extend { .. } => Sends::Extend,
        _ => Sends::Other,
    }
}

/// What the first packet is.
pub(crate) fn sends_of(packets: &[Packet]) -> Sends {
    match packets {
        [] => Sends::Nothing,
        [packet, ..] => match &packet.body {
            Body::Map(body) => map_sends(body),
            Body::Stream(body) => stream_sends(body),
            Body::Seal(SealBody::SealExtent { .. }) => Sends::SealExtent,
            Body::Append(AppendBody::Append { .. }) => Sends::Append,
            _ => Sends::Other,
        },
    }
}
