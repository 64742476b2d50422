//! The fields of each kind of packet, the request number first.
use crate::field::Value::{
    Actor, Flag, Holder, Key, List, Number, OrNone, Places, Request, Stream,
};
use crate::field::{Value, write_fields};
use crate::lists::write_built;
use crate::sizes::{size_of_blocks, size_of_changes, size_of_groups};
use std::fmt;
use wire::{
    ActorId, AppendBody, Body, CheckBody, Fence, MapBody, RangeId, ReadBody, ReqNo, SealBody,
    StreamBody, TableBody,
};

/// What follows the kind of a packet on its line, with no blank before it: the fields that tell it apart, at least one.
#[derive(Clone, Copy)]
pub struct PacketFields<'a>(pub &'a Body);

impl fmt::Display for PacketFields<'_> {
    fn fmt<W: fmt::Write>(&self, f: &mut fmt::Formatter<W>) -> fmt::Result {
        match self.0 {
            Body::Append(body) => write_append(f, body),
            Body::Check(body) => write_check(f, body),
            Body::Seal(body) => write_seal(f, body),
            Body::Read(body) => write_read(f, body),
            Body::Stream(body) => write_stream(f, body),
            Body::Map(body) => write_map(f, body),
            Body::Table(body) => write_table(f, body),
        }
    }
}

fn write_append<W: fmt::Write>(f: &mut fmt::Formatter<W>, body: &AppendBody) -> fmt::Result {
    match body {
        AppendBody::Append {
            extent,
            generation,
            blocks,
            request,
        } => write_fields(
            f,
            &[
                ("request", Request(request)),
                ("extent", Number(extent.0)),
                ("generation", Number(generation.0)),
                ("blocks", Number(blocks.as_slice().len() as u64)),
                ("bytes", Number(size_of_blocks(blocks.as_slice()))),
            ],
        ),
        AppendBody::Put {
            extent,
            offset,
            group,
        } => write_fields(
            f,
            &[
                ("extent", Number(extent.0)),
                ("offset", Number(u64::from(*offset))),
                ("blocks", Number(group.blocks().len() as u64)),
                ("bytes", Number(u64::from(group.size()))),
            ],
        ),
        AppendBody::Have { extent, length } => write_fields(
            f,
            &[
                ("extent", Number(extent.0)),
                ("length", Number(u64::from(*length))),
            ],
        ),
        AppendBody::Appended {
            request,
            extent,
            offset,
        } => write_fields(
            f,
            &[
                ("request", Request(request)),
                ("extent", Number(extent.0)),
                ("offset", Number(u64::from(*offset))),
            ],
        ),
        AppendBody::Refused { request, refusal } => write_fields(
            f,
            &[
                ("request", Request(request)),
                ("refusal", Value::Refusal(*refusal)),
            ],
        ),
    }
}

fn write_check<W: fmt::Write>(f: &mut fmt::Formatter<W>, body: &CheckBody) -> fmt::Result {
    match body {
        CheckBody::Check {
            extent,
            generation,
            request,
        } => write_fields(
            f,
            &[
                ("request", Request(request)),
                ("extent", Number(extent.0)),
                ("generation", Number(generation.0)),
            ],
        ),
        CheckBody::Probe { extent, generation } => write_fields(
            f,
            &[
                ("extent", Number(extent.0)),
                ("generation", Number(generation.0)),
            ],
        ),
        CheckBody::Probed {
            extent,
            generation,
            length,
        } => write_fields(
            f,
            &[
                ("extent", Number(extent.0)),
                ("generation", Number(generation.0)),
                ("length", Number(u64::from(*length))),
            ],
        ),
        CheckBody::Checked { request, length } => write_fields(
            f,
            &[
                ("request", Request(request)),
                ("length", OrNone(length.map(u64::from))),
            ],
        ),
    }
}

fn write_seal<W: fmt::Write>(f: &mut fmt::Formatter<W>, body: &SealBody) -> fmt::Result {
    match body {
        SealBody::Make {
            extent,
            fence,
            target,
            places,
        } => write_fields(
            f,
            &[
                ("extent", Number(extent.0)),
                ("fence", Number(fence.0)),
                ("target", Number(u64::from(*target))),
                ("places", Places(places)),
            ],
        ),
        SealBody::SealExtent { extent, request } => write_fields(
            f,
            &[("request", Request(request)), ("extent", Number(extent.0))],
        ),
        SealBody::SealedIs {
            request,
            extent,
            length,
        } => write_fields(
            f,
            &[
                ("request", Request(request)),
                ("extent", Number(extent.0)),
                ("length", Number(u64::from(*length))),
            ],
        ),
        SealBody::Freeze { extent } | SealBody::IsSealed { extent } => write_fields(
            f,
            &[("extent", Number(extent.0))],
        ),
        SealBody::Frozen { extent, length }
        | SealBody::Seal { extent, length }
        | SealBody::Short { extent, length } => write_fields(
            f,
            &[
                ("extent", Number(extent.0)),
                ("length", Number(u64::from(*length))),
            ],
        ),
        SealBody::SendTail { extent, from, to } => write_fields(
            f,
            &[
                ("extent", Number(extent.0)),
                ("from", Number(u64::from(*from))),
                ("to", Actor(ActorId::Node(*to))),
            ],
        ),
        SealBody::Tail {
            extent,
            from,
            length,
            groups,
        } => write_fields(
            f,
            &[
                ("extent", Number(extent.0)),
                ("from", Number(u64::from(*from))),
                ("length", Number(u64::from(*length))),
                ("groups", Number(groups.items.len() as u64)),
                ("bytes", Number(size_of_groups(&groups.items))),
            ],
        ),
    }
}

fn write_read<W: fmt::Write>(f: &mut fmt::Formatter<W>, body: &ReadBody) -> fmt::Result {
    match body {
        ReadBody::ReadAt {
            extent,
            offset,
            length,
            request,
        } => write_fields(
            f,
            &[
                ("request", Request(request)),
                ("extent", Number(extent.0)),
                ("offset", Number(u64::from(*offset))),
                ("length", Number(u64::from(*length))),
            ],
        ),
        ReadBody::Bytes {
            request,
            extent,
            offset,
            bytes,
        } => write_fields(
            f,
            &[
                ("request", Request(request)),
                ("extent", Number(extent.0)),
                ("offset", Number(u64::from(*offset))),
                ("bytes", Number(bytes.len() as u64)),
            ],
        ),
        ReadBody::ReadGroups {
            extent,
            upto,
            sealed,
            request,
        } => write_fields(
            f,
            &[
                ("request", Request(request)),
                ("extent", Number(extent.0)),
                ("upto", Number(u64::from(*upto))),
                ("sealed", Flag(*sealed)),
            ],
        ),
        ReadBody::Groups {
            request,
            extent,
            groups,
        } => write_fields(
            f,
            &[
                ("request", Request(request)),
                ("extent", Number(extent.0)),
                ("groups", Number(groups.items.len() as u64)),
                ("bytes", Number(size_of_groups(&groups.items))),
            ],
        ),
    }
}

/// The fields of a packet that has nothing but a request number.
fn write_request<W: fmt::Write>(f: &mut fmt::Formatter<W>, request: &ReqNo) -> fmt::Result {
    write_fields(f, &[("request", Request(request))])
}

/// The fields of a packet about a range under a generation.
fn write_range<W: fmt::Write>(
    f: &mut fmt::Formatter<W>,
    request: &ReqNo,
    range: RangeId,
    generation: Fence,
) -> fmt::Result {
    write_fields(
        f,
        &[
            ("request", Request(request)),
            ("range", Number(range.0)),
            ("generation", Number(generation.0)),
        ],
    )
}

fn write_stream<W: fmt::Write>(f: &mut fmt::Formatter<W>, body: &StreamBody) -> fmt::Result {
    match body {
        StreamBody::CreateStream {
            stream,
            fence,
            request,
        } => write_fields(
            f,
            &[
                ("request", Request(request)),
                ("stream", Stream(stream)),
                ("fence", Number(fence.0)),
            ],
        ),
        StreamBody::Created { request }
        | StreamBody::Confirmed { request }
        | StreamBody::Trimmed { request }
        | StreamBody::Modified { request } => write_request(f, request),
        StreamBody::OpenStreams {
            range,
            generation,
            request,
        }
        | StreamBody::Confirm {
            range,
            generation,
            request,
        } => write_range(f, request, *range, *generation),
        StreamBody::Opened { request, streams } => {
            let lists = streams.lists();
            write_fields(
                f,
                &[
                    ("request", Request(request)),
                    ("metadata", List(&lists.metadata)),
                    ("log", List(&lists.log)),
                    ("row_data", List(&lists.row_data)),
                    ("blob_data", List(&lists.blob_data)),
                ],
            )
        }
        StreamBody::Extend {
            stream,
            generation,
            last,
            pick,
            request,
        } => write_fields(
            f,
            &[
                ("request", Request(request)),
                ("stream", Stream(stream)),
                ("generation", Number(generation.0)),
                ("last", OrNone(last.map(|last| last.0))),
                ("pick", Places(pick)),
            ],
        ),
        StreamBody::Extended {
            request,
            extent,
            places,
        } => write_fields(
            f,
            &[
                ("request", Request(request)),
                ("extent", Number(extent.0)),
                ("places", Places(places)),
            ],
        ),
        StreamBody::Trim {
            range,
            generation,
            before,
            to_blob,
            request,
        } => write_fields(
            f,
            &[
                ("request", Request(request)),
                ("range", Number(range.0)),
                ("generation", Number(generation.0)),
                ("before", Number(*before)),
                ("to_blob", Flag(*to_blob)),
            ],
        ),
        StreamBody::MultiModify { list, request } => {
            write_request(f, request)?;
            write_built(f, list)
        }
    }
}

fn write_map<W: fmt::Write>(f: &mut fmt::Formatter<W>, body: &MapBody) -> fmt::Result {
    match body {
        MapBody::Assign {
            range,
            generation,
            until,
        }
        | MapBody::Renew {
            range,
            generation,
            until,
        } => write_fields(
            f,
            &[
                ("range", Number(range.0)),
                ("generation", Number(generation.0)),
                ("until", Number(*until)),
            ],
        ),
        MapBody::Route { key, request } => write_fields(
            f,
            &[("request", Request(request)), ("key", Key(key))],
        ),
        MapBody::RouteIs {
            request,
            range,
            server,
        } => write_fields(
            f,
            &[
                ("request", Request(request)),
                ("range", Number(range.0)),
                ("server", Holder(*server)),
            ],
        ),
        MapBody::BeginSplit {
            range,
            generation,
            key,
            request,
        } => write_fields(
            f,
            &[
                ("request", Request(request)),
                ("range", Number(range.0)),
                ("generation", Number(generation.0)),
                ("key", Key(key)),
            ],
        ),
        MapBody::SplitBegun { request, low, high } => write_fields(
            f,
            &[
                ("request", Request(request)),
                ("low", Number(low.0)),
                ("high", Number(high.0)),
            ],
        ),
        MapBody::CompleteSplit {
            range,
            generation,
            request,
        } => write_range(f, request, *range, *generation),
        MapBody::SplitDone { request } | MapBody::MergeDone { request } => write_request(
            f, request,
        ),
        MapBody::BeginMerge {
            left,
            left_generation,
            right,
            right_generation,
            request,
        }
        | MapBody::CompleteMerge {
            left,
            left_generation,
            right,
            right_generation,
            request,
        } => write_fields(
            f,
            &[
                ("request", Request(request)),
                ("left", Number(left.0)),
                ("left_generation", Number(left_generation.0)),
                ("right", Number(right.0)),
                ("right_generation", Number(right_generation.0)),
            ],
        ),
        MapBody::MergeBegun { request, range } => write_fields(
            f,
            &[("request", Request(request)), ("range", Number(range.0))],
        ),
    }
}

fn write_table<W: fmt::Write>(f: &mut fmt::Formatter<W>, body: &TableBody) -> fmt::Result {
    match body {
        TableBody::Transact {
            range,
            changes,
            request,
        } => write_fields(
            f,
            &[
                ("request", Request(request)),
                ("range", Number(range.0)),
                ("changes", Number(changes.as_slice().len() as u64)),
                ("bytes", Number(size_of_changes(changes.as_slice()))),
            ],
        ),
        TableBody::Committed { request, number } => write_fields(
            f,
            &[("request", Request(request)), ("number", Number(*number))],
        ),
        TableBody::Get {
            range,
            key,
            request,
        } => write_fields(
            f,
            &[
                ("request", Request(request)),
                ("range", Number(range.0)),
                ("key", Key(key)),
            ],
        ),
        TableBody::Value { request, value } => write_fields(
            f,
            &[
                ("request", Request(request)),
                (
                    "value",
                    OrNone(value.as_ref().map(|value| value.len() as u64)),
                ),
            ],
        ),
    }
}
