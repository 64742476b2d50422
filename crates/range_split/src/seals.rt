//! The last extents of the range's streams, which are sealed one after the other.
ghost use Rattle.std.specs.Prelude.{◌≡◌, ◌∷◌, ◌<◌, ◌+◌, ◌^◌, [], IfOk, OnErr};
ghost use Rattle.wire.specs.declared.streams.StreamKind.TheVariants as kinds;
ghost use Rattle.client.specs.Client.{sealed_last};
ghost use Rattle.model_partition.specs.Range as ranges;
ghost use Rattle.model_partition.specs.Splits as rules;
ghost use Rattle.range_split.specs.Steps.{outcome, IsShort};

use crate::built_streams::all_streams;
use crate::packets::{build_packet, seal_packet};
use crate::taken::SplitTaken;
use model_partition::{ServerContext, SplitJob, SplitPhase, next_request};
use range_core::RangeState;
use std::alloc::{AllocError, Global};
use wire::{ExtentId, Modifies, Packet, StreamExtent, StreamKind};

/// An extent of a stream that is sealed at a length, in bytes.
#[derive(Clone, Copy)]
pub(crate) struct SealedExtent {
    pub(crate) kind: StreamKind,
    pub(crate) extent: ExtentId,
    pub(crate) length: u32,
}

/// The extents of one of the range's streams.
pub(crate) fn extents_of(state: &RangeState, kind: StreamKind) -> &[StreamExtent]
    ensures { result.now ≡ rules.extents_of state.now kind }
{
    match kind {
        StreamKind::Metadata => &state.content.metadata.extents,
        StreamKind::Log => &state.content.log.extents,
        StreamKind::RowData => &state.content.rows.extents,
        StreamKind::BlobData => &state.content.blob_data.extents.items,
    }
}

/// The last extent of a list, where it is not known to be sealed.
pub(crate) fn open_last(extents: &[StreamExtent]) -> Option<ExtentId>
    ensures { result ≡ rules.open_last extents.now }
{
    match extents.last() {
        None => None,
        Some(last) => match last.length {
            None => Some(last.extent),
            Some(_length) => None,
        },
    }
}

/// The last extent of this stream where it is open, else what comes of the later streams.
fn open_or(
    state: &RangeState,
    kind: StreamKind,
    later: Option<(StreamKind, ExtentId)>,
) -> Option<(StreamKind, ExtentId)>
    ensures { result ≡ rules.or_kind kind (rules.open_last (rules.extents_of state.now kind)) later }
{
    match open_last(extents_of(state, kind)) {
        Some(extent) => Some((kind, extent)),
        None => later,
    }
}

fn blobs_open(state: &RangeState) -> Option<(StreamKind, ExtentId)>
    ensures { result ≡ rules.first_open state.now (rules.kinds_after kinds.RowData) }
{
    open_or(state, StreamKind::BlobData, None)
}

fn rows_open(state: &RangeState) -> Option<(StreamKind, ExtentId)>
    ensures { result ≡ rules.first_open state.now (rules.kinds_after kinds.Log) }
{
    let later = blobs_open(state);
    open_or(state, StreamKind::RowData, later)
}

fn log_open(state: &RangeState) -> Option<(StreamKind, ExtentId)>
    ensures { result ≡ rules.first_open state.now (rules.kinds_after kinds.Metadata) }
{
    let later = rows_open(state);
    open_or(state, StreamKind::Log, later)
}

/// The first open extent of the streams after this one.
fn first_open_after(state: &RangeState, kind: StreamKind) -> Option<(StreamKind, ExtentId)>
    ensures { result ≡ rules.first_open state.now (rules.kinds_after kind) }
{
    match kind {
        StreamKind::Metadata => log_open(state),
        StreamKind::Log => rows_open(state),
        StreamKind::RowData => blobs_open(state),
        StreamKind::BlobData => None,
    }
}

/// The first open extent of all four.
pub(crate) fn first_open(state: &RangeState) -> Option<(StreamKind, ExtentId)>
    ensures { result ≡ rules.first_open state.now rules.all_kinds }
{
    let others = log_open(state);
    open_or(state, StreamKind::Metadata, others)
}

/// The open extent is to be sealed; where there is none the streams are to be built.
pub(crate) fn seals_or_builds(
    context: &ServerContext,
    job: &mut SplitJob,
    found: Option<(StreamKind, ExtentId)>,
    streams: Modifies,
) -> Packet
    requires streams { streams ≡ rules.all_streams job.old }
    ensures { (r : ranges.RangeState) → rules.seals_or_builds context.now r job.old found ≡ rules.goes context.now r job.new (result ∷ []) }
{
    let request = next_request(context);
    match found {
        None => {
            let packet = build_packet(context, job, streams, &request);
            job.phase = SplitPhase::Build { request };
            packet
        }
        Some((kind, extent)) => {
            job.phase = SplitPhase::Seal { kind, request };
            seal_packet(context, extent, &request)
        }
    }
}

fn seal_last(extents: &mut Vec<StreamExtent>, length: u32)
    ensures { extents.new.items ≡ sealed_last extents.old.items length }
{
    let count = extents.len();
    if count == 0 {
        return;
    }
    let mut sealed = extents[count - 1];
    sealed.length = Some(length);
    extents[count - 1] = sealed;
}

/// The length of the last extent of a stream is known.
fn seal_last_of(state: &mut RangeState, kind: StreamKind, length: u32)
    ensures { state.new ≡ rules.with_last_sealed state.old kind length }
{
    match kind {
        StreamKind::Metadata => seal_last(&mut state.content.metadata.extents, length),
        StreamKind::Log => seal_last(&mut state.content.log.extents, length),
        StreamKind::RowData => seal_last(&mut state.content.rows.extents, length),
        StreamKind::BlobData => seal_last(&mut state.content.blob_data.extents.items, length),
    }
}

/// Whether the extent is the last of a stream, and open.
fn is_open_last(state: &RangeState, kind: StreamKind, extent: ExtentId) -> bool
    ensures { result ≡ rules.is_extent extent (rules.open_last (rules.extents_of state.now kind)) }
{
    match open_last(extents_of(state, kind)) {
        None => false,
        Some(open) => open.0 == extent.0,
    }
}

/// The last extent of a stream is sealed: its length is known from now on, and the next open one is to be sealed, or the streams are
/// to be built. Another extent changes nothing. Where memory runs out (22) nothing has changed.
pub(crate) fn last_sealed(
    alloc: Global,
    context: &ServerContext,
    state: &mut RangeState,
    job: &mut SplitJob,
    sealed: SealedExtent,
) -> Result<SplitTaken, AllocError>
    requires numbers { context.now.count + 1 < 2 ^ 64 }
    ensures ok { IfOk result (λ t. rules.last_sealed context.now state.old job.old sealed.kind sealed.extent sealed.length ≡ outcome t state.new job.new) }
    ensures err { OnErr result (state.new ≡ state.old) }
    ensures kept { OnErr result (job.new ≡ job.old) }
    ensures short { IfOk result IsShort }
{
    if !is_open_last(state, sealed.kind, sealed.extent) {
        return Ok(SplitTaken::rests(alloc, context.count));
    }
    let streams = all_streams(alloc, job)?;
    let mut packets = Vec::with_capacity(alloc, 1)?;
    seal_last_of(state, sealed.kind, sealed.length);
    let found = first_open_after(state, sealed.kind);
    packets.push_reserved(seals_or_builds(context, job, found, streams));
    Ok(SplitTaken::sends(context.count + 1, packets))
}
