//! The last extents of the logs and of the row data of the two ranges, which are sealed one after the other.
ghost use Rattle.std.specs.Prelude.{◌≡◌, ◌∷◌, ◌<◌, ◌+◌, ◌^◌, [], IfOk, OnErr};
ghost use Rattle.wire.specs.declared.streams.StreamKind.TheVariants as kinds;
ghost use Rattle.client.specs.Client.{sealed_last};
ghost use Rattle.model_partition.specs.Range as ranges;
ghost use Rattle.model_partition.specs.Splits as splits;
ghost use Rattle.model_partition.specs.declared.merge_job.MergeSide.TheVariants as sides;
ghost use Rattle.model_partition.specs.Merges as rules;
ghost use Rattle.range_merge.specs.Steps.{outcome, IsShort};

use crate::built_streams::all_streams;
use crate::packets::{build_packet, seal_packet};
use crate::taken::MergeTaken;
use model_partition::{MergeJob, MergePhase, MergeSide, ServerContext, next_request};
use range_core::RangeState;
use std::alloc::{AllocError, Global};
use wire::{ExtentId, Modifies, Packet, StreamExtent, StreamKind};

/// A stream of one of the two, and its last extent, which is open.
type OpenPart = ((MergeSide, StreamKind), ExtentId);

/// An extent of a stream of one of the two that is sealed at a length, in bytes.
#[derive(Clone, Copy)]
pub(crate) struct SealedPart {
    pub(crate) side: MergeSide,
    pub(crate) kind: StreamKind,
    pub(crate) extent: ExtentId,
    pub(crate) length: u32,
}

fn extents_of(state: &RangeState, kind: StreamKind) -> &[StreamExtent]
    ensures { result.now ≡ splits.extents_of state.now kind }
{
    match kind {
        StreamKind::Metadata => &state.content.metadata.extents,
        StreamKind::Log => &state.content.log.extents,
        StreamKind::RowData => &state.content.rows.extents,
        StreamKind::BlobData => &state.content.blob_data.extents.items,
    }
}

/// The last extent of a stream of a range, where it is not known to be sealed.
fn open_last(state: &RangeState, kind: StreamKind) -> Option<ExtentId>
    ensures { result ≡ splits.open_last (splits.extents_of state.now kind) }
{
    match extents_of(state, kind).last() {
        None => None,
        Some(last) => match last.length {
            None => Some(last.extent),
            Some(_length) => None,
        },
    }
}

/// The same of one of the two.
pub(crate) fn open_part(
    left: &RangeState,
    right: &RangeState,
    side: MergeSide,
    kind: StreamKind,
) -> Option<ExtentId>
    ensures { result ≡ rules.open_part left.now right.now side kind }
{
    match side {
        MergeSide::Left => open_last(left, kind),
        MergeSide::Right => open_last(right, kind),
    }
}

/// The last extent of this stream where it is open, else what comes of the later streams.
fn open_or(
    left: &RangeState,
    right: &RangeState,
    side: MergeSide,
    kind: StreamKind,
    later: Option<OpenPart>,
) -> Option<OpenPart>
    ensures { result ≡ rules.or_part (side, kind) (rules.open_part left.now right.now side kind) later }
{
    match open_part(left, right, side, kind) {
        Some(extent) => Some(((side, kind), extent)),
        None => later,
    }
}

fn right_rows_open(left: &RangeState, right: &RangeState) -> Option<OpenPart>
    ensures { result ≡ rules.first_open left.now right.now (rules.parts_after sides.Right kinds.Log) }
{
    open_or(left, right, MergeSide::Right, StreamKind::RowData, None)
}

fn right_open(left: &RangeState, right: &RangeState) -> Option<OpenPart>
    ensures { result ≡ rules.first_open left.now right.now rules.right_parts }
{
    let later = right_rows_open(left, right);
    open_or(left, right, MergeSide::Right, StreamKind::Log, later)
}

fn left_rows_open(left: &RangeState, right: &RangeState) -> Option<OpenPart>
    ensures { result ≡ rules.first_open left.now right.now (rules.parts_after sides.Left kinds.Log) }
{
    let later = right_open(left, right);
    open_or(left, right, MergeSide::Left, StreamKind::RowData, later)
}

/// The first open extent of the streams after this one.
fn first_open_after(
    left: &RangeState,
    right: &RangeState,
    side: MergeSide,
    kind: StreamKind,
) -> Option<OpenPart>
    ensures { result ≡ rules.first_open left.now right.now (rules.parts_after side kind) }
{
    match side {
        MergeSide::Left => match kind {
            StreamKind::Log => left_rows_open(left, right),
            _ => right_open(left, right),
        },
        MergeSide::Right => match kind {
            StreamKind::Log => right_rows_open(left, right),
            _ => None,
        },
    }
}

/// The first open extent of all.
pub(crate) fn first_open(left: &RangeState, right: &RangeState) -> Option<OpenPart>
    ensures { result ≡ rules.first_open left.now right.now rules.all_parts }
{
    let later = left_rows_open(left, right);
    open_or(left, right, MergeSide::Left, StreamKind::Log, later)
}

/// The open extent is to be sealed; where there is none the streams are to be built.
pub(crate) fn seals_or_builds(
    context: &ServerContext,
    job: &mut MergeJob,
    found: Option<OpenPart>,
    streams: Modifies,
) -> Packet
    ensures { (l r : ranges.RangeState) → streams ≡ rules.all_streams job.old
        → rules.seals_or_builds context.now l r job.old found ≡ rules.goes context.now l r job.new (result ∷ []) }
{
    let request = next_request(context);
    match found {
        None => {
            job.phase = MergePhase::Build { request };
            build_packet(context, streams, &request)
        }
        Some(((side, kind), extent)) => {
            job.phase = MergePhase::Seal {
                side,
                kind,
                request,
            };
            seal_packet(context, extent, &request)
        }
    }
}

fn seal_last(extents: &mut Vec<StreamExtent>, length: u32)
    ensures { extents.new.items ≡ sealed_last extents.old.items length }
{
    let count = extents.len();
    if count == 0 {
        return;
    }
    let mut sealed = extents[count - 1];
    sealed.length = Some(length);
    extents[count - 1] = sealed;
}

/// The length of the last extent of a stream is known.
fn seal_last_of(state: &mut RangeState, kind: StreamKind, length: u32)
    ensures { state.new ≡ splits.with_last_sealed state.old kind length }
{
    match kind {
        StreamKind::Metadata => seal_last(&mut state.content.metadata.extents, length),
        StreamKind::Log => seal_last(&mut state.content.log.extents, length),
        StreamKind::RowData => seal_last(&mut state.content.rows.extents, length),
        StreamKind::BlobData => seal_last(&mut state.content.blob_data.extents.items, length),
    }
}

fn seal_left(left: &mut RangeState, sealed: &SealedPart)
    ensures { left.new ≡ rules.sealed_left left.old sealed.now.side sealed.now.kind sealed.now.length }
{
    if sealed.side == MergeSide::Left {
        seal_last_of(left, sealed.kind, sealed.length);
    }
}

fn seal_right(right: &mut RangeState, sealed: &SealedPart)
    ensures { right.new ≡ rules.sealed_right right.old sealed.now.side sealed.now.kind sealed.now.length }
{
    if sealed.side == MergeSide::Right {
        seal_last_of(right, sealed.kind, sealed.length);
    }
}

/// Whether the extent is the last of its stream, and open.
fn is_open_last(left: &RangeState, right: &RangeState, sealed: &SealedPart) -> bool
    ensures { result ≡ splits.is_extent sealed.now.extent (rules.open_part left.now right.now sealed.now.side sealed.now.kind) }
{
    match open_part(left, right, sealed.side, sealed.kind) {
        None => false,
        Some(open) => open.0 == sealed.extent.0,
    }
}

/// The last extent of a stream is sealed: its length is known from now on, and the next open one is to be sealed, or the streams are
/// to be built. Another extent changes nothing. Where memory runs out (22) nothing has changed.
pub(crate) fn last_sealed(
    alloc: Global,
    context: &ServerContext,
    left: &mut RangeState,
    right: &mut RangeState,
    job: &mut MergeJob,
    sealed: &SealedPart,
) -> Result<MergeTaken, AllocError>
    requires numbers { context.now.count + 1 < 2 ^ 64 }
    ensures ok { IfOk result (λ t. rules.last_sealed context.now left.old right.old job.old sealed.now.side sealed.now.kind sealed.now.extent sealed.now.length
        ≡ outcome t left.new right.new job.new) }
    ensures left { OnErr result (left.new ≡ left.old) }
    ensures right { OnErr result (right.new ≡ right.old) }
    ensures kept { OnErr result (job.new ≡ job.old) }
    ensures short { IfOk result IsShort }
{
    if !is_open_last(left, right, sealed) {
        return Ok(MergeTaken::rests(alloc, context.count));
    }
    let streams = all_streams(alloc, job)?;
    let mut packets = Vec::with_capacity(alloc, 1)?;
    seal_left(left, sealed);
    seal_right(right, sealed);
    let found = first_open_after(left, right, sealed.side, sealed.kind);
    packets.push_reserved(seals_or_builds(context, job, found, streams));
    Ok(MergeTaken::sends(context.count + 1, packets))
}
