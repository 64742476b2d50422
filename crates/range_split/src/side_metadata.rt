//! The metadata of the two ranges, to which their keys are appended.
ghost use Rattle.std.specs.Prelude.{◌≡◌, ◌∷◌, ◌<◌, ◌+◌, ◌^◌, [], IfOk, OnErr};
ghost use Rattle.metadata.specs.Record.{spelling};
ghost use Rattle.model_partition.specs.Range.{RangeState as RangeStateOf};
ghost use Rattle.model_partition.specs.Splits as rules;
ghost use Rattle.range_split.specs.Steps.{goes_on, outcome, IsShort};

use crate::appends::send;
use crate::records::{keys_record, may_say_keys};
use crate::taken::SplitTaken;
use client::{Appending, StreamClient};
use model_partition::{ServerContext, Side, SplitJob, SplitPhase};
use range_core::{RangeState, push_some};
use std::alloc::{AllocError, Global};
use wire::{Packet, RangeId, StreamExtents, StreamKind, StreamList, StreamName};

fn side_range(job: &SplitJob, side: Side) -> RangeId
    ensures { result ≡ rules.side_range job.now side }
{
    match side {
        Side::Low => job.low,
        Side::High => job.high,
    }
}

/// The metadata of one of the two, which has the extents of the range's own.
fn side_metadata(
    alloc: Global,
    context: &ServerContext,
    state: &RangeState,
    job: &SplitJob,
    side: Side,
) -> Result<StreamClient, AllocError>
    ensures { IfOk result (λ client. client ≡ rules.side_metadata context.now state.now job.now side) }
{
    let metadata = &state.content.metadata;
    let mut items = Vec::new(alloc);
    items.extend_from_slice(&metadata.extents)?;
    let list = StreamList {
        base: metadata.base,
        extents: StreamExtents { items },
    };
    let stream = StreamName {
        range: side_range(job, side),
        kind: StreamKind::Metadata,
    };
    StreamClient::new(
        alloc,
        context.server,
        stream,
        job.generation,
        &list,
        context.pick,
    )
}

/// The record of the keys is given to the client of this metadata, which sends it.
fn sends_keys(
    context: &ServerContext,
    job: &mut SplitJob,
    side: Side,
    metadata: StreamClient,
    blocks: Appending,
) -> Option<Packet>
    ensures { (r : RangeStateOf) → metadata ≡ rules.side_metadata context.now r job.old side → blocks ≡ spelling (rules.keys_record r job.old side) ∷ []
        → rules.appends_keys context.now r job.old side ≡ goes_on r job.new (context.now.count + 1) result }
{
    let mut client = metadata;
    let packet = send(&mut client, context, blocks);
    job.phase = SplitPhase::Keys {
        side,
        metadata: client,
    };
    packet
}

/// The keys of one of the two are appended to its metadata, if their record can be written. Where memory runs out (22) nothing has
/// changed.
pub(crate) fn says_keys(
    alloc: Global,
    context: &ServerContext,
    state: &RangeState,
    job: &mut SplitJob,
    side: Side,
) -> Result<SplitTaken, AllocError>
    requires numbers { context.now.count + 1 < 2 ^ 64 }
    ensures ok { IfOk result (λ t. rules.says_keys context.now state.now job.old side ≡ outcome t state.now job.new) }
    ensures err { OnErr result (job.new ≡ job.old) }
    ensures short { IfOk result IsShort }
{
    if !may_say_keys(state, job) {
        return Ok(SplitTaken::rests(alloc, context.count));
    }
    let blocks = keys_record(alloc, state, job, side)?;
    let metadata = side_metadata(alloc, context, state, job, side)?;
    let mut packets = Vec::with_capacity(alloc, 1)?;
    push_some(
        &mut packets,
        sends_keys(context, job, side, metadata, blocks),
    );
    Ok(SplitTaken::sends(context.count + 1, packets))
}
