//! The metadata of the new range, to which its records are appended.
ghost use Rattle.std.specs.Prelude.{◌≡◌, ◌∷◌, ◌<◌, ◌+◌, ◌^◌, [], Some, IfOk, OnErr};
ghost use Rattle.metadata.specs.Record.{spelling};
ghost use Rattle.client.specs.Client.{ClientState};
ghost use Rattle.model_partition.specs.Range.{RangeState as RangeStateOf};
ghost use Rattle.model_partition.specs.Merges as rules;
ghost use Rattle.range_merge.specs.Steps.{goes_on, outcome, IsShort};

use crate::appends::send;
use crate::packets::{complete_packet, create_packet, joined_generation, metadata_name};
use crate::records::record_of;
use crate::taken::MergeTaken;
use client::{Appending, StreamClient};
use model_partition::{MergeJob, MergePhase, MergeRecord, ServerContext, next_request};
use range_core::{RangeState, push_some};
use std::alloc::{AllocError, Global};
use wire::{Packet, StreamExtents, StreamList};

/// The streams are built: the metadata of the new range is to be made.
pub(crate) fn creates(
    alloc: Global,
    context: &ServerContext,
    job: &mut MergeJob,
) -> Result<MergeTaken, AllocError>
    requires numbers { context.now.count + 1 < 2 ^ 64 }
    ensures ok { IfOk result (λ t. (l r : RangeStateOf) → rules.creates context.now l r job.old ≡ outcome t l r job.new) }
    ensures err { OnErr result (job.new ≡ job.old) }
    ensures short { IfOk result IsShort }
{
    let mut packets = Vec::with_capacity(alloc, 1)?;
    let request = next_request(context);
    packets.push_reserved(create_packet(context, job, &request));
    job.phase = MergePhase::Create { request };
    Ok(MergeTaken::sends(context.count + 1, packets))
}

/// The map is asked to put the new range in the place of the two.
pub(crate) fn completes(
    alloc: Global,
    context: &ServerContext,
    job: &mut MergeJob,
) -> Result<MergeTaken, AllocError>
    requires numbers { context.now.count + 1 < 2 ^ 64 }
    ensures ok { IfOk result (λ t. (l r : RangeStateOf) → rules.completes context.now l r job.old ≡ outcome t l r job.new) }
    ensures err { OnErr result (job.new ≡ job.old) }
    ensures short { IfOk result IsShort }
{
    let mut packets = Vec::with_capacity(alloc, 1)?;
    let request = next_request(context);
    packets.push_reserved(complete_packet(context, job, &request));
    job.phase = MergePhase::Complete { request };
    Ok(MergeTaken::sends(context.count + 1, packets))
}

/// The metadata of the new range, with nothing in it.
fn new_metadata(
    alloc: Global,
    context: &ServerContext,
    job: &MergeJob,
) -> Result<StreamClient, AllocError>
    ensures { IfOk result (λ client. client ≡ rules.new_metadata context.now job.now) }
{
    let list = StreamList {
        base: 0,
        extents: StreamExtents {
            items: Vec::new(alloc),
        },
    };
    StreamClient::new(
        alloc,
        context.server,
        metadata_name(job),
        joined_generation(job),
        &list,
        context.pick,
    )
}

/// A record is given to the client of the new range's metadata, which sends it.
pub(crate) fn writes(
    context: &ServerContext,
    job: &mut MergeJob,
    what: MergeRecord,
    metadata: StreamClient,
    blocks: Appending,
) -> Option<Packet>
    ensures { (l r : RangeStateOf) (c : ClientState) → metadata ≡ c → blocks ≡ spelling (rules.record_of l r what) ∷ []
        → rules.appends_record context.now l r job.old what c ≡ goes_on l r job.new (context.now.count + 1) result }
{
    let mut client = metadata;
    let packet = send(&mut client, context, blocks);
    job.phase = MergePhase::Write {
        record: what,
        metadata: client,
    };
    packet
}

/// The metadata of the new range is there: its keys are appended, if their record can be written. Where memory runs out (22) nothing
/// has changed.
pub(crate) fn created(
    alloc: Global,
    context: &ServerContext,
    left: &RangeState,
    right: &RangeState,
    job: &mut MergeJob,
) -> Result<MergeTaken, AllocError>
    requires numbers { context.now.count + 1 < 2 ^ 64 }
    ensures ok { IfOk result (λ t. rules.created context.now left.now right.now job.old ≡ outcome t left.now right.now job.new) }
    ensures err { OnErr result (job.new ≡ job.old) }
    ensures short { IfOk result IsShort }
{
    let Some(blocks) = record_of(alloc, left, right, MergeRecord::Keys)? else {
        return Ok(MergeTaken::rests(alloc, context.count));
    };
    let metadata = new_metadata(alloc, context, job)?;
    let mut packets = Vec::with_capacity(alloc, 1)?;
    push_some(
        &mut packets,
        writes(context, job, MergeRecord::Keys, metadata, blocks),
    );
    Ok(MergeTaken::sends(context.count + 1, packets))
}
