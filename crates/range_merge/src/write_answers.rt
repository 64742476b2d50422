//! Answers to the client that appends the records of the new range.
ghost use Rattle.std.specs.Prelude.{◌≡◌, ◌∷◌, ◌<◌, ◌+◌, ◌^◌, [], None, Some, true, vec_len, vec_capacity, option_to_list, is_some, IfOk, OnErr};
ghost use Rattle.client.specs.Client.{ClientState};
ghost use Rattle.metadata.specs.Record.{spelling};
ghost use Rattle.model_partition.specs.Range.{RangeState as RangeStateOf};
ghost use Rattle.range_checkpoint.specs.Steps.{appended as stands_at};
ghost use Rattle.model_partition.specs.declared.merge_job.MergeJob.{MergeJob as MergeJobState};
ghost use Rattle.model_partition.specs.declared.merge_job.MergePhase.TheVariants as phases;
ghost use Rattle.model_partition.specs.declared.merge_job.MergeRecord.{MergeRecord as Record};
ghost use Rattle.model_partition.specs.declared.merge_job.MergeRecord.TheVariants as records;
ghost use Rattle.model_partition.specs.Merges as rules;
ghost use Rattle.range_merge.specs.Steps.{outcome, IsShort};
ghost use Rattle.range_merge.specs.WriteAnswers.{is_writing, other_told, record_stood};

use crate::appends::send;
use crate::departures::ends;
use crate::records::record_of;
use crate::taken::MergeTaken;
use crate::writing::completes;
use client::{Appending, News, Reaction, StreamClient};
use model_partition::{MergeJob, MergePhase, MergeRecord, ServerContext, take_answer};
use range_checkpoint::appended;
use range_core::{RangeState, push_some};
use std::alloc::{AllocError, Global};
use wire::{Body, Packet};

/// What comes of another answer than that the record stands: its packet goes, and both ranges do where the new one's generation is
/// an old one. What is sent then, and room for the packet, are at hand.
fn other_told(
    context: &ServerContext,
    left: &RangeState,
    right: &RangeState,
    reaction: Reaction,
    farewell: MergeTaken,
    mut packets: Vec<Packet>,
) -> MergeTaken
    requires numbers { context.now.count + 1 < 2 ^ 64 }
    requires farewell { (job : MergeJobState) → rules.ends context.now left.now right.now ≡ outcome farewell left.now right.now job }
    requires few { IsShort farewell }
    requires room { (packets.items ≡ []) × (vec_len packets < vec_capacity packets) }
    ensures told { (job : MergeJobState) (what : Record) (after : ClientState)
        → other_told context.now left.now right.now job what after reaction.news (option_to_list reaction.packet)
        ≡ outcome result left.now right.now (rules.with_phase job (phases.Write what after)) }
    ensures short { IsShort result }
{
    let Reaction { packet, news } = reaction;
    match news {
        Some(News::Fenced) => farewell,
        _ => {
            push_some(&mut packets, packet);
            MergeTaken::sends(context.count + 1, packets)
        }
    }
}

/// An answer that does not say that the record stands.
fn write_told(
    alloc: Global,
    context: &ServerContext,
    left: &RangeState,
    right: &RangeState,
    client: &mut StreamClient,
    packet: &Packet,
) -> Result<MergeTaken, AllocError>
    requires numbers { context.now.count + 1 < 2 ^ 64 }
    requires other { stands_at client.old packet.now.body ≡ None }
    ensures ok { IfOk result (λ t. (job : MergeJobState) (what : Record)
        → rules.write_reply context.now left.now right.now job what client.old packet.now.body
        ≡ outcome t left.now right.now (rules.with_phase job (phases.Write what client.new))) }
    ensures err { OnErr result (client.new ≡ client.old) }
    ensures short { IfOk result IsShort }
{
    let farewell = ends(alloc, context, left, right)?;
    let packets = Vec::with_capacity(alloc, 1)?;
    let reaction = take_answer(client, alloc, context, packet)?;
    Ok(other_told(context, left, right, reaction, farewell, packets))
}

/// The client of a record that stands is given the next one, and sends it.
fn writes_next(
    alloc: Global,
    context: &ServerContext,
    client: &mut StreamClient,
    packet: &Packet,
    blocks: Appending,
) -> Option<Packet>
    requires stands { is_some (stands_at client.old packet.now.body) ≡ true }
    ensures { (l r : RangeStateOf) (job : MergeJobState) → blocks ≡ spelling (rules.record_of l r records.Regions) ∷ [] → rules.may_write l r records.Regions ≡ true
        → rules.write_reply context.now l r job records.Keys client.old packet.now.body
        ≡ rules.goes context.now l r (rules.with_phase job (phases.Write records.Regions client.new)) (option_to_list result) }
{
    // The answer to an append takes no memory.
    let Ok(reaction) = take_answer(client, alloc, context, packet) else {
        unreachable!()
    };
    drop(reaction);
    send(client, context, blocks)
}

/// The next record is written where that of the keys stands.
fn next_record(
    alloc: Global,
    context: &ServerContext,
    phase: &mut MergePhase,
    packet: &Packet,
    blocks: Appending,
) -> Option<Packet>
    requires stands { record_stood phase.old packet.now.body ≡ Some records.Keys }
    ensures { (l r : RangeStateOf) (job : MergeJobState) → blocks ≡ spelling (rules.record_of l r records.Regions) ∷ [] → rules.may_write l r records.Regions ≡ true
        → rules.merge_reply_in context.now l r job phase.old packet.now.body
        ≡ rules.goes context.now l r (rules.with_phase job phase.new) (option_to_list result) }
{
    match phase {
        MergePhase::Write { record, metadata } => {
            *record = MergeRecord::Regions;
            writes_next(alloc, context, metadata, packet, blocks)
        }
        _ => unreachable!(),
    }
}

/// The record of the keys stands: that of the indexes and regions is appended, if it can be written.
fn keys_stand(
    alloc: Global,
    context: &ServerContext,
    left: &RangeState,
    right: &RangeState,
    job: &mut MergeJob,
    packet: &Packet,
) -> Result<MergeTaken, AllocError>
    requires numbers { context.now.count + 1 < 2 ^ 64 }
    requires stands { record_stood job.old.phase packet.now.body ≡ Some records.Keys }
    ensures ok { IfOk result (λ t. rules.merge_reply context.now left.now right.now job.old packet.now.body ≡ outcome t left.now right.now job.new) }
    ensures err { OnErr result (job.new ≡ job.old) }
    ensures short { IfOk result IsShort }
{
    let Some(blocks) = record_of(alloc, left, right, MergeRecord::Regions)? else {
        return Ok(MergeTaken::rests(alloc, context.count));
    };
    let mut packets = Vec::with_capacity(alloc, 1)?;
    push_some(
        &mut packets,
        next_record(alloc, context, &mut job.phase, packet, blocks),
    );
    Ok(MergeTaken::sends(context.count + 1, packets))
}

/// Which record stands, if the answer says so and the merge waits for it.
fn record_stood(phase: &MergePhase, body: &Body) -> Option<MergeRecord>
    ensures { result ≡ record_stood phase.now body.now }
{
    match phase {
        MergePhase::Write { record, metadata } => match appended(metadata, body) {
            Some(_at) => Some(*record),
            None => None,
        },
        _ => None,
    }
}

/// Whether a record of the new range is being appended.
pub(crate) fn is_writing(phase: &MergePhase) -> bool
    ensures { result ≡ is_writing phase.now }
{
    match phase {
        MergePhase::Write { .. } => true,
        _ => false,
    }
}

/// The answer to the client that appends a record of the new range: the keys stand, and the indexes and regions come next; or these
/// stand, and the map is asked to put the new range in the place of the two. Both ranges go where the new one's generation is an old
/// one (3). Where memory runs out (22) nothing has changed.
pub(crate) fn write_reply(
    alloc: Global,
    context: &ServerContext,
    left: &RangeState,
    right: &RangeState,
    job: &mut MergeJob,
    packet: &Packet,
) -> Result<MergeTaken, AllocError>
    requires numbers { context.now.count + 1 < 2 ^ 64 }
    requires writing { is_writing job.old.phase ≡ true }
    ensures ok { IfOk result (λ t. rules.merge_reply context.now left.now right.now job.old packet.now.body ≡ outcome t left.now right.now job.new) }
    ensures err { OnErr result (job.new ≡ job.old) }
    ensures short { IfOk result IsShort }
{
    match record_stood(&job.phase, &packet.body) {
        Some(MergeRecord::Keys) => keys_stand(alloc, context, left, right, job, packet),
        Some(MergeRecord::Regions) => completes(alloc, context, job),
        None => match &mut job.phase {
            MergePhase::Write {
                record: _,
                metadata,
            } => write_told(alloc, context, left, right, metadata, packet),
            _ => unreachable!(),
        },
    }
}
