//! Answers to the client that appends the keys of one of the two ranges.
ghost use Rattle.std.specs.Prelude.{◌≡◌, ◌<◌, ◌≤◌, ◌+◌, ◌^◌, [], None, true, length, vec_len, vec_capacity, option_to_list, IfOk, OnErr};
ghost use Rattle.client.specs.Client.{ClientState};
ghost use Rattle.model_partition.specs.Range.{refused_users};
ghost use Rattle.model_partition.specs.declared.split_job.Side.{Side as SideState};
ghost use Rattle.model_partition.specs.declared.split_job.SplitJob.{SplitJob as SplitJobState};
ghost use Rattle.model_partition.specs.declared.split_job.SplitPhase.TheVariants as phases;
ghost use Rattle.model_partition.specs.Splits as rules;
ghost use Rattle.range_checkpoint.specs.Steps.{appended as stands_at};
ghost use Rattle.range_split.specs.KeyAnswers.{are_said, other_told, side_stood};
ghost use Rattle.range_split.specs.Steps.{outcome, IsShort};

use crate::packets::complete_packet;
use crate::side_metadata::says_keys;
use crate::taken::SplitTaken;
use client::{News, Reaction, StreamClient};
use model_partition::{ServerContext, Side, SplitJob, SplitPhase, next_request, take_answer};
use range_checkpoint::appended;
use range_core::{RangeState, push_some};
use std::alloc::{AllocError, Global};
use wire::{Body, Packet};

/// Whether the keys of one of the two are being appended.
pub(crate) fn are_said(phase: &SplitPhase) -> bool
    ensures { result ≡ are_said phase.now }
{
    match phase {
        SplitPhase::Keys { .. } => true,
        _ => false,
    }
}

/// The range goes, and its split with it: those who wait are told that this server does not hold it (30).
pub(crate) fn ends(
    alloc: Global,
    context: &ServerContext,
    state: &RangeState,
) -> Result<SplitTaken, AllocError>
    requires numbers { context.now.count + 1 < 2 ^ 64 }
    ensures ok { IfOk result (λ t. (job : SplitJobState) → rules.ends context.now state.now ≡ outcome t state.now job) }
    ensures short { IfOk result IsShort }
{
    let packets = state.refusals(alloc, context)?;
    Ok(SplitTaken::ends(context.count + 1, packets))
}

/// The map is asked to put the two in the place of the range.
fn completes(
    alloc: Global,
    context: &ServerContext,
    state: &RangeState,
    job: &mut SplitJob,
) -> Result<SplitTaken, AllocError>
    requires numbers { context.now.count + 1 < 2 ^ 64 }
    ensures ok { IfOk result (λ t. rules.completes context.now state.now job.old ≡ outcome t state.now job.new) }
    ensures err { OnErr result (job.new ≡ job.old) }
    ensures short { IfOk result IsShort }
{
    let mut packets = Vec::with_capacity(alloc, 1)?;
    let request = next_request(context);
    packets.push_reserved(complete_packet(context, job, &request));
    job.phase = SplitPhase::Complete { request };
    Ok(SplitTaken::sends(context.count + 1, packets))
}

/// The keys of one of the two stand: those of the higher range come next, and then the map.
fn keys_stand(
    alloc: Global,
    context: &ServerContext,
    state: &RangeState,
    job: &mut SplitJob,
    side: Side,
) -> Result<SplitTaken, AllocError>
    requires numbers { context.now.count + 1 < 2 ^ 64 }
    ensures ok { IfOk result (λ t. rules.keys_stand context.now state.now job.old side ≡ outcome t state.now job.new) }
    ensures err { OnErr result (job.new ≡ job.old) }
    ensures short { IfOk result IsShort }
{
    match side {
        Side::Low => says_keys(alloc, context, state, job, Side::High),
        Side::High => completes(alloc, context, state, job),
    }
}

/// What comes of another answer: its packet goes, and the range does where its generation is an old one. What is sent then, and room
/// for the packet, are at hand.
fn other_told(
    context: &ServerContext,
    state: &RangeState,
    reaction: Reaction,
    farewell: Vec<Packet>,
    mut packets: Vec<Packet>,
) -> SplitTaken
    requires numbers { context.now.count + 1 < 2 ^ 64 }
    requires farewell { farewell.items ≡ refused_users context.now state.now }
    requires few { length farewell.items ≤ 1280 }
    requires room { (packets.items ≡ []) × (vec_len packets < vec_capacity packets) }
    ensures told { (job : SplitJobState) (side : SideState) (after : ClientState)
        → other_told context.now state.now job side after reaction.news (option_to_list reaction.packet)
        ≡ outcome result state.now (rules.with_phase job (phases.Keys side after)) }
    ensures short { IsShort result }
{
    let Reaction { packet, news } = reaction;
    match news {
        Some(News::Fenced) => SplitTaken::ends(context.count + 1, farewell),
        _ => {
            push_some(&mut packets, packet);
            SplitTaken::sends(context.count + 1, packets)
        }
    }
}

/// An answer that does not say that the keys stand.
fn keys_told(
    alloc: Global,
    context: &ServerContext,
    state: &RangeState,
    client: &mut StreamClient,
    packet: &Packet,
) -> Result<SplitTaken, AllocError>
    requires numbers { context.now.count + 1 < 2 ^ 64 }
    requires other { stands_at client.old packet.now.body ≡ None }
    ensures ok { IfOk result (λ t. (job : SplitJobState) (side : SideState) → rules.keys_reply context.now state.now job side client.old packet.now.body
        ≡ outcome t state.now (rules.with_phase job (phases.Keys side client.new))) }
    ensures err { OnErr result (client.new ≡ client.old) }
    ensures short { IfOk result IsShort }
{
    let farewell = state.refusals(alloc, context)?;
    let packets = Vec::with_capacity(alloc, 1)?;
    let reaction = take_answer(client, alloc, context, packet)?;
    Ok(other_told(context, state, reaction, farewell, packets))
}

/// Of which side the keys stand, if the answer says so and the split waits for it.
fn side_stood(phase: &SplitPhase, body: &Body) -> Option<Side>
    ensures { result ≡ side_stood phase.now body.now }
{
    match phase {
        SplitPhase::Keys { side, metadata } => match appended(metadata, body) {
            Some(_at) => Some(*side),
            None => None,
        },
        _ => None,
    }
}

/// The answer to the client that appends the keys of one of the two: those of the lower range stand, and those of the higher one
/// come next; or these stand, and the map is asked to put the two in the place of the range. The range goes where its generation is an
/// old one (3). Where memory runs out (22) nothing has changed.
pub(crate) fn keys_reply(
    alloc: Global,
    context: &ServerContext,
    state: &RangeState,
    job: &mut SplitJob,
    packet: &Packet,
) -> Result<SplitTaken, AllocError>
    requires numbers { context.now.count + 1 < 2 ^ 64 }
    requires keys { are_said job.old.phase ≡ true }
    ensures ok { IfOk result (λ t. rules.split_reply context.now state.now job.old packet.now.body ≡ outcome t state.now job.new) }
    ensures err { OnErr result (job.new ≡ job.old) }
    ensures short { IfOk result IsShort }
{
    if let Some(side) = side_stood(&job.phase, &packet.body) {
        return keys_stand(alloc, context, state, job, side);
    }
    match &mut job.phase {
        SplitPhase::Keys { side: _, metadata } => {
            keys_told(alloc, context, state, metadata, packet)
        }
        _ => unreachable!(),
    }
}
