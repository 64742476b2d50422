//! No answer comes to a split.
ghost use Rattle.std.specs.Prelude.{◌≡◌, ◌<◌, ◌≤◌, ◌+◌, ◌^◌, None, true, false, length, option_to_list};
ghost use Rattle.client.specs.Client.{give_up_rule};
ghost use Rattle.model_partition.specs.Range.{picking, request};
ghost use Rattle.model_partition.specs.Splits as rules;
ghost use Rattle.range_split.specs.KeyAnswers.{are_said};
ghost use Rattle.range_split.specs.Rooms.{ServesAgain, again_room_of};
ghost use Rattle.range_split.specs.Steps.{behind, goes_on, outcome};

use crate::key_answers::are_said;
use crate::next_packet::{NextPacket, has_number};
use crate::packets::{begin_packet, build_packet, complete_packet, seal_packet};
use crate::room::SplitRoom;
use crate::seals::{extents_of, open_last};
use crate::taken::SplitTaken;
use bytes::Bytes;
use client::StreamClient;
use model_partition::{ServerContext, SplitJob, SplitPhase, next_request};
use range_core::{RangeState, append_reserved, push_some};
use wire::{Modifies, Packet, ReqNo, StreamKind};

/// The last extent of a stream is to be sealed, where it is still open.
fn seal_again(
    context: &ServerContext,
    state: &RangeState,
    kind: StreamKind,
    request: &ReqNo,
) -> Option<Packet>
    ensures { option_to_list result ≡ rules.seal_again context.now (rules.open_last (rules.extents_of state.now kind)) request.now }
{
    match open_last(extents_of(state, kind)) {
        None => None,
        Some(extent) => Some(seal_packet(context, extent, request)),
    }
}

/// The client of the keys gives up on its answer.
fn client_gives_up(context: &ServerContext, client: &mut StreamClient) -> Option<Packet>
    ensures { give_up_rule (picking context.now client.old) (request context.now) context.now.pick ≡ record { after = client.new; packet = result; news = None } }
{
    client.give_up(&next_request(context), &context.pick)
}

/// The extent to which keys are being appended is to be sealed, or what its client waits for is asked again.
fn keys_again(context: &ServerContext, state: &RangeState, job: &mut SplitJob) -> NextPacket
    requires numbers { context.now.count + 1 < 2 ^ 64 }
    requires keys { are_said job.old.phase ≡ true }
    ensures { rules.gives_up_in context.now state.now job.old job.old.phase ≡ goes_on state.now job.new result.count result.packet }
{
    match &mut job.phase {
        SplitPhase::Keys { side: _, metadata } => {
            let packet = client_gives_up(context, metadata);
            NextPacket::sends(context, packet)
        }
        _ => unreachable!(),
    }
}

/// What is asked again, where no keys are being appended, with what was made beforehand.
fn asked_again(
    context: &ServerContext,
    state: &RangeState,
    job: &SplitJob,
    key: Option<Bytes>,
    streams: Option<Modifies>,
) -> NextPacket
    requires numbers { context.now.count + 1 < 2 ^ 64 }
    requires other { are_said job.now.phase ≡ false }
    requires serves { ServesAgain job.now job.now.phase key streams }
    ensures { rules.gives_up_in context.now state.now job.now job.now.phase ≡ goes_on state.now job.now result.count result.packet }
{
    match &job.phase {
        SplitPhase::Begin { request } => match key {
            None => unreachable!(),
            Some(key) => {
                let packet = begin_packet(context, job, key, request);
                NextPacket::sends(context, Some(packet))
            }
        },
        SplitPhase::Seal { kind, request } => {
            let packet = seal_again(context, state, *kind, request);
            NextPacket::sends(context, packet)
        }
        SplitPhase::Build { request } => match streams {
            None => unreachable!(),
            Some(streams) => {
                let packet = build_packet(context, job, streams, request);
                NextPacket::sends(context, Some(packet))
            }
        },
        SplitPhase::Complete { request } => {
            let packet = complete_packet(context, job, request);
            NextPacket::sends(context, Some(packet))
        }
        _ => NextPacket::none(context),
    }
}

/// What is sent again, with what was made beforehand.
fn again(
    context: &ServerContext,
    state: &RangeState,
    job: &mut SplitJob,
    key: Option<Bytes>,
    streams: Option<Modifies>,
) -> NextPacket
    requires serves { ServesAgain job.old job.old.phase key streams }
    ensures { rules.gives_up context.now state.now job.old ≡ goes_on state.now job.new result.count result.packet }
{
    if !has_number(context) {
        return NextPacket::none(context);
    }
    if are_said(&job.phase) {
        return keys_again(context, state, job);
    }
    asked_again(context, state, job, key, streams)
}

/// What is not answered is asked again under its number; an append of keys has its extent sealed, under the next number of the
/// server. Nothing is asked while the range itself is at work for the split, nor where the server has no number left. It comes behind
/// the range's own, whose packets, at most 1,400, are sent first, takes no memory but the room that was made before, and neither the
/// range goes nor the split ends.
#[tactic(auto, using(crate::proofs::Rooms::serves_again))]
pub fn give_up(
    context: &ServerContext,
    state: &RangeState,
    job: &mut SplitJob,
    room: SplitRoom,
    sent: Vec<Packet>,
) -> SplitTaken
    requires few { length sent.items ≤ 1400 }
    requires serves { room ≡ again_room_of job.old job.old.phase }
    ensures value { behind sent.items (rules.gives_up context.now state.now job.old) ≡ outcome result state.now job.new }
    ensures few { length result.packets ≤ 1401 }
    ensures held { result.dropped ≡ false }
    ensures under_way { result.ended ≡ false }
{
    let SplitRoom {
        key,
        blocks: _,
        streams,
        mut packets,
    } = room;
    let NextPacket { count, packet } = again(context, state, job, key, streams);
    append_reserved(&mut packets, sent);
    push_some(&mut packets, packet);
    SplitTaken::sends(count, packets)
}
