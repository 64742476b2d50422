//! What comes of a split behind a step of its range.
ghost use Rattle.std.specs.Prelude.{◌≡◌, ◌∷◌, ◌<◌, ◌≤◌, ◌+◌, ◌^◌, [], Some, true, false, length};
ghost use Rattle.metadata.specs.Record.{spelling};
ghost use Rattle.model_partition.specs.Splits as rules;
ghost use Rattle.range_split.specs.Rooms.{Serves, record_if, room_of};
ghost use Rattle.range_split.specs.Steps.{behind, goes_on, outcome};

use crate::appends::send;
use crate::next_packet::{NextPacket, has_number};
use crate::room::SplitRoom;
use crate::seals::{first_open, seals_or_builds};
use crate::taken::SplitTaken;
use client::{Appending, Job};
use model_partition::{Pause, ServerContext, SplitJob, SplitPhase};
use range_core::{RangeState, append_reserved, push_some};
use wire::{Modifies, Packet};

/// The range is paused, since no transaction waits, and the record of its split is appended to its metadata.
fn pauses_and_records(
    context: &ServerContext,
    state: &mut RangeState,
    job: &mut SplitJob,
    blocks: Appending,
) -> NextPacket
    requires numbers { context.now.count + 1 < 2 ^ 64 }
    requires drained { rules.is_drained state.old ≡ true }
    requires blocks { blocks ≡ spelling (rules.split_record job.old) ∷ [] }
    ensures { rules.pauses_and_records context.now state.old job.old ≡ goes_on state.new job.new result.count result.packet }
{
    state.pause();
    let packet = send(&mut state.content.metadata, context, blocks);
    job.phase = SplitPhase::Record;
    NextPacket::sends(context, packet)
}

/// The range takes no transaction any more, and once none waits it is paused.
fn drains(
    context: &ServerContext,
    state: &mut RangeState,
    job: &mut SplitJob,
    blocks: Option<Appending>,
) -> NextPacket
    requires numbers { context.now.count + 1 < 2 ^ 64 }
    requires blocks { blocks ≡ record_if job.old }
    ensures { rules.drains context.now state.old job.old ≡ goes_on state.new job.new result.count result.packet }
{
    if state.is_drained() && state.content.said.next == job.number {
        if let Some(blocks) = blocks {
            return pauses_and_records(context, state, job, blocks);
        }
    }
    state.pause = Pause::AfterQueue;
    job.phase = SplitPhase::Queue;
    NextPacket::none(context)
}

/// Whether the record stands, and a number is left after its own.
fn has_stood(state: &RangeState) -> bool
    ensures value { result ≡ rules.has_stood state.now }
{
    matches!(state.content.metadata.job, Job::Idle) && state.content.said.next < u64::MAX
}

/// The record of the split stands: the first open extent is to be sealed, or the streams are to be built.
fn record_stands(
    context: &ServerContext,
    state: &mut RangeState,
    job: &mut SplitJob,
    streams: Modifies,
) -> NextPacket
    requires numbers { context.now.count + 1 < 2 ^ 64 }
    requires stood { rules.has_stood state.old ≡ true }
    requires streams { streams ≡ rules.all_streams job.old }
    ensures { rules.record_stands context.now state.old job.old ≡ goes_on state.new job.new result.count result.packet }
{
    state.content.said.next += 1;
    let found = first_open(state);
    let packet = seals_or_builds(context, job, found, streams);
    NextPacket::sends(context, Some(packet))
}

/// What comes of a split behind a step of its range, with what was made beforehand.
fn followed(
    context: &ServerContext,
    state: &mut RangeState,
    job: &mut SplitJob,
    blocks: Option<Appending>,
    streams: Option<Modifies>,
) -> NextPacket
    requires numbers { context.now.count + 1 < 2 ^ 64 }
    requires serves { Serves job.old job.old.phase blocks streams }
    ensures { rules.follows_in context.now state.old job.old job.old.phase ≡ goes_on state.new job.new result.count result.packet }
{
    match job.phase {
        SplitPhase::Checkpoint => {
            if state.content.control.is_some() {
                return NextPacket::none(context);
            }
            drains(context, state, job, blocks)
        }
        SplitPhase::Queue => drains(context, state, job, blocks),
        SplitPhase::Record => {
            if !has_stood(state) {
                return NextPacket::none(context);
            }
            let Some(streams) = streams else {
                unreachable!()
            };
            record_stands(context, state, job, streams)
        }
        _ => NextPacket::none(context),
    }
}

/// What comes of a split behind a step of its range that did not drop it, in the same event; the context has the number that the
/// step left. Once the checkpoint has ended the range takes no transaction any more; once none waits and none is being appended it
/// is paused, and the record of the split is appended to its metadata; and once that stands the first of the open last extents is
/// to be sealed, or the streams of the two ranges are to be built. Where the server has no number left nothing comes. It takes no
/// memory but the room that was made before the step, and neither the range goes nor the split ends. What the step sent, at most
/// 1,400 packets, comes first.
#[tactic(auto, using(crate::proofs::Rooms::serves))]
pub fn follow(
    context: &ServerContext,
    state: &mut RangeState,
    job: &mut SplitJob,
    room: SplitRoom,
    sent: Vec<Packet>,
) -> SplitTaken
    requires few { length sent.items ≤ 1400 }
    requires serves { room_of job.old job.old.phase ≡ Some room }
    ensures value { behind sent.items (rules.follows context.now state.old job.old) ≡ outcome result state.new job.new }
    ensures few { length result.packets ≤ 1401 }
    ensures held { result.dropped ≡ false }
    ensures under_way { result.ended ≡ false }
{
    let SplitRoom {
        key: _,
        blocks,
        streams,
        mut packets,
    } = room;
    let NextPacket { count, packet } = if has_number(context) {
        followed(context, state, job, blocks, streams)
    } else {
        NextPacket::none(context)
    };
    append_reserved(&mut packets, sent);
    push_some(&mut packets, packet);
    SplitTaken::sends(count, packets)
}
