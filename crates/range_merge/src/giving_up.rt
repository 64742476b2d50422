//! No answer comes to a merge.
ghost use Rattle.std.specs.Prelude.{◌≡◌, ◌<◌, ◌≤◌, ◌+◌, ◌^◌, [], Some, None, true, false, length, option_to_list};
ghost use Rattle.client.specs.Client.{give_up_rule};
ghost use Rattle.model_partition.specs.Range.{RangeState as RangeStateOf, picking, request};
ghost use Rattle.model_partition.specs.Splits.{seal_again};
ghost use Rattle.model_partition.specs.Merges as rules;
ghost use Rattle.range_merge.specs.Rooms.{again_room_of};
ghost use Rattle.range_merge.specs.Steps.{behind, behind_step, goes_on, outcome};
ghost use Rattle.range_merge.specs.WriteAnswers.{is_writing};

use crate::next_packet::{NextPacket, has_number};
use crate::packets::{begin_packet, build_packet, complete_packet, create_packet, seal_packet};
use crate::room::MergeRoom;
use crate::seals::open_part;
use crate::taken::MergeTaken;
use crate::write_answers::is_writing;
use client::StreamClient;
use model_partition::{MergeJob, MergePhase, MergeSide, ServerContext, next_request};
use range_core::{RangeState, append_reserved, push_some};
use wire::{Modifies, Packet, ReqNo, StreamKind};

/// The last extent of a stream is to be sealed, where it is still open.
fn part_again(
    context: &ServerContext,
    left: &RangeState,
    right: &RangeState,
    side: MergeSide,
    kind: StreamKind,
    request: &ReqNo,
) -> Option<Packet>
    ensures { option_to_list result ≡ seal_again context.now (rules.open_part left.now right.now side kind) request.now }
{
    match open_part(left, right, side, kind) {
        None => None,
        Some(extent) => Some(seal_packet(context, extent, request)),
    }
}

/// The client of the new range's metadata gives up on its answer.
fn client_gives_up(context: &ServerContext, client: &mut StreamClient) -> Option<Packet>
    ensures { give_up_rule (picking context.now client.old) (request context.now) context.now.pick ≡ record { after = client.new; packet = result; news = None } }
{
    client.give_up(&next_request(context), &context.pick)
}

/// The extent to which a record is being appended is to be sealed, or what its client waits for is asked again.
fn write_again(context: &ServerContext, job: &mut MergeJob) -> NextPacket
    requires numbers { context.now.count + 1 < 2 ^ 64 }
    requires writing { is_writing job.old.phase ≡ true }
    ensures { (l r : RangeStateOf) → rules.asks_again_in context.now l r job.old job.old.phase ≡ goes_on l r job.new result.count result.packet }
{
    match &mut job.phase {
        MergePhase::Write {
            record: _,
            metadata,
        } => {
            let packet = client_gives_up(context, metadata);
            NextPacket::sends(context, packet)
        }
        _ => unreachable!(),
    }
}

/// What is asked again, where no record is being appended, with what was made beforehand.
fn asked_again(
    context: &ServerContext,
    left: &RangeState,
    right: &RangeState,
    job: &MergeJob,
    streams: Option<Modifies>,
) -> NextPacket
    requires numbers { context.now.count + 1 < 2 ^ 64 }
    requires other { is_writing job.now.phase ≡ false }
    requires serves { streams ≡ again_room_of job.now job.now.phase }
    ensures { rules.asks_again_in context.now left.now right.now job.now job.now.phase ≡ goes_on left.now right.now job.now result.count result.packet }
{
    match &job.phase {
        MergePhase::Begin { request } => {
            NextPacket::sends(context, Some(begin_packet(context, job, request)))
        }
        MergePhase::Seal {
            side,
            kind,
            request,
        } => {
            let packet = part_again(context, left, right, *side, *kind, request);
            NextPacket::sends(context, packet)
        }
        MergePhase::Build { request } => match streams {
            None => unreachable!(),
            Some(streams) => {
                NextPacket::sends(context, Some(build_packet(context, streams, request)))
            }
        },
        MergePhase::Create { request } => {
            NextPacket::sends(context, Some(create_packet(context, job, request)))
        }
        MergePhase::Complete { request } => {
            NextPacket::sends(context, Some(complete_packet(context, job, request)))
        }
        _ => NextPacket::none(context),
    }
}

/// What is sent again, with what was made beforehand.
fn again(
    context: &ServerContext,
    left: &RangeState,
    right: &RangeState,
    job: &mut MergeJob,
    streams: Option<Modifies>,
) -> NextPacket
    requires serves { streams ≡ again_room_of job.old job.old.phase }
    ensures { rules.asks_again context.now left.now right.now job.old ≡ goes_on left.now right.now job.new result.count result.packet }
{
    if !has_number(context) {
        return NextPacket::none(context);
    }
    if is_writing(&job.phase) {
        return write_again(context, job);
    }
    asked_again(context, left, right, job, streams)
}

/// Which of the two makes its checkpoint for the merge while the other one, this, is told to give up: then it is that checkpoint that
/// gives up (`give_up_checkpoint`). None where the merge itself waits for an answer (`give_up`), and where this one makes its checkpoint,
/// which has given up with all else that the range waits for.
pub fn other_checkpoint(job: &MergeJob, told: MergeSide) -> Option<MergeSide>
    ensures { result ≡ rules.other_checkpoint job.now.phase told }
{
    match job.phase {
        MergePhase::Checkpoint { side } if side != told => Some(side),
        _ => None,
    }
}

/// Whether the server has the numbers that a checkpoint takes which gives up.
fn has_numbers_again(context: &ServerContext) -> bool
    ensures { result ≡ rules.has_numbers_again context.now }
{
    context.count < u64::MAX - 2
}

/// The checkpoint that one of the two makes for the merge gives up, while the other one was told to: of the range nothing else does.
/// Where the server has no numbers left nothing is asked. It comes behind the other range's own, whose packets, at most 1,400, are sent
/// first, takes no memory but the room that was made before, and neither range goes nor the merge ends.
pub fn give_up_checkpoint(
    context: &ServerContext,
    state: &mut RangeState,
    room: MergeRoom,
    sent: Vec<Packet>,
) -> MergeTaken
    requires { length sent.items ≤ 1400 }
    ensures value { behind_step sent.items (rules.checkpoint_again context.now state.old) ≡ record { after = Some state.new; count = result.count; packets = result.packets; notes = [] } }
    ensures few { length result.packets ≤ 1404 }
    ensures left { result.left_dropped ≡ false }
    ensures right { result.right_dropped ≡ false }
    ensures under_way { result.ended ≡ false }
{
    let MergeRoom {
        streams: _,
        mut packets,
    } = room;
    append_reserved(&mut packets, sent);
    if !has_numbers_again(context) {
        return MergeTaken::sends(context.count, packets);
    }
    state.give_up_control(context, &mut packets);
    MergeTaken::sends(context.count + 3, packets)
}

/// What the merge waits for is asked again under its number; an append to the new range's metadata has its extent sealed, under the next
/// number of the server. Nothing is asked while a range itself is at work for the merge, nor where the server has no number left. It
/// comes behind the range's own, whose packets, at most 1,400, are sent first, takes no memory but the room that was made before, and
/// neither range goes nor the merge ends.
pub fn give_up(
    context: &ServerContext,
    left: &RangeState,
    right: &RangeState,
    job: &mut MergeJob,
    room: MergeRoom,
    sent: Vec<Packet>,
) -> MergeTaken
    requires few { length sent.items ≤ 1400 }
    requires serves { room ≡ again_room_of job.old job.old.phase }
    ensures value { behind sent.items (rules.asks_again context.now left.now right.now job.old) ≡ outcome result left.now right.now job.new }
    ensures few { length result.packets ≤ 1401 }
    ensures left { result.left_dropped ≡ false }
    ensures right { result.right_dropped ≡ false }
    ensures under_way { result.ended ≡ false }
{
    let MergeRoom {
        streams,
        mut packets,
    } = room;
    let NextPacket { count, packet } = again(context, left, right, job, streams);
    append_reserved(&mut packets, sent);
    push_some(&mut packets, packet);
    MergeTaken::sends(count, packets)
}
