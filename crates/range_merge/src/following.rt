//! What comes of a merge behind a step of one of its ranges.
ghost use Rattle.std.specs.Prelude.{◌≡◌, ◌<◌, ◌≤◌, ◌+◌, ◌^◌, Some, false, length};
ghost use Rattle.model_partition.specs.Merges as rules;
ghost use Rattle.range_merge.specs.Rooms.{room_of};
ghost use Rattle.range_merge.specs.Steps.{behind as behind_packets, goes_on, outcome, paused_if};

use crate::next_packet::{NextPacket, has_number};
use crate::room::MergeRoom;
use crate::seals::{first_open, seals_or_builds};
use crate::taken::MergeTaken;
use model_partition::{MergeJob, MergePhase, MergeSide, ServerContext};
use range_core::{RangeState, append_reserved, push_some};
use wire::{Modifies, Packet};

/// The step of a range that a merge comes behind: which of the two it is, the room that was made before it, and what it sent.
#[derive(Drop)]
pub struct StepBehind {
    pub side: MergeSide,
    pub room: MergeRoom,
    pub sent: Vec<Packet>,
}

/// What a merge makes of a step that it comes behind: what it leaves, and whether both ranges are to be paused besides
/// (`RangeState::pause`).
#[derive(Drop)]
pub struct MergeFollowUp {
    pub taken: MergeTaken,
    pub pauses: bool,
}

/// The same, while its packet is not among the others.
#[derive(Drop)]
struct NextStep {
    next: NextPacket,
    pauses: bool,
}

/// The ranges take no transaction any more, and are to be paused. While one waits there the merge waits too; then the first open
/// extent is to be sealed, or the streams are to be built.
fn drains(
    context: &ServerContext,
    left: &RangeState,
    right: &RangeState,
    job: &mut MergeJob,
    streams: Modifies,
) -> NextPacket
    requires numbers { context.now.count + 1 < 2 ^ 64 }
    requires streams { streams ≡ rules.all_streams job.old }
    ensures { rules.drains context.now left.now right.now job.old
        ≡ goes_on (rules.pausing left.now) (rules.pausing right.now) job.new result.count result.packet }
{
    if !(left.is_drained() && right.is_drained()) {
        job.phase = MergePhase::Queue;
        return NextPacket::none(context);
    }
    let found = first_open(left, right);
    let packet = seals_or_builds(context, job, found, streams);
    NextPacket::sends(context, Some(packet))
}

/// What comes of a merge behind a step of the range of a side, with what was made beforehand.
fn followed(
    context: &ServerContext,
    left: &RangeState,
    right: &RangeState,
    job: &mut MergeJob,
    side: MergeSide,
    streams: Option<Modifies>,
) -> NextStep
    requires numbers { context.now.count + 1 < 2 ^ 64 }
    requires serves { room_of job.old job.old.phase ≡ Some streams }
    ensures { rules.follows_in context.now left.now right.now job.old side job.old.phase
        ≡ goes_on (paused_if result.pauses left.now) (paused_if result.pauses right.now) job.new result.next.count result.next.packet }
{
    let is_due = match job.phase {
        MergePhase::Queue => true,
        MergePhase::Checkpoint {
            side: MergeSide::Right,
        } => side == MergeSide::Right && right.content.control.is_none(),
        _ => false,
    };
    if !is_due {
        return NextStep {
            next: NextPacket::none(context),
            pauses: false,
        };
    }
    let Some(streams) = streams else {
        unreachable!()
    };
    NextStep {
        next: drains(context, left, right, job, streams),
        pauses: true,
    }
}

/// What comes of a merge behind a step of one of its ranges that did not drop it, in the same event; the context has the number that
/// the step left, and `side` tells whose it was. Once the checkpoint of the right range has ended neither range takes a transaction,
/// and each is paused once none waits there and none is being appended: `pauses` says that the caller is to pause both. Once no
/// transaction is left at either, the first of the open last extents is to be sealed, or the streams of the new range are to be built.
/// Where the server has no number left nothing comes. It takes no memory but the room that was made before the step, and neither range
/// goes nor the merge ends. What the step sent, at most 1,400 packets, comes first.
pub fn follow(
    context: &ServerContext,
    left: &RangeState,
    right: &RangeState,
    job: &mut MergeJob,
    behind: StepBehind,
) -> MergeFollowUp
    requires few { length behind.sent.items ≤ 1400 }
    requires serves { room_of job.old job.old.phase ≡ Some behind.room }
    ensures value { behind_packets behind.sent.items (rules.follows context.now left.now right.now job.old behind.side)
        ≡ outcome result.taken (paused_if result.pauses left.now) (paused_if result.pauses right.now) job.new }
    ensures few { length result.taken.packets ≤ 1401 }
    ensures left { result.taken.left_dropped ≡ false }
    ensures right { result.taken.right_dropped ≡ false }
    ensures under_way { result.taken.ended ≡ false }
{
    let StepBehind { side, room, sent } = behind;
    let MergeRoom {
        streams,
        mut packets,
    } = room;
    let NextStep { next, pauses } = if has_number(context) {
        followed(context, left, right, job, side, streams)
    } else {
        NextStep {
            next: NextPacket::none(context),
            pauses: false,
        }
    };
    append_reserved(&mut packets, sent);
    push_some(&mut packets, next.packet);
    MergeFollowUp {
        taken: MergeTaken::sends(next.count, packets),
        pauses,
    }
}
