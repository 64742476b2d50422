//! What a step of a merge takes of memory, made beforehand.
ghost use Rattle.std.specs.Prelude.{◌≡◌, IfOk};
ghost use Rattle.range_merge.specs.Rooms.{room_of, again_room_of};

use crate::built_streams::all_streams;
use model_partition::{MergeJob, MergePhase, MergeSide};
use std::alloc::{AllocError, Global};
use std::marker::Model;
use wire::{Modifies, Packet};

/// How many packets go into the room: those of a step of a range, at most 1,400, and that of the merge, or the four of a checkpoint.
const MOST_PACKETS: usize = 1_404;

/// What a step of a merge takes of memory, where it comes behind a step of one of its ranges: the streams that are to be built, where
/// they may be, and room for what both steps send.
#[derive(Drop)]
pub struct MergeRoom {
    pub(crate) streams: Option<Modifies>,
    pub(crate) packets: Vec<Packet>,
}

impl Model for MergeRoom {
    ghost use Rattle.std.specs.Prelude.{◌≡◌, ◌≤◌, [], vec_capacity};
    ghost use Rattle.range_merge.specs.Rooms as specs;

    ghost Value = { specs.RoomState };

    ghost view = { λ room. room.streams };

    ghost invariant = { λ room. (room.packets.items ≡ []) × (1404 ≤ vec_capacity room.packets) };
}

impl MergeRoom {
    fn of(alloc: Global, streams: Option<Modifies>) -> Result<MergeRoom, AllocError>
        ensures { IfOk result (λ room. room ≡ streams) }
    {
        Ok(MergeRoom {
            streams,
            packets: Vec::with_capacity(alloc, MOST_PACKETS)?,
        })
    }

    /// Room for `follow`, where anything may come of the merge behind a step of one of its ranges: while it waits for an answer of its
    /// own nothing does, and while the left range makes its checkpoint only that this ends (`left_trimmed`). It depends on the merge
    /// alone. An error is out of memory (22).
    pub fn for_step(alloc: Global, job: &MergeJob) -> Result<Option<MergeRoom>, AllocError>
        ensures { IfOk result (λ room. room ≡ room_of job.now job.now.phase) }
    {
        match job.phase {
            MergePhase::Checkpoint {
                side: MergeSide::Right,
            } => {
                let streams = all_streams(alloc, job)?;
                Ok(Some(MergeRoom::of(alloc, Some(streams))?))
            }
            MergePhase::Queue => {
                let streams = all_streams(alloc, job)?;
                Ok(Some(MergeRoom::of(alloc, Some(streams))?))
            }
            _ => Ok(None),
        }
    }

    /// Room for `give_up` or `give_up_checkpoint`, behind the range's own. An error is out of memory (22).
    pub fn for_give_up(alloc: Global, job: &MergeJob) -> Result<MergeRoom, AllocError>
        ensures { IfOk result (λ room. room ≡ again_room_of job.now job.now.phase) }
    {
        match job.phase {
            MergePhase::Build { .. } => {
                let streams = all_streams(alloc, job)?;
                MergeRoom::of(alloc, Some(streams))
            }
            _ => MergeRoom::of(alloc, None),
        }
    }
}
