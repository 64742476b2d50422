//! What a step of a split takes of memory, made beforehand.
ghost use Rattle.std.specs.Prelude.{◌≡◌, IfOk};
ghost use Rattle.range_split.specs.Rooms.{room_of, again_room_of};

use crate::built_streams::all_streams;
use crate::records::record_of;
use bytes::Bytes;
use client::Appending;
use model_partition::{SplitJob, SplitPhase};
use std::alloc::{AllocError, Global};
use std::marker::Model;
use wire::{Modifies, Packet};

/// How many packets go into the room: those of a step of the range, at most 1,400, and that of the split.
const MOST_PACKETS: usize = 1_401;

/// What a step of a split takes of memory, where it comes behind a step of its range: the key that the map is asked about, the record
/// of the split, or the streams that are to be built, where it needs one of these; and room for what both steps send.
#[derive(Drop)]
pub struct SplitRoom {
    pub(crate) key: Option<Bytes>,
    pub(crate) blocks: Option<Appending>,
    pub(crate) streams: Option<Modifies>,
    pub(crate) packets: Vec<Packet>,
}

impl Model for SplitRoom {
    ghost use Rattle.std.specs.Prelude.{◌≡◌, ◌≤◌, [], vec_capacity};
    ghost use Rattle.range_split.specs.Rooms as specs;

    ghost Value = { specs.RoomState };

    ghost view = { λ room. record { key = room.key; record_blocks = room.blocks; streams = room.streams } };

    ghost invariant = { λ room. (room.packets.items ≡ []) × (1401 ≤ vec_capacity room.packets) };
}

impl SplitRoom {
    fn of(
        alloc: Global,
        key: Option<Bytes>,
        blocks: Option<Appending>,
        streams: Option<Modifies>,
    ) -> Result<SplitRoom, AllocError>
        ensures { IfOk result (λ room. room ≡ record { key = key; record_blocks = blocks; streams = streams }) }
    {
        Ok(SplitRoom {
            key,
            blocks,
            streams,
            packets: Vec::with_capacity(alloc, MOST_PACKETS)?,
        })
    }

    /// Room for what comes behind a step of the range, where anything may: none is needed while the split waits for an answer of its
    /// own. It serves `follow` behind any step, since it depends on the split alone. An error is out of memory (22).
    pub fn for_step(alloc: Global, job: &SplitJob) -> Result<Option<SplitRoom>, AllocError>
        ensures { IfOk result (λ room. room ≡ room_of job.now job.now.phase) }
    {
        match job.phase {
            SplitPhase::Checkpoint | SplitPhase::Queue => {
                let blocks = record_of(alloc, job)?;
                Ok(Some(SplitRoom::of(alloc, None, blocks, None)?))
            }
            SplitPhase::Record => {
                let streams = all_streams(alloc, job)?;
                Ok(Some(SplitRoom::of(alloc, None, None, Some(streams))?))
            }
            _ => Ok(None),
        }
    }

    /// Room for `give_up`, behind the range's own. An error is out of memory (22).
    pub fn for_give_up(alloc: Global, job: &SplitJob) -> Result<SplitRoom, AllocError>
        ensures { IfOk result (λ room. room ≡ again_room_of job.now job.now.phase) }
    {
        match job.phase {
            SplitPhase::Begin { .. } => {
                let key = job.key.clone()?;
                SplitRoom::of(alloc, Some(key), None, None)
            }
            SplitPhase::Build { .. } => {
                let streams = all_streams(alloc, job)?;
                SplitRoom::of(alloc, None, None, Some(streams))
            }
            _ => SplitRoom::of(alloc, None, None, None),
        }
    }
}
