//! Groups that a client is given.
ghost use Rattle.std.specs.Prelude.{◌≡◌, true, false, take, None, IfOk};
ghost use Rattle.checkpoint_format.specs.Index.{IsIndex, fits_a_group};
ghost use Rattle.checkpoint.specs.PageGroups.{PagesState};
ghost use Rattle.model_partition.specs.CheckpointStates.{CheckpointState, is_recording};
ghost use Rattle.model_partition.specs.Checkpoints.{index_if_fit, next_append, with_phase};
ghost use Rattle.range_checkpoint.specs.Steps as specs;

use block_types::Group;
use checkpoint::Index;
use client::{Appending, StreamClient};
use model_partition::{CheckpointPhase, ServerContext, next_request};
use std::alloc::{AllocError, Global};
use wire::{Blocks, Packet};

/// A group, ready to be appended, whose list it shares. An error is out of memory (22).
pub fn appending_of(group: &Group) -> Result<Appending, AllocError>
    ensures { IfOk result (λ blocks. blocks ≡ group.now) }
{
    let blocks = Blocks::of_group(group)?;
    Appending::of(&blocks)
}

/// An index, ready to be appended, if it fits a group.
fn index_append(alloc: Global, index: &Index) -> Result<Option<Appending>, AllocError>
    requires { fits_a_group index.now ≡ true → IsIndex index.now }
    ensures { IfOk result (λ blocks. blocks ≡ index_if_fit index.now) }
{
    if !index.fits_a_group() {
        return Ok(None);
    }
    let group = index.encode(alloc)?;
    Ok(Some(appending_of(&group)?))
}

/// What a checkpoint appends next, and what it waits for then.
#[derive(Drop)]
pub(crate) struct NextAppend {
    pub(crate) phase: CheckpointPhase,
    pub(crate) blocks: Option<Appending>,
}

/// The group of pages, or where there is none the index.
pub(crate) fn append_of(
    alloc: Global,
    group: Option<Group>,
    index: &Index,
) -> Result<NextAppend, AllocError>
    requires { fits_a_group index.now ≡ true → IsIndex index.now }
    ensures next { IfOk result (λ next. (job : CheckpointState) → job.pages.index ≡ index.now → next_append job group ≡ (with_phase job next.phase, next.blocks)) }
    ensures phase { IfOk result (λ next. is_recording next.phase ≡ false) }
{
    match group {
        Some(group) => Ok(NextAppend {
            phase: CheckpointPhase::Pages,
            blocks: Some(appending_of(&group)?),
        }),
        None => Ok(NextAppend {
            phase: CheckpointPhase::Index,
            blocks: index_append(alloc, index)?,
        }),
    }
}

/// The client is given the group, if there is one, and sends it unless it is busy.
pub(crate) fn send(
    client: &mut StreamClient,
    context: &ServerContext,
    blocks: Option<Appending>,
) -> Option<Packet>
    ensures { specs.sent context.now client.old blocks ≡ record { after = client.new; packet = result; news = None } }
{
    match blocks {
        None => None,
        Some(blocks) => {
            client.pick = context.pick;
            client.append(&next_request(context), blocks).ok()
        }
    }
}
