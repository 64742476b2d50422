//! What is made before a step of a range, for what its split or its merge then does.
ghost use Rattle.std.specs.Prelude.{◌≡◌, None, IfOk};
ghost use Rattle.model_partition.specs.Server.{split_of};
ghost use Rattle.range.specs.ServerStep.{merge_again, merge_by, merge_room, split_again, split_room};

use crate::merge_jobs::merge_with;
use model_partition::{MergeJob, SplitJob};
use range_merge::MergeRoom;
use range_split::SplitRoom;
use std::alloc::{AllocError, Global};
use std::collections::BTreeMap;

/// Room for what comes of the split of a range behind a step of it, and of its merge, where one is under way and anything may come.
#[derive(Drop)]
pub(crate) struct StepRoom {
    pub(crate) split: Option<SplitRoom>,
    pub(crate) merge: Option<MergeRoom>,
}

fn split_room(
    alloc: Global,
    splits: &BTreeMap<u64, SplitJob>,
    range: u64,
) -> Result<Option<SplitRoom>, AllocError>
    ensures { IfOk result (λ room. room ≡ split_room (split_of splits.now.entries range)) }
{
    match splits.get(&range) {
        None => Ok(None),
        Some(job) => SplitRoom::for_step(alloc, job),
    }
}

fn split_again(
    alloc: Global,
    splits: &BTreeMap<u64, SplitJob>,
    range: u64,
) -> Result<Option<SplitRoom>, AllocError>
    ensures { IfOk result (λ room. room ≡ split_again (split_of splits.now.entries range)) }
{
    match splits.get(&range) {
        None => Ok(None),
        Some(job) => Ok(Some(SplitRoom::for_give_up(alloc, job)?)),
    }
}

fn merge_room(
    alloc: Global,
    merges: &BTreeMap<u64, MergeJob>,
    range: u64,
) -> Result<Option<MergeRoom>, AllocError>
    ensures { IfOk result (λ room. room ≡ merge_room (merge_by merges.now.entries range)) }
{
    match merge_with(merges, range) {
        None => Ok(None),
        Some(left) => match merges.get(&left) {
            None => Ok(None),
            Some(job) => MergeRoom::for_step(alloc, job),
        },
    }
}

fn merge_again(
    alloc: Global,
    merges: &BTreeMap<u64, MergeJob>,
    range: u64,
) -> Result<Option<MergeRoom>, AllocError>
    ensures { IfOk result (λ room. room ≡ merge_again (merge_by merges.now.entries range)) }
{
    match merge_with(merges, range) {
        None => Ok(None),
        Some(left) => match merges.get(&left) {
            None => Ok(None),
            Some(job) => Ok(Some(MergeRoom::for_give_up(alloc, job)?)),
        },
    }
}

impl StepRoom {
    /// None, where neither a split nor a merge is under way.
    pub(crate) fn nothing() -> StepRoom
        ensures { result ≡ record { split = None; merge = None } }
    {
        StepRoom {
            split: None,
            merge: None,
        }
    }

    /// Room for what comes behind a step of a range. An error is out of memory (22).
    pub(crate) fn for_step(
        alloc: Global,
        splits: &BTreeMap<u64, SplitJob>,
        merges: &BTreeMap<u64, MergeJob>,
        range: u64,
    ) -> Result<StepRoom, AllocError>
        ensures split { IfOk result (λ room. room.split ≡ split_room (split_of splits.now.entries range)) }
        ensures merge { IfOk result (λ room. room.merge ≡ merge_room (merge_by merges.now.entries range)) }
    {
        let split = split_room(alloc, splits, range)?;
        let merge = merge_room(alloc, merges, range)?;
        Ok(StepRoom { split, merge })
    }

    /// Room for what is asked again once a range has given up. An error is out of memory (22).
    pub(crate) fn for_give_up(
        alloc: Global,
        splits: &BTreeMap<u64, SplitJob>,
        merges: &BTreeMap<u64, MergeJob>,
        range: u64,
    ) -> Result<StepRoom, AllocError>
        ensures split { IfOk result (λ room. room.split ≡ split_again (split_of splits.now.entries range)) }
        ensures merge { IfOk result (λ room. room.merge ≡ merge_again (merge_by merges.now.entries range)) }
    {
        let split = split_again(alloc, splits, range)?;
        let merge = merge_again(alloc, merges, range)?;
        Ok(StepRoom { split, merge })
    }
}
