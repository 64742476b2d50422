//! What comes of a merge that loses a range, or both.
ghost use Rattle.std.specs.Prelude.{◌≡◌, ◌<◌, ◌+◌, ◌^◌, IfOk, OnErr};
ghost use Rattle.model_partition.specs.Range.{RangeState as RangeStateOf};
ghost use Rattle.model_partition.specs.declared.merge_job.MergeJob.{MergeJob as MergeJobState};
ghost use Rattle.model_partition.specs.Merges as rules;
ghost use Rattle.range_merge.specs.Steps.{outcome, IsShort};

use crate::taken::MergeTaken;
use model_partition::{MergeSide, ServerContext};
use range_core::RangeState;
use std::alloc::{AllocError, Global};

/// A range whose merge is no more: one that is paused stays so, and another takes transactions again.
pub fn free(state: &mut RangeState)
    ensures { state.new ≡ rules.freed state.old }
{
    if !state.pause.is_paused() {
        state.resume();
    }
}

/// Both ranges go, and their merge with them; the Gets that wait there, at most 256 at each, are told that this server does not hold
/// the range (30). An error is out of memory (22).
pub(crate) fn ends(
    alloc: Global,
    context: &ServerContext,
    left: &RangeState,
    right: &RangeState,
) -> Result<MergeTaken, AllocError>
    requires numbers { context.now.count + 1 < 2 ^ 64 }
    ensures ok { IfOk result (λ t. (job : MergeJobState) → rules.ends context.now left.now right.now ≡ outcome t left.now right.now job) }
    ensures short { IfOk result IsShort }
{
    let mut packets = left.lookups.refusals(alloc, context)?;
    let mut others = right.lookups.refusals(alloc, context)?;
    packets.append(&mut others)?;
    Ok(MergeTaken::ends(true, true, context.count + 1, packets))
}

/// One of the two goes, whose waiting users are told so (30), at most 1,280, and the merge with it; the other is freed. Where memory
/// runs out (22) nothing has changed.
pub(crate) fn loses(
    alloc: Global,
    context: &ServerContext,
    left: &mut RangeState,
    right: &mut RangeState,
    side: MergeSide,
) -> Result<MergeTaken, AllocError>
    requires numbers { context.now.count + 1 < 2 ^ 64 }
    ensures ok { IfOk result (λ t. (job : MergeJobState) → rules.loses context.now left.old right.old side ≡ outcome t left.new right.new job) }
    ensures left { OnErr result (left.new ≡ left.old) }
    ensures right { OnErr result (right.new ≡ right.old) }
    ensures short { IfOk result IsShort }
{
    match side {
        MergeSide::Left => {
            let packets = left.refusals(alloc, context)?;
            free(right);
            Ok(MergeTaken::ends(true, false, context.count + 1, packets))
        }
        MergeSide::Right => {
            let packets = right.refusals(alloc, context)?;
            free(left);
            Ok(MergeTaken::ends(false, true, context.count + 1, packets))
        }
    }
}

/// The merge ends, and both ranges are served on.
pub(crate) fn parts(alloc: Global, context: &ServerContext) -> MergeTaken
    ensures ok { (l r : RangeStateOf) (job : MergeJobState) → rules.parts context.now l r ≡ outcome result l r job }
    ensures short { IsShort result }
{
    MergeTaken::ends(false, false, context.count, Vec::new(alloc))
}
