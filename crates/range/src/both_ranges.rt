//! The two ranges of a merge, which change together.
ghost use Rattle.std.specs.Prelude.{◌≡◌, ◌<◌, ◌+◌, ◌^◌, Some, true, is_some, IfOk, OnErr};
ghost use Rattle.std.specs.BTreeMap.{is_at};
ghost use Rattle.std.specs.Map.{set_value};
ghost use Rattle.std.specs.Ordering.{nat_cmp};
ghost use Rattle.model_partition.specs.Range.{RangeState as RangeStateOf};
ghost use Rattle.model_partition.specs.Server.{both_of, range_of};
ghost use Rattle.model_partition.specs.Merges as rules;
ghost use Rattle.range_merge.specs.Steps.{IsShort};
ghost use Rattle.range.specs.ServerStep.{IsMergeStep, without};

use model_partition::{MergeJob, ServerContext};
use range_core::RangeState;
use range_merge::{MergeTaken, left_trimmed, reply};
use std::alloc::{AllocError, Global};
use std::collections::BTreeMap;
use std::mem;
use wire::{Fence, Packet, RangeId};

/// Whether the two ranges of a merge are two, and held.
pub(crate) fn are_held(ranges: &BTreeMap<u64, RangeState>, job: &MergeJob) -> bool
    ensures { result ≡ is_some (both_of ranges.now.entries job.now) }
{
    job.left != job.right && ranges.contains_key(&job.left.0) && ranges.contains_key(&job.right.0)
}

/// A range, where it is held, and another change places.
#[tactic(auto, using(crate::proofs::Entries::set_absent))]
fn exchange(ranges: &mut BTreeMap<u64, RangeState>, range: RangeId, state: &mut RangeState)
    ensures ranges { ranges.new.entries ≡ set_value (is_at (nat_cmp range)) ranges.old.entries state.old }
    ensures state { (r : RangeStateOf) → range_of ranges.old.entries range ≡ Some r → state.new ≡ r }
{
    if let Some(held) = ranges.get_mut(&range.0) {
        mem::swap(held, state);
    }
}

/// Those of the two ranges that are dropped go.
fn drop_some(
    ranges: &mut BTreeMap<u64, RangeState>,
    low: RangeId,
    high: RangeId,
    taken: &MergeTaken,
)
    ensures { ranges.new.entries ≡ without taken.now.right_dropped high (without taken.now.left_dropped low ranges.old.entries) }
{
    if taken.left_dropped {
        drop(ranges.remove(&low.0));
    }
    if taken.right_dropped {
        drop(ranges.remove(&high.0));
    }
}

/// An answer to a merge: what it leaves of the two ranges. Where memory runs out (22) nothing has changed.
pub(crate) fn reply_to_both(
    alloc: Global,
    context: &ServerContext,
    ranges: &mut BTreeMap<u64, RangeState>,
    job: &mut MergeJob,
    packet: &Packet,
) -> Result<MergeTaken, AllocError>
    requires numbers { context.now.count + 1024 < 2 ^ 64 }
    requires held { is_some (both_of ranges.old.entries job.old) ≡ true }
    ensures ok { IfOk result (λ t. (l r : RangeStateOf) → both_of ranges.old.entries job.old ≡ Some (l, r)
        → IsMergeStep (rules.merge_reply context.now l r job.old packet.now.body) job.old job.new ranges.old.entries ranges.new.entries t) }
    ensures ranges { OnErr result (ranges.new.entries ≡ ranges.old.entries) }
    ensures kept { OnErr result (job.new ≡ job.old) }
    ensures short { IfOk result IsShort }
{
    let (low, high) = (job.left, job.right);
    // The map lends one range at a time: this one stands in the place of the left one while that is out of it.
    let (mut left, _packet) = RangeState::assign(alloc, context, low, Fence(0), 0)?;
    exchange(ranges, low, &mut left);
    let Some(right) = ranges.get_mut(&high.0) else {
        unreachable!()
    };
    let told = reply(alloc, context, &mut left, right, job, packet);
    exchange(ranges, low, &mut left);
    match told {
        Ok(taken) => {
            drop_some(ranges, low, high, &taken);
            Ok(taken)
        }
        Err(full) => Err(full),
    }
}

/// The checkpoint of the left range of a merge ends with a Trim: what that leaves of the two ranges. Where memory runs out (22) nothing
/// has changed.
pub(crate) fn trim_both(
    alloc: Global,
    context: &ServerContext,
    ranges: &mut BTreeMap<u64, RangeState>,
    job: &mut MergeJob,
    trim: (u64, bool),
) -> Result<MergeTaken, AllocError>
    requires numbers { context.now.count + 1024 < 2 ^ 64 }
    requires held { is_some (both_of ranges.old.entries job.old) ≡ true }
    ensures ok { IfOk result (λ t. (l r : RangeStateOf) → both_of ranges.old.entries job.old ≡ Some (l, r)
        → IsMergeStep (rules.left_ends context.now l r job.old trim) job.old job.new ranges.old.entries ranges.new.entries t) }
    ensures ranges { OnErr result (ranges.new.entries ≡ ranges.old.entries) }
    ensures kept { OnErr result (job.new ≡ job.old) }
    ensures short { IfOk result IsShort }
{
    let (low, high) = (job.left, job.right);
    // The map lends one range at a time: this one stands in the place of the left one while that is out of it.
    let (mut left, _packet) = RangeState::assign(alloc, context, low, Fence(0), 0)?;
    exchange(ranges, low, &mut left);
    let Some(right) = ranges.get_mut(&high.0) else {
        unreachable!()
    };
    let told = left_trimmed(alloc, context, &mut left, right, job, trim);
    exchange(ranges, low, &mut left);
    match told {
        Ok(taken) => {
            drop_some(ranges, low, high, &taken);
            Ok(taken)
        }
        Err(full) => Err(full),
    }
}
