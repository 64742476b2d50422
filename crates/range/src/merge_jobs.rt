//! Merges that are under way, by the numbers of their left ranges.
ghost use Rattle.std.specs.Prelude.{◌≡◌, ◌||◌, is_some};
ghost use Rattle.model_partition.specs.Server.{is_of, merge_awaiting, merge_with, split_of};

use model_partition::{MergeJob, SplitJob};
use range_merge::awaits;
use std::collections::BTreeMap;
use wire::ReqNo;

/// Whether a range is one of the two of a merge.
fn is_of(range: u64, job: &MergeJob) -> bool
    ensures { result ≡ is_of range job.now }
{
    job.left.0 == range || job.right.0 == range
}

/// The number of the merge that a range is part of, if one is under way.
pub(crate) fn merge_with(merges: &BTreeMap<u64, MergeJob>, range: u64) -> Option<u64>
    ensures { result ≡ merge_with merges.now.entries range }
{
    for (left, job) in merges {
        if is_of(range, job) {
            return Some(*left);
        }
    }
    None
}

/// The number of the merge that waits for an answer of this number, if there is one.
pub(crate) fn merge_awaiting(merges: &BTreeMap<u64, MergeJob>, request: &ReqNo) -> Option<u64>
    ensures { result ≡ merge_awaiting merges.now.entries request.now }
{
    for (left, job) in merges {
        if awaits(job, request) {
            return Some(*left);
        }
    }
    None
}

/// Whether a range is being split or merged.
pub(crate) fn has_jobs(
    splits: &BTreeMap<u64, SplitJob>,
    merges: &BTreeMap<u64, MergeJob>,
    range: u64,
) -> bool
    ensures { result ≡ (is_some (split_of splits.now.entries range) || is_some (merge_with merges.now.entries range)) }
{
    splits.contains_key(&range) || merge_with(merges, range).is_some()
}
