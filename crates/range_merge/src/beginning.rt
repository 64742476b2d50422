//! How a merge begins.
ghost use Rattle.std.specs.Prelude.{◌≡◌};
ghost use Rattle.model_partition.specs.MapRules as map;
ghost use Rattle.model_partition.specs.Range.{is_serving, request};
ghost use Rattle.model_partition.specs.Merges as rules;

use crate::packets::begin_packet;
use bytes::Bytes;
use metadata::KeyRange;
use model_partition::{MergeJob, MergePhase, ServerContext, Stage, next_request};
use range_core::RangeState;
use wire::{Packet, RangeId, Refusal};

/// How many indexes two ranges have together that are merged, at most.
const MOST_INDEXES: usize = 64;

fn is_served(state: &RangeState) -> bool
    ensures { result ≡ is_serving state.now.stage }
{
    state.content.stage == Stage::Serving
}

/// Whether a checkpoint, a split or a merge of the range is under way.
fn is_busy(state: &RangeState, jobs: bool) -> bool
    ensures { result ≡ rules.is_busy state.now jobs }
{
    jobs || state.content.control.is_some() || state.content.table.fixed().is_some()
}

fn ends_at(end: &Option<Bytes>, low: &Bytes) -> bool
    ensures { result ≡ map.ends_at end.now low.now }
{
    match end {
        None => false,
        Some(high) => high.as_slice() == low.as_slice(),
    }
}

/// Whether the one ends where the other begins.
fn is_beside(keys: &KeyRange, others: &KeyRange) -> bool
    ensures { result ≡ map.is_beside keys.now others.now }
{
    ends_at(&keys.high, &others.low)
}

/// Whether the left range ends where the right one begins; none is beside itself.
fn are_beside(left: &RangeState, right: &RangeState) -> bool
    ensures { result ≡ rules.are_beside left.now right.now }
{
    left.content.load.range != right.content.load.range
        && is_beside(&left.content.said.keys, &right.content.said.keys)
}

/// Whether the two have so many indexes that no record would name them.
fn are_too_many(left: &RangeState, right: &RangeState) -> bool
    ensures { result ≡ rules.are_too_many left.now right.now }
{
    let some = left.content.indexes.as_slice().len();
    let more = right.content.indexes.as_slice().len();
    some > MOST_INDEXES || more > MOST_INDEXES - some
}

/// Why no merge of two ranges that this server holds begins: 38 until both are served, 34 while one is paused, 35 while a
/// checkpoint, a split or a merge of one is under way, 40 where the left one does not end where the right one begins, and 37 where
/// they have more than 64 indexes together, the first that is met; or none. `left_jobs` and `right_jobs` tell whether a split or a
/// merge of either is under way.
pub fn merge_fault(
    left: &RangeState,
    right: &RangeState,
    left_jobs: bool,
    right_jobs: bool,
) -> Option<Refusal>
    ensures { result ≡ rules.merge_fault left.now right.now left_jobs right_jobs }
{
    if !is_served(left) || !is_served(right) {
        return Some(Refusal::Loading);
    }
    if left.pause.is_paused() || right.pause.is_paused() {
        return Some(Refusal::Paused);
    }
    if is_busy(left, left_jobs) || is_busy(right, right_jobs) {
        return Some(Refusal::Busy);
    }
    if !are_beside(left, right) {
        return Some(Refusal::NotAdjacent);
    }
    if are_too_many(left, right) {
        return Some(Refusal::TooLarge);
    }
    None
}

/// A merge of two ranges, and the packet that asks the map for the number of the new one, under the next number of the server. That
/// nothing refuses it is for the caller to see.
pub fn begin(context: &ServerContext, left: &RangeState, right: &RangeState) -> (MergeJob, Packet)
    ensures job { result.0 ≡ rules.new_merge context.now left.now right.now }
    ensures packet { result.1 ≡ rules.begin_packet context.now (rules.new_merge context.now left.now right.now) (request context.now) }
{
    let request = next_request(context);
    let job = MergeJob {
        left: left.content.load.range,
        left_generation: left.content.load.generation,
        right: right.content.load.range,
        right_generation: right.content.load.generation,
        into: RangeId(0),
        phase: MergePhase::Begin { request },
    };
    let packet = begin_packet(context, &job, &request);
    (job, packet)
}
