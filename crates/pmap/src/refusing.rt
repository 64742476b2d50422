//! Why the map does not do what a call asks, and the answer of a call.
ghost use Rattle.std.specs.Prelude.{◌≡◌, true, false, IfErr, IfSome, option_map};
ghost use Rattle.model_partition.specs.Map.{range_at, union_at};
ghost use Rattle.model_partition.specs.MapRules.{assign_fault, begin_merge_fault, begin_split_fault, complete_merge_fault, complete_split_fault, renew_fault};
ghost use Rattle.pmap.specs.Performs.{AnswersCall, as_rule, fault_of, is_failure};

use crate::caller::{Caller, KnownRange};
use crate::fault::MapFault;
use crate::plan::tell;
use bytes::Bytes;
use disk::DiskFault;
use pmap_table::{RangeTable, is_beside, is_same_holder, is_split, is_split_key};
use std::alloc::Global;
use wire::{AppendBody, Body, RangeId, Refusal, ServerNo, Step};

/// Why a range is not assigned to a server at a moment.
pub(crate) fn assign_fault(
    table: &RangeTable,
    range: RangeId,
    server: ServerNo,
    now: u64,
) -> Option<MapFault>
    ensures refusal { IfSome result (λ fault. is_failure fault ≡ false) }
    ensures value { result ≡ option_map fault_of (assign_fault server now (range_at table.now.map.ranges range)) }
{
    let Some(entry) = table.entry(range) else {
        return Some(MapFault::NotOwner);
    };
    match entry.holder {
        Some(holder) if holder != server && now < entry.until => { Some(MapFault::LeaseHeld) }
        _ => None,
    }
}

/// Why the lease of a range is not renewed for a server.
pub(crate) fn renew_fault(table: &RangeTable, range: RangeId, server: ServerNo) -> Option<MapFault>
    ensures refusal { IfSome result (λ fault. is_failure fault ≡ false) }
    ensures value { result ≡ option_map fault_of (renew_fault server (range_at table.now.map.ranges range)) }
{
    let Some(entry) = table.entry(range) else {
        return Some(MapFault::NotOwner);
    };
    match entry.holder {
        Some(holder) if holder == server => None,
        _ => Some(MapFault::NotOwner),
    }
}

/// Why a split is not begun.
pub(crate) fn begin_split_fault(
    table: &RangeTable,
    known: &KnownRange,
    key: &Bytes,
) -> Option<MapFault>
    ensures refusal { IfSome result (λ fault. is_failure fault ≡ false) }
    ensures value { result ≡ option_map fault_of (begin_split_fault known.now.generation key.now (range_at table.now.map.ranges known.now.range)) }
{
    match table.entry(known.range) {
        Some(entry) if entry.generation == known.generation => {
            if is_split_key(&entry.keys, key.as_slice()) {
                None
            } else {
                Some(MapFault::BadSplitKey)
            }
        }
        _ => Some(MapFault::GenerationChanged),
    }
}

/// Why a split is not completed.
pub(crate) fn complete_split_fault(table: &RangeTable, known: &KnownRange) -> Option<MapFault>
    ensures refusal { IfSome result (λ fault. is_failure fault ≡ false) }
    ensures value { result ≡ option_map fault_of (complete_split_fault known.now.generation (range_at table.now.map.ranges known.now.range)) }
{
    match table.entry(known.range) {
        Some(entry) if entry.generation == known.generation && is_split(&entry.pending) => None,
        _ => Some(MapFault::GenerationChanged),
    }
}

/// Why a merge is not begun.
pub(crate) fn begin_merge_fault(
    table: &RangeTable,
    left: &KnownRange,
    right: &KnownRange,
) -> Option<MapFault>
    ensures refusal { IfSome result (λ fault. is_failure fault ≡ false) }
    ensures value { result ≡ option_map fault_of (begin_merge_fault left.now.generation right.now.generation (range_at table.now.map.ranges left.now.range) (range_at table.now.map.ranges right.now.range)) }
{
    let Some(below) = table.entry(left.range) else {
        return Some(MapFault::GenerationChanged);
    };
    let Some(above) = table.entry(right.range) else {
        return Some(MapFault::GenerationChanged);
    };
    if !(below.generation == left.generation && above.generation == right.generation) {
        return Some(MapFault::GenerationChanged);
    }
    if !is_beside(&below.keys, &above.keys) {
        return Some(MapFault::NotAdjacent);
    }
    if !is_same_holder(below.holder, above.holder) {
        return Some(MapFault::NotOwner);
    }
    None
}

/// Why a merge is not completed.
pub(crate) fn complete_merge_fault(
    table: &RangeTable,
    left: &KnownRange,
    right: &KnownRange,
) -> Option<MapFault>
    ensures refusal { IfSome result (λ fault. is_failure fault ≡ false) }
    ensures value { result ≡ option_map fault_of (complete_merge_fault left.now.generation right.now.generation (range_at table.now.map.ranges left.now.range) (range_at table.now.map.ranges right.now.range) (union_at table.now.map.ranges left.now.range right.now.range)) }
{
    let Some(below) = table.entry(left.range) else {
        return Some(MapFault::GenerationChanged);
    };
    let Some(above) = table.entry(right.range) else {
        return Some(MapFault::GenerationChanged);
    };
    if !(below.generation == left.generation && above.generation == right.generation) {
        return Some(MapFault::GenerationChanged);
    }
    if table.union_at(left.range, right.range).is_none() {
        return Some(MapFault::GenerationChanged);
    }
    None
}

/// The answer of a call that was not refused.
pub(crate) fn answer(done: Result<Step, DiskFault>) -> Result<Step, MapFault>
    ensures rule { as_rule result ≡ done }
    ensures taken { IfErr result (λ e. is_failure e ≡ true) }
{
    match done {
        Ok(step) => Ok(step),
        Err(DiskFault::Failed) => Err(MapFault::DiskFailed),
        Err(DiskFault::Memory) => Err(MapFault::Memory),
    }
}

/// What the sender of a packet is told of its call: a refusal goes to it. Without memory for that (22) nothing is told.
pub(crate) fn told(
    alloc: Global,
    caller: &Caller,
    done: Result<Step, MapFault>,
) -> Result<Step, DiskFault>
    ensures { AnswersCall caller.now.from caller.now.request done result }
{
    let fault = match done {
        Ok(step) => return Ok(step),
        Err(fault) => fault,
    };
    let refusal = match fault {
        MapFault::NotOwner => Refusal::NotOwner,
        MapFault::LeaseHeld => Refusal::LeaseHeld,
        MapFault::BadSplitKey => Refusal::BadSplitKey,
        MapFault::NotAdjacent => Refusal::NotAdjacent,
        MapFault::GenerationChanged => Refusal::GenerationChanged,
        MapFault::DiskFailed => return Err(DiskFault::Failed),
        MapFault::Memory => return Err(DiskFault::Memory),
    };
    let request = caller.request;
    let body = Body::Append(AppendBody::Refused { request, refusal });
    match tell(alloc, caller.from, body) {
        Ok(step) => Ok(step),
        Err(_full) => Err(DiskFault::Memory),
    }
}
