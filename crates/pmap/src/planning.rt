//! What the map is about to do with a call: the rules, before anything is written.
ghost use Rattle.std.specs.Prelude.{◌≡◌, None, IfOk};
ghost use Rattle.model_partition.specs.Map.{range_at, range_of_key, union_at};
ghost use Rattle.model_partition.specs.MapRules.{assign_rule, begin_merge_fault, begin_merge_rule, begin_split_fault, begin_split_rule, complete_merge_rule, complete_split_rule, renew_fault, renew_rule, route_rule};
ghost use Rattle.pmap.specs.Plan.{outcome_of, MayWrite};

use crate::caller::{Caller, KnownRange};
use crate::plan::{Plan, tell, tell_and_show};
use bytes::Bytes;
use model_partition::{MapRecord, Pending};
use pmap_table::{RangeTable, halves_at, next_generation, union_with};
use std::alloc::{AllocError, Global};
use wire::{ActorId, Body, MapBody, Note, Packet, RangeId, ReqNo, ServerNo};

/// What the map does to assign a range. An error is out of memory.
pub(crate) fn plan_assign(
    alloc: Global,
    table: &RangeTable,
    range: RangeId,
    server: ServerNo,
    until: u64,
) -> Result<Plan, AllocError>
    ensures rule { IfOk result (λ plan. outcome_of table.now.map plan ≡ assign_rule table.now.map range server until (range_at table.now.map.ranges range)) }
    ensures may { IfOk result (λ plan. MayWrite table.now.map plan.new_record) }
{
    let Some(entry) = table.entry(range) else {
        return Ok(Plan::nothing(alloc));
    };
    let Some(generation) = next_generation(entry) else {
        return Ok(Plan::nothing(alloc));
    };
    let told = MapBody::Assign {
        range,
        generation,
        until: entry.until.max(until),
    };
    let step = tell(alloc, ActorId::Server(server), Body::Map(told))?;
    Ok(Plan {
        step,
        new_record: Some(MapRecord::Assign {
            range,
            server,
            until,
        }),
    })
}

/// What the map does to renew the lease of a range that the server holds. An error is out of memory.
pub(crate) fn plan_renew(
    alloc: Global,
    table: &RangeTable,
    range: RangeId,
    server: ServerNo,
    until: u64,
) -> Result<Plan, AllocError>
    requires { renew_fault server (range_at table.now.map.ranges range) ≡ None }
    ensures rule { IfOk result (λ plan. outcome_of table.now.map plan ≡ renew_rule table.now.map range server until (range_at table.now.map.ranges range)) }
    ensures may { IfOk result (λ plan. MayWrite table.now.map plan.new_record) }
{
    let Some(entry) = table.entry(range) else {
        return Ok(Plan::nothing(alloc));
    };
    let told = MapBody::Renew {
        range,
        generation: entry.generation,
        until: entry.until.max(until),
    };
    let step = tell(alloc, ActorId::Server(server), Body::Map(told))?;
    Ok(Plan {
        step,
        new_record: Some(MapRecord::Renew { range, until }),
    })
}

/// What the map does to begin a split. An error is out of memory.
pub(crate) fn plan_begin_split(
    alloc: Global,
    table: &RangeTable,
    caller: &Caller,
    known: &KnownRange,
    key: &Bytes,
) -> Result<Plan, AllocError>
    requires { begin_split_fault known.now.generation key.now (range_at table.now.map.ranges known.now.range) ≡ None }
    ensures rule { IfOk result (λ plan. outcome_of table.now.map plan ≡ begin_split_rule table.now.map caller.now.from caller.now.request known.now.range key.now (range_at table.now.map.ranges known.now.range)) }
    ensures may { IfOk result (λ plan. MayWrite table.now.map plan.new_record) }
{
    let Some(entry) = table.entry(known.range) else {
        return Ok(Plan::nothing(alloc));
    };
    let request = caller.request;
    if let Some((low, high)) = halves_at(&entry.pending, key.as_slice()) {
        let told = MapBody::SplitBegun { request, low, high };
        return Plan::answer(alloc, caller.from, told);
    }
    if !table.has_numbers(2) {
        return Ok(Plan::nothing(alloc));
    }
    let low = table.next();
    let high = RangeId(low.0 + 1);
    let told = MapBody::SplitBegun { request, low, high };
    Ok(Plan {
        step: tell(alloc, caller.from, Body::Map(told))?,
        new_record: Some(MapRecord::BeginSplit {
            range: known.range,
            key: key.clone()?,
        }),
    })
}

/// What the map does to complete a split. An error is out of memory.
pub(crate) fn plan_complete_split(
    alloc: Global,
    table: &RangeTable,
    caller: &Caller,
    range: RangeId,
) -> Result<Plan, AllocError>
    ensures rule { IfOk result (λ plan. outcome_of table.now.map plan ≡ complete_split_rule table.now.map caller.now.from caller.now.request range (range_at table.now.map.ranges range)) }
    ensures may { IfOk result (λ plan. MayWrite table.now.map plan.new_record) }
{
    let Some(entry) = table.entry(range) else {
        return Ok(Plan::nothing(alloc));
    };
    let Some(Pending::Split { key, low, high }) = &entry.pending else {
        return Ok(Plan::nothing(alloc));
    };
    let told = MapBody::SplitDone {
        request: caller.request,
    };
    let shown = Note::Split {
        range,
        low: *low,
        high: *high,
        key: key.clone()?,
    };
    Ok(Plan {
        step: tell_and_show(alloc, caller.from, Body::Map(told), shown)?,
        new_record: Some(MapRecord::CompleteSplit { range }),
    })
}

/// What the map does to begin a merge. An error is out of memory.
pub(crate) fn plan_begin_merge(
    alloc: Global,
    table: &RangeTable,
    caller: &Caller,
    left: &KnownRange,
    right: &KnownRange,
) -> Result<Plan, AllocError>
    requires { begin_merge_fault left.now.generation right.now.generation (range_at table.now.map.ranges left.now.range) (range_at table.now.map.ranges right.now.range) ≡ None }
    ensures rule { IfOk result (λ plan. outcome_of table.now.map plan ≡ begin_merge_rule table.now.map caller.now.from caller.now.request left.now.range right.now.range (range_at table.now.map.ranges left.now.range)) }
    ensures may { IfOk result (λ plan. MayWrite table.now.map plan.new_record) }
{
    let Some(entry) = table.entry(left.range) else {
        return Ok(Plan::nothing(alloc));
    };
    let request = caller.request;
    if let Some(range) = union_with(&entry.pending, right.range) {
        return Plan::answer(alloc, caller.from, MapBody::MergeBegun { request, range });
    }
    if !table.has_numbers(1) {
        return Ok(Plan::nothing(alloc));
    }
    let told = MapBody::MergeBegun {
        request,
        range: table.next(),
    };
    Ok(Plan {
        step: tell(alloc, caller.from, Body::Map(told))?,
        new_record: Some(MapRecord::BeginMerge {
            left: left.range,
            right: right.range,
        }),
    })
}

/// What the map does to complete a merge. An error is out of memory.
pub(crate) fn plan_complete_merge(
    alloc: Global,
    table: &RangeTable,
    caller: &Caller,
    left: RangeId,
    right: RangeId,
) -> Result<Plan, AllocError>
    ensures rule { IfOk result (λ plan. outcome_of table.now.map plan ≡ complete_merge_rule table.now.map caller.now.from caller.now.request left right (union_at table.now.map.ranges left right)) }
    ensures may { IfOk result (λ plan. MayWrite table.now.map plan.new_record) }
{
    let Some(range) = table.union_at(left, right) else {
        return Ok(Plan::nothing(alloc));
    };
    let told = MapBody::MergeDone {
        request: caller.request,
    };
    let shown = Note::Merged { left, right, range };
    Ok(Plan {
        step: tell_and_show(alloc, caller.from, Body::Map(told), shown)?,
        new_record: Some(MapRecord::CompleteMerge { left, right }),
    })
}

/// What the map answers to who asks where a key is. An error is out of memory.
pub(crate) fn plan_route(
    alloc: Global,
    table: &RangeTable,
    packet: &Packet,
    key: &[u8],
    request: ReqNo,
) -> Result<Plan, AllocError>
    ensures rule { IfOk result (λ plan. outcome_of table.now.map plan ≡ route_rule table.now.map packet.now request (range_of_key table.now.map.ranges key.now)) }
    ensures may { IfOk result (λ plan. MayWrite table.now.map plan.new_record) }
{
    let entry = table.covering(key);
    let told = MapBody::RouteIs {
        request,
        range: entry.range,
        server: entry.holder,
    };
    Plan::answer(alloc, packet.from, told)
}
