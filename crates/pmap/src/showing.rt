//! What the map shows of a packet, before anything is done.
ghost use Rattle.std.specs.Prelude.{◌≡◌, IfOk};
ghost use Rattle.model_partition.specs.Map.{range_at, union_at};
ghost use Rattle.model_partition.specs.MapRules.{called, complete_merge_fault, complete_merge_rule, complete_split_fault, complete_split_rule, map_rule};
ghost use Rattle.wire.specs.declared.packet.Packet.{Packet as AnyPacket};

use crate::caller::{Caller, KnownRange};
use crate::planning::{plan_complete_merge, plan_complete_split};
use crate::refusing::{complete_merge_fault, complete_split_fault};
use pmap_table::RangeTable;
use std::alloc::{AllocError, Global};
use wire::{Body, MapBody, Notes, Packet};

/// What is shown of a split that is completed. An error is out of memory.
fn split_shown(
    alloc: Global,
    table: &RangeTable,
    caller: &Caller,
    known: &KnownRange,
) -> Result<Notes, AllocError>
    ensures { IfOk result (λ notes. (p : AnyPacket) →
        notes ≡ (called table.now.map p caller.now.request (complete_split_fault known.now.generation (range_at table.now.map.ranges known.now.range)) (complete_split_rule table.now.map caller.now.from caller.now.request known.now.range (range_at table.now.map.ranges known.now.range))).notes) }
{
    if complete_split_fault(table, known).is_some() {
        return Ok(Notes::new(alloc));
    }
    match plan_complete_split(alloc, table, caller, known.range) {
        Ok(plan) => Ok(plan.into_notes()),
        Err(full) => Err(full),
    }
}

/// What is shown of a merge that is completed. An error is out of memory.
fn merge_shown(
    alloc: Global,
    table: &RangeTable,
    caller: &Caller,
    left: &KnownRange,
    right: &KnownRange,
) -> Result<Notes, AllocError>
    ensures { IfOk result (λ notes. (p : AnyPacket) →
        notes ≡ (called table.now.map p caller.now.request (complete_merge_fault left.now.generation right.now.generation (range_at table.now.map.ranges left.now.range) (range_at table.now.map.ranges right.now.range) (union_at table.now.map.ranges left.now.range right.now.range)) (complete_merge_rule table.now.map caller.now.from caller.now.request left.now.range right.now.range (union_at table.now.map.ranges left.now.range right.now.range))).notes) }
{
    if complete_merge_fault(table, left, right).is_some() {
        return Ok(Notes::new(alloc));
    }
    match plan_complete_merge(alloc, table, caller, left.range, right.range) {
        Ok(plan) => Ok(plan.into_notes()),
        Err(full) => Err(full),
    }
}

/// What the rule of a packet shows: a split or a merge that it completes. An error is out of memory.
pub(crate) fn shown_by(
    alloc: Global,
    table: &RangeTable,
    packet: &Packet,
) -> Result<Notes, AllocError>
    ensures { IfOk result (λ notes. notes ≡ (map_rule table.now.map packet.now packet.now.body).notes) }
{
    let from = packet.from;
    match &packet.body {
        Body::Map(
            MapBody::CompleteSplit {
                range,
                generation,
                request,
            },
        ) => {
            let caller = Caller {
                from,
                request: *request,
            };
            let known = KnownRange {
                range: *range,
                generation: *generation,
            };
            split_shown(alloc, table, &caller, &known)
        }
        Body::Map(
            MapBody::CompleteMerge {
                left,
                left_generation,
                right,
                right_generation,
                request,
            },
        ) => {
            let caller = Caller {
                from,
                request: *request,
            };
            let below = KnownRange {
                range: *left,
                generation: *left_generation,
            };
            let above = KnownRange {
                range: *right,
                generation: *right_generation,
            };
            merge_shown(alloc, table, &caller, &below, &above)
        }
        _ => Ok(Notes::new(alloc)),
    }
}
