//! What a call is about to do is done: the record is written first, and then the table changes.
ghost use Rattle.std.specs.Prelude.{◌≡◌, false, None};
ghost use Rattle.block_types.specs.declared.record.Record.TheVariants as records;
ghost use Rattle.disk.specs.Appends.{Appends};
ghost use Rattle.model_partition.specs.RecordBytes.{HasShortKey, spelled};
ghost use Rattle.model_partition.specs.Map.{range_at, range_of_key, union_at};
ghost use Rattle.model_partition.specs.MapRules.{assign_rule, begin_merge_fault, begin_merge_rule, begin_split_fault, begin_split_rule, complete_merge_rule, complete_split_rule, renew_fault, renew_rule, route_rule};
ghost use Rattle.pmap.specs.PlanPerformed.{PlanPerformed};
ghost use Rattle.pmap.specs.Plan.{outcome_of, MayWrite};

use crate::caller::{Caller, KnownRange};
use crate::plan::Plan;
use crate::planning::{
    plan_assign, plan_begin_merge, plan_begin_split, plan_complete_merge, plan_complete_split,
    plan_renew, plan_route,
};
use block_types::Record;
use bytes::Bytes;
use disk::{Disk, DiskFault, RecordFile};
use model_partition::MapRecord;
use pmap_table::{RangeTable, encode};
use std::alloc::Global;
use wire::{Packet, RangeId, ReqNo, ServerNo, Step};

/// Adds a record to the map's file.
fn write<D: Disk>(
    alloc: Global,
    file: &mut RecordFile<D>,
    new_record: &MapRecord,
) -> Result<(), DiskFault>
    requires running { file.old.stopped ≡ false }
    requires short { HasShortKey new_record.now }
    ensures { Appends D.state file.old file.new (records.Manage (spelled new_record.now)) result }
{
    let text = encode(alloc, new_record)?;
    file.append(alloc, &Record::Manage { text })
}

/// Does it. At an error the table is as it was.
fn perform<D: Disk>(
    table: &mut RangeTable,
    file: &mut RecordFile<D>,
    alloc: Global,
    plan: Plan,
) -> Result<Step, DiskFault>
    requires running { file.old.stopped ≡ false }
    requires may { MayWrite table.old.map plan.new_record }
    ensures { PlanPerformed D.state table.old.map table.new.map file.old file.new (outcome_of table.old.map plan) result }
{
    let Plan { step, new_record } = plan;
    let Some(new_record) = new_record else {
        return Ok(step);
    };
    let Ok(copy) = table.reserve(&new_record) else {
        return Err(DiskFault::Memory);
    };
    match write(alloc, file, &new_record) {
        Ok(()) => {
            table.apply(new_record, copy);
            Ok(step)
        }
        Err(fault) => Err(fault),
    }
}

/// Does what the map does to assign a range.
pub(crate) fn assign_on<D: Disk>(
    table: &mut RangeTable,
    file: &mut RecordFile<D>,
    alloc: Global,
    range: RangeId,
    server: ServerNo,
    until: u64,
) -> Result<Step, DiskFault>
    requires running { file.old.stopped ≡ false }
    ensures { PlanPerformed D.state table.old.map table.new.map file.old file.new (assign_rule table.old.map range server until (range_at table.old.map.ranges range)) result }
{
    match plan_assign(alloc, table, range, server, until) {
        Ok(plan) => perform(table, file, alloc, plan),
        Err(_full) => Err(DiskFault::Memory),
    }
}

/// Does what the map does to renew the lease of a range that the server holds.
pub(crate) fn renew_on<D: Disk>(
    table: &mut RangeTable,
    file: &mut RecordFile<D>,
    alloc: Global,
    range: RangeId,
    server: ServerNo,
    until: u64,
) -> Result<Step, DiskFault>
    requires running { file.old.stopped ≡ false }
    requires holds { renew_fault server (range_at table.old.map.ranges range) ≡ None }
    ensures { PlanPerformed D.state table.old.map table.new.map file.old file.new (renew_rule table.old.map range server until (range_at table.old.map.ranges range)) result }
{
    match plan_renew(alloc, table, range, server, until) {
        Ok(plan) => perform(table, file, alloc, plan),
        Err(_full) => Err(DiskFault::Memory),
    }
}

/// Does what the map does to begin a split.
pub(crate) fn begin_split_on<D: Disk>(
    table: &mut RangeTable,
    file: &mut RecordFile<D>,
    alloc: Global,
    caller: &Caller,
    known: &KnownRange,
    key: &Bytes,
) -> Result<Step, DiskFault>
    requires running { file.old.stopped ≡ false }
    requires none { begin_split_fault known.now.generation key.now (range_at table.old.map.ranges known.now.range) ≡ None }
    ensures { PlanPerformed D.state table.old.map table.new.map file.old file.new (begin_split_rule table.old.map caller.now.from caller.now.request known.now.range key.now (range_at table.old.map.ranges known.now.range)) result }
{
    match plan_begin_split(alloc, table, caller, known, key) {
        Ok(plan) => perform(table, file, alloc, plan),
        Err(_full) => Err(DiskFault::Memory),
    }
}

/// Does what the map does to complete a split.
pub(crate) fn complete_split_on<D: Disk>(
    table: &mut RangeTable,
    file: &mut RecordFile<D>,
    alloc: Global,
    caller: &Caller,
    range: RangeId,
) -> Result<Step, DiskFault>
    requires running { file.old.stopped ≡ false }
    ensures { PlanPerformed D.state table.old.map table.new.map file.old file.new (complete_split_rule table.old.map caller.now.from caller.now.request range (range_at table.old.map.ranges range)) result }
{
    match plan_complete_split(alloc, table, caller, range) {
        Ok(plan) => perform(table, file, alloc, plan),
        Err(_full) => Err(DiskFault::Memory),
    }
}

/// Does what the map does to begin a merge.
pub(crate) fn begin_merge_on<D: Disk>(
    table: &mut RangeTable,
    file: &mut RecordFile<D>,
    alloc: Global,
    caller: &Caller,
    left: &KnownRange,
    right: &KnownRange,
) -> Result<Step, DiskFault>
    requires running { file.old.stopped ≡ false }
    requires none { begin_merge_fault left.now.generation right.now.generation (range_at table.old.map.ranges left.now.range) (range_at table.old.map.ranges right.now.range) ≡ None }
    ensures { PlanPerformed D.state table.old.map table.new.map file.old file.new (begin_merge_rule table.old.map caller.now.from caller.now.request left.now.range right.now.range (range_at table.old.map.ranges left.now.range)) result }
{
    match plan_begin_merge(alloc, table, caller, left, right) {
        Ok(plan) => perform(table, file, alloc, plan),
        Err(_full) => Err(DiskFault::Memory),
    }
}

/// Does what the map does to complete a merge.
pub(crate) fn complete_merge_on<D: Disk>(
    table: &mut RangeTable,
    file: &mut RecordFile<D>,
    alloc: Global,
    caller: &Caller,
    left: RangeId,
    right: RangeId,
) -> Result<Step, DiskFault>
    requires running { file.old.stopped ≡ false }
    ensures { PlanPerformed D.state table.old.map table.new.map file.old file.new (complete_merge_rule table.old.map caller.now.from caller.now.request left right (union_at table.old.map.ranges left right)) result }
{
    match plan_complete_merge(alloc, table, caller, left, right) {
        Ok(plan) => perform(table, file, alloc, plan),
        Err(_full) => Err(DiskFault::Memory),
    }
}

/// Does what the map does for who asks where a key is.
pub(crate) fn route_on<D: Disk>(
    table: &mut RangeTable,
    file: &mut RecordFile<D>,
    alloc: Global,
    packet: &Packet,
    key: &[u8],
    request: ReqNo,
) -> Result<Step, DiskFault>
    requires running { file.old.stopped ≡ false }
    ensures { PlanPerformed D.state table.old.map table.new.map file.old file.new (route_rule table.old.map packet.now request (range_of_key table.old.map.ranges key.now)) result }
{
    match plan_route(alloc, table, packet, key, request) {
        Ok(plan) => perform(table, file, alloc, plan),
        Err(_full) => Err(DiskFault::Memory),
    }
}
