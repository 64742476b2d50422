//! The partition map.
ghost use Rattle.std.specs.Prelude.{◌≡◌, ◌≢◌, ◌<◌, ◌^◌, List, [], Ok, Err, Some, None, false, true, IfOk, IfErr, IsErrOf, MatchResult, option_map};
ghost use Rattle.block_types.specs.declared.record.Record.{Record};
ghost use Rattle.block_types.specs.declared.record.Version.{Version};
ghost use Rattle.disk.specs.Disk.{IsSteady, LeavesOnly};
ghost use Rattle.disk.specs.File.{IsFileOf};
ghost use Rattle.disk.specs.Memory.{memory_state};
ghost use Rattle.wire.specs.declared.refusal.Refusal.{Refusal};
ghost use Rattle.model_streams.specs.Bounds.{AreFew};
ghost use Rattle.model_partition.specs.Map.{range_at, range_of_key, union_at};
ghost use Rattle.model_partition.specs.MapRules.{assign_fault, assign_rule, renew_fault, renew_rule, begin_split_fault, begin_split_rule, complete_split_fault, complete_split_rule, begin_merge_fault, begin_merge_rule, complete_merge_fault, complete_merge_rule, told, map_rule};
ghost use Rattle.model_partition.specs.Partition.{IsSound, HaveEachKeyOnce};
ghost use Rattle.model_partition.specs.Replay.{map_fits};
ghost use Rattle.pmap.specs.MapWithFile.{map_of, MakesMap, HoldsMap};
ghost use Rattle.pmap.specs.Performs.{MapPerforms, as_rule, fault_of, is_failure};

use crate::caller::{Caller, KnownRange};
use crate::fault::MapFault;
use crate::performing::{
    assign_on, begin_merge_on, begin_split_on, complete_merge_on, complete_split_on, renew_on,
    route_on,
};
use crate::refusing::{
    answer, assign_fault, begin_merge_fault, begin_split_fault, complete_merge_fault,
    complete_split_fault, renew_fault, told,
};
use crate::showing::shown_by;
use block_types::Record;
use bytes::Bytes;
use disk::{Disk, DiskFault, FileFault, MemDisk, RecordFile};
use model_partition::RangeEntry;
use pmap_table::{RangeTable, replayed};
use std::alloc::{AllocError, Global};
use std::marker::Model;
use wire::{Body, MapBody, Notes, Packet, RangeId, ServerNo, Step};

/// The partition map: the ranges in the order of their keys, who holds each until when, and the file of records that they
/// come from. Moments are ticks of one clock.
pub struct PartitionMap<D: Disk> {
    table: RangeTable,
    file: RecordFile<D>,
}

// Written out, so that a crate above that lets one go has no proof of what is in it.
impl<D: Disk + Drop> Drop for PartitionMap<D> {
    fn drop(self) {
        let PartitionMap { table: _, file: _ } = self;
    }
}

/// Its ranges are what its records make of them. Once it has stopped, the last record may be one that its ranges are without:
/// the one at whose write the disk failed.
impl<D: Disk> Model for PartitionMap<D> {
    ghost use Rattle.pmap.specs.MapWithFile.{MapWithFile, held_of, HoldsMap};

    ghost Value = { MapWithFile D };

    ghost view = { λ m. held_of m.table.map m.file };

    ghost invariant = { λ m. HoldsMap m.table.map m.file.stopped m.file.records };
}

/// A range's number as one, of 64 bits.
fn number_of(range: RangeId) -> u64
    ensures value { result ≡ range }
    ensures wide { range < 2 ^ 64 }
{
    range.0
}

/// The map that the records of a file make.
fn recovered<D: Disk>(
    alloc: Global,
    opened: RecordFile<D>,
    records: &[Record],
) -> Result<PartitionMap<D>, (FileFault, D)>
    requires { records.now ≡ opened.records }
    ensures replays { IfOk result (λ m. MakesMap opened.records (map_of m)) }
    ensures damaged { map_fits opened.records ≡ true → IfErr result (λ e. e.0 ≢ FileFault.Damaged) }
    ensures failed { IfErr result (λ e. e.0 ≢ FileFault.Failed) }
    ensures file { IfOk result (λ m. m.file ≡ opened) }
    ensures disk { IfErr result (λ e. e.1 ≡ opened.disk) }
{
    match replayed(alloc, records) {
        Ok(table) => Ok(PartitionMap {
            table,
            file: opened,
        }),
        Err(fault) => Err((fault.into(), opened.into_disk())),
    }
}

impl<D: Disk> PartitionMap<D> {
    /// The map that the records on a disk make; of no record the first map, in which range 1 has all keys and nobody holds
    /// it. The file is synced, and then read. A refusal hands the disk back: 20 (a device call failed), 21 (the bytes are
    /// no file of records, or a record does not fit what those before it make), 22 (no memory).
    pub fn restart(alloc: Global, disk: D) -> Result<PartitionMap<D>, (FileFault, D)>
        ensures running { IfOk result (λ m. m.file.stopped ≡ false) }
        ensures file { IfOk result (λ m. IsFileOf m.file.version m.file.records (D.state disk).seen) }
        ensures replays { IfOk result (λ m. MakesMap m.file.records (map_of m)) }

        // 21 only where the bytes are no file of records that fit.
        ensures damaged { (v : Version) (rs : List Record) → IsFileOf v rs (D.state disk).seen → map_fits rs ≡ true
            → IfErr result (λ e. e.0 ≢ FileFault.Damaged) }

        // No map comes of records that do not fit, or of bytes that are no file of records.
        ensures unfit { (v : Version) (rs : List Record) → IsFileOf v rs (D.state disk).seen → (map_fits rs ≡ true → ⊥)
            → IfOk result (λ m. ⊥) }
        ensures no_file { ((v : Version) (rs : List Record) → IsFileOf v rs (D.state disk).seen → ⊥) → IfOk result (λ m. ⊥) }
        ensures failed { IfErr result (λ e. e.0 ≡ FileFault.Failed → (D.state disk).failures < (D.state e.1).failures) }

        // No other records make the map than those that the bytes are a file of.
        ensures only { (v : Version) (rs : List Record) → IsFileOf v rs (D.state disk).seen
            → IfOk result (λ m. (m.file.version ≡ v) × (m.file.records ≡ rs)) }

        // A disk that cannot fail does not, and stays one that cannot.
        ensures steady { IsSteady (D.state disk) → MatchResult result
            (λ m. IsSteady (D.state m.file.disk))
            (λ e. (e.0 ≢ FileFault.Failed) × IsSteady (D.state e.1)) }

        // A crash at any moment leaves what one before it might have left, also where it is refused.
        ensures any_moment { MatchResult result
            (λ m. LeavesOnly (D.state disk) (D.state m.file.disk) (D.state disk).may_leave)
            (λ e. LeavesOnly (D.state disk) (D.state e.1) (D.state disk).may_leave) }
    {
        match RecordFile::open_with_records(alloc, disk) {
            Ok((file, records)) => recovered(alloc, file, &records),
            Err(refused) => Err(refused),
        }
    }

    /// The range that has a key, and who holds that. Each key is in exactly one range. It takes no memory, and time as the
    /// logarithm of the number of ranges.
    pub fn route(&self, key: &[u8]) -> (RangeId, Option<ServerNo>)
        ensures { option_map (λ r. (r.range, r.holder)) (range_of_key self.now.ranges key.now) ≡ Some result }
    {
        let entry = self.table.covering(key);
        (entry.range, entry.holder)
    }

    /// Assigns a range to a server with a lease up to a moment, under a generation one higher, and tells the server: the rule
    /// of the map, exactly. What is begun at the range is dropped. The end of a lease never goes back, and where no generation
    /// of 64 bits is left nothing happens. The record is on the disk before the packet is handed out. The map has to run (`is_stopped`). 30: there is no such range.
    /// 31: another server holds it, and its lease has not ended at the moment `now`. 20: the disk failed, and the map is
    /// stopped until it is restarted; its records are the old ones, with the new one or without. 22: no memory. After 22,
    /// 30 and 31 nothing has changed.
    pub fn assign(
        &mut self,
        alloc: Global,
        range: RangeId,
        server: ServerNo,
        now: u64,
        until: u64,
    ) -> Result<Step, MapFault>
        requires running { self.old.file.stopped ≡ false }
        ensures refused { (r : Refusal) → assign_fault server now (range_at self.old.ranges range) ≡ Some r
            → (self.new ≡ self.old) × (result ≡ Err (fault_of r)) }
        ensures performed { assign_fault server now (range_at self.old.ranges range) ≡ None
            → MapPerforms D.state self.old self.new (assign_rule (map_of self.old) range server until (range_at self.old.ranges range)) (as_rule result) }
        ensures taken { assign_fault server now (range_at self.old.ranges range) ≡ None
            → IfErr result (λ e. is_failure e ≡ true) }
        ensures failed { IsErrOf result MapFault.DiskFailed → (D.state self.old.file.disk).failures < (D.state self.new.file.disk).failures }

        // A step sends no more than a caller can make room for beforehand.
        ensures few { IfOk result (λ step. AreFew step.packets step.notes) }

        // Its ranges are what its records make of them.
        ensures replays { MakesMap self.old.file.records (map_of self.old) }
    {
        // Read for their ranges: within those a record's bytes are read as they were written.
        let _range = range.0;
        let _server = server.0;
        match assign_fault(&self.table, range, server, now) {
            Some(fault) => Err(fault),
            None => {
                let done = assign_on(&mut self.table, &mut self.file, alloc, range, server, until);
                answer(done)
            }
        }
    }

    /// Moves the end of the lease of a range to a moment, where that is later, for the server that holds it, and tells the
    /// server the end: the rule of the map, exactly. The record is on the disk before the packet is handed out. The map
    /// has to run. 30: there is no such range, or the server does not hold it. 20: the disk failed, and the map is stopped
    /// until it is restarted; its records are the old ones, with the new one or without. 22: no memory. After 22 and 30
    /// nothing has changed.
    pub fn renew(
        &mut self,
        alloc: Global,
        range: RangeId,
        server: ServerNo,
        until: u64,
    ) -> Result<Step, MapFault>
        requires running { self.old.file.stopped ≡ false }
        ensures refused { (r : Refusal) → renew_fault server (range_at self.old.ranges range) ≡ Some r
            → (self.new ≡ self.old) × (result ≡ Err (fault_of r)) }
        ensures performed { renew_fault server (range_at self.old.ranges range) ≡ None
            → MapPerforms D.state self.old self.new (renew_rule (map_of self.old) range server until (range_at self.old.ranges range)) (as_rule result) }
        ensures taken { renew_fault server (range_at self.old.ranges range) ≡ None
            → IfErr result (λ e. is_failure e ≡ true) }
        ensures failed { IsErrOf result MapFault.DiskFailed → (D.state self.old.file.disk).failures < (D.state self.new.file.disk).failures }
        ensures few { IfOk result (λ step. AreFew step.packets step.notes) }
        ensures replays { MakesMap self.old.file.records (map_of self.old) }
    {
        // Read for its range: within that a record's bytes are read as they were written.
        let _range = range.0;
        match renew_fault(&self.table, range, server) {
            Some(fault) => Err(fault),
            None => {
                let done = renew_on(&mut self.table, &mut self.file, alloc, range, server, until);
                answer(done)
            }
        }
    }

    /// Begins a split of a range at a key, in place of what was begun at it, and tells who called the numbers of the two
    /// ranges that it is to leave: the rule of the map, exactly. Where a split at this key is pending the answer is the same, and
    /// nothing is written; where the next two numbers and the one after them have not all 64 bits nothing happens. The record is
    /// on the disk before the packet is handed out. The map has to run. 41: there is no such range, or it has another
    /// generation. 39: the key has not 1 to 256 bytes, or it is not above the first key of the range and below its end. 20: the
    /// disk failed, and the map is stopped until it is restarted; its records are the old ones, with the new one or without.
    /// 22: no memory. After 22, 39 and 41 nothing has changed.
    pub fn begin_split(
        &mut self,
        alloc: Global,
        caller: &Caller,
        known: &KnownRange,
        key: &Bytes,
    ) -> Result<Step, MapFault>
        requires running { self.old.file.stopped ≡ false }
        ensures refused { (r : Refusal) → begin_split_fault known.now.generation key.now (range_at self.old.ranges known.now.range) ≡ Some r
            → (self.new ≡ self.old) × (result ≡ Err (fault_of r)) }
        ensures performed { begin_split_fault known.now.generation key.now (range_at self.old.ranges known.now.range) ≡ None
            → MapPerforms D.state self.old self.new (begin_split_rule (map_of self.old) caller.now.from caller.now.request known.now.range key.now (range_at self.old.ranges known.now.range)) (as_rule result) }
        ensures taken { begin_split_fault known.now.generation key.now (range_at self.old.ranges known.now.range) ≡ None → IfErr result (λ e. is_failure e ≡ true) }
        ensures failed { IsErrOf result MapFault.DiskFailed → (D.state self.old.file.disk).failures < (D.state self.new.file.disk).failures }
        ensures few { IfOk result (λ step. AreFew step.packets step.notes) }
        ensures replays { MakesMap self.old.file.records (map_of self.old) }
    {
        // Read for its range: within that a record's bytes are read as they were written.
        let _range = number_of(known.range);
        match begin_split_fault(&self.table, known, key) {
            Some(fault) => Err(fault),
            None => {
                let done = begin_split_on(
                    &mut self.table,
                    &mut self.file,
                    alloc,
                    caller,
                    known,
                    key,
                );
                answer(done)
            }
        }
    }

    /// Completes the split that is begun at a range: two ranges stand in its place, with its keys below the key and those from
    /// it on, its generation, and no holder. It shows the split and tells who called: the rule of the map, exactly. The record is
    /// on the disk before that is handed out. The map has to run. 41: there is no such range, it has another generation,
    /// or no split of it is begun. 20: the disk failed, and the map is stopped until it is restarted; its records are the old
    /// ones, with the new one or without. 22: no memory. After 22 and 41 nothing has changed.
    pub fn complete_split(
        &mut self,
        alloc: Global,
        caller: &Caller,
        known: &KnownRange,
    ) -> Result<Step, MapFault>
        requires running { self.old.file.stopped ≡ false }
        ensures refused { (r : Refusal) → complete_split_fault known.now.generation (range_at self.old.ranges known.now.range) ≡ Some r
            → (self.new ≡ self.old) × (result ≡ Err (fault_of r)) }
        ensures performed { complete_split_fault known.now.generation (range_at self.old.ranges known.now.range) ≡ None
            → MapPerforms D.state self.old self.new (complete_split_rule (map_of self.old) caller.now.from caller.now.request known.now.range (range_at self.old.ranges known.now.range)) (as_rule result) }
        ensures taken { complete_split_fault known.now.generation (range_at self.old.ranges known.now.range) ≡ None → IfErr result (λ e. is_failure e ≡ true) }
        ensures failed { IsErrOf result MapFault.DiskFailed → (D.state self.old.file.disk).failures < (D.state self.new.file.disk).failures }
        ensures few { IfOk result (λ step. AreFew step.packets step.notes) }
        ensures replays { MakesMap self.old.file.records (map_of self.old) }
    {
        // Read for its range: within that a record's bytes are read as they were written.
        let _range = number_of(known.range);
        match complete_split_fault(&self.table, known) {
            Some(fault) => Err(fault),
            None => {
                let done = complete_split_on(
                    &mut self.table,
                    &mut self.file,
                    alloc,
                    caller,
                    known.range,
                );
                answer(done)
            }
        }
    }

    /// Begins a merge of a range with the one behind it, in place of what was begun at either, and tells who called the number
    /// of the range that they are to become: the rule of the map, exactly. Where this merge is pending the answer is the same, and
    /// nothing is written; where the next number and the one after it have not both 64 bits nothing happens. The record is on the
    /// disk before the packet is handed out. The map has to run. 41: one of them is not there, or has another generation.
    /// 40: the right one does not begin where the left one ends. 30: their holders differ. 20: the disk failed, and the map is
    /// stopped until it is restarted; its records are the old ones, with the new one or without. 22: no memory. After 22, 30, 40
    /// and 41 nothing has changed.
    pub fn begin_merge(
        &mut self,
        alloc: Global,
        caller: &Caller,
        left: &KnownRange,
        right: &KnownRange,
    ) -> Result<Step, MapFault>
        requires running { self.old.file.stopped ≡ false }
        ensures refused { (r : Refusal) → begin_merge_fault left.now.generation right.now.generation (range_at self.old.ranges left.now.range) (range_at self.old.ranges right.now.range) ≡ Some r
            → (self.new ≡ self.old) × (result ≡ Err (fault_of r)) }
        ensures performed { begin_merge_fault left.now.generation right.now.generation (range_at self.old.ranges left.now.range) (range_at self.old.ranges right.now.range) ≡ None
            → MapPerforms D.state self.old self.new (begin_merge_rule (map_of self.old) caller.now.from caller.now.request left.now.range right.now.range (range_at self.old.ranges left.now.range)) (as_rule result) }
        ensures taken { begin_merge_fault left.now.generation right.now.generation (range_at self.old.ranges left.now.range) (range_at self.old.ranges right.now.range) ≡ None → IfErr result (λ e. is_failure e ≡ true) }
        ensures failed { IsErrOf result MapFault.DiskFailed → (D.state self.old.file.disk).failures < (D.state self.new.file.disk).failures }
        ensures few { IfOk result (λ step. AreFew step.packets step.notes) }
        ensures replays { MakesMap self.old.file.records (map_of self.old) }
    {
        // Read for their ranges: within those a record's bytes are read as they were written.
        let _left = number_of(left.range);
        let _right = number_of(right.range);
        match begin_merge_fault(&self.table, left, right) {
            Some(fault) => Err(fault),
            None => {
                let done = begin_merge_on(
                    &mut self.table,
                    &mut self.file,
                    alloc,
                    caller,
                    left,
                    right,
                );
                answer(done)
            }
        }
    }

    /// Completes the merge that is begun of two ranges: one stands in their place, with the keys of both, the greater of their
    /// generations, and no holder. It shows the merge and tells who called: the rule of the map, exactly. The record is on the
    /// disk before that is handed out. The map has to run. 41: one of them is not there or has another generation, or
    /// their merge is not begun. 20: the disk failed, and the map is stopped until it is restarted; its records are the old ones,
    /// with the new one or without. 22: no memory. After 22 and 41 nothing has changed.
    pub fn complete_merge(
        &mut self,
        alloc: Global,
        caller: &Caller,
        left: &KnownRange,
        right: &KnownRange,
    ) -> Result<Step, MapFault>
        requires running { self.old.file.stopped ≡ false }
        ensures refused { (r : Refusal) → complete_merge_fault left.now.generation right.now.generation (range_at self.old.ranges left.now.range) (range_at self.old.ranges right.now.range) (union_at self.old.ranges left.now.range right.now.range) ≡ Some r
            → (self.new ≡ self.old) × (result ≡ Err (fault_of r)) }
        ensures performed { complete_merge_fault left.now.generation right.now.generation (range_at self.old.ranges left.now.range) (range_at self.old.ranges right.now.range) (union_at self.old.ranges left.now.range right.now.range) ≡ None
            → MapPerforms D.state self.old self.new (complete_merge_rule (map_of self.old) caller.now.from caller.now.request left.now.range right.now.range (union_at self.old.ranges left.now.range right.now.range)) (as_rule result) }
        ensures taken { complete_merge_fault left.now.generation right.now.generation (range_at self.old.ranges left.now.range) (range_at self.old.ranges right.now.range) (union_at self.old.ranges left.now.range right.now.range) ≡ None → IfErr result (λ e. is_failure e ≡ true) }
        ensures failed { IsErrOf result MapFault.DiskFailed → (D.state self.old.file.disk).failures < (D.state self.new.file.disk).failures }
        ensures few { IfOk result (λ step. AreFew step.packets step.notes) }
        ensures replays { MakesMap self.old.file.records (map_of self.old) }
    {
        // Read for their ranges: within those a record's bytes are read as they were written.
        let _left = number_of(left.range);
        let _right = number_of(right.range);
        match complete_merge_fault(&self.table, left, right) {
            Some(fault) => Err(fault),
            None => {
                let done = complete_merge_on(
                    &mut self.table,
                    &mut self.file,
                    alloc,
                    caller,
                    left.range,
                    right.range,
                );
                answer(done)
            }
        }
    }

    /// What a running map does with a packet of its own kind.
    fn take(&mut self, alloc: Global, packet: &Packet, body: &MapBody) -> Result<Step, DiskFault>
        requires running { self.old.file.stopped ≡ false }
        requires replays { MakesMap self.old.file.records (map_of self.old) }
        ensures performed { MapPerforms D.state self.old self.new (told (map_of self.old) packet.now body.now) result }
        ensures few { IfOk result (λ step. AreFew step.packets step.notes) }
    {
        let from = packet.from;
        match body {
            MapBody::Route { key, request } => {
                route_on(
                    &mut self.table,
                    &mut self.file,
                    alloc,
                    packet,
                    key.as_slice(),
                    *request,
                )
            }
            MapBody::BeginSplit {
                range,
                generation,
                key,
                request,
            } => {
                let caller = Caller {
                    from,
                    request: *request,
                };
                let known = KnownRange {
                    range: *range,
                    generation: *generation,
                };
                let done = self.begin_split(alloc, &caller, &known, key);
                told(alloc, &caller, done)
            }
            MapBody::CompleteSplit {
                range,
                generation,
                request,
            } => {
                let caller = Caller {
                    from,
                    request: *request,
                };
                let known = KnownRange {
                    range: *range,
                    generation: *generation,
                };
                let done = self.complete_split(alloc, &caller, &known);
                told(alloc, &caller, done)
            }
            MapBody::BeginMerge {
                left,
                left_generation,
                right,
                right_generation,
                request,
            } => {
                let caller = Caller {
                    from,
                    request: *request,
                };
                let below = KnownRange {
                    range: *left,
                    generation: *left_generation,
                };
                let above = KnownRange {
                    range: *right,
                    generation: *right_generation,
                };
                let done = self.begin_merge(alloc, &caller, &below, &above);
                told(alloc, &caller, done)
            }
            MapBody::CompleteMerge {
                left,
                left_generation,
                right,
                right_generation,
                request,
            } => {
                let caller = Caller {
                    from,
                    request: *request,
                };
                let below = KnownRange {
                    range: *left,
                    generation: *left_generation,
                };
                let above = KnownRange {
                    range: *right,
                    generation: *right_generation,
                };
                let done = self.complete_merge(alloc, &caller, &below, &above);
                told(alloc, &caller, done)
            }
            _ => Ok(Step::silent(alloc)),
        }
    }

    /// What the map does with a packet: the rule of its table, exactly. Who asks where a key is, is told its range and who
    /// holds that. A call of a split or a merge is done as by the method of its name, and a refusal goes to the sender. Of any
    /// other packet nothing comes. The record, if there is one, is on the disk before the packets are handed out. A stopped map
    /// does nothing. 20: the disk failed, and the map is stopped until it is restarted; its records are the old ones, with the
    /// new one or without. 22: nothing has changed.
    pub fn handle(&mut self, alloc: Global, packet: &Packet) -> Result<Step, DiskFault>
        ensures performed { self.old.file.stopped ≡ false → MapPerforms D.state self.old self.new (map_rule (map_of self.old) packet.now packet.now.body) result }
        ensures stopped { self.old.file.stopped ≡ true → (self.new ≡ self.old) × (result ≡ Ok (record { packets = []; notes = [] })) }
        ensures failed { IsErrOf result DiskFault.Failed → (D.state self.old.file.disk).failures < (D.state self.new.file.disk).failures }
        ensures few { IfOk result (λ step. AreFew step.packets step.notes) }
        ensures replays { self.old.file.stopped ≡ false → MakesMap self.old.file.records (map_of self.old) }
    {
        if self.file.is_stopped() {
            return Ok(Step::silent(alloc));
        }
        match &packet.body {
            Body::Map(body) => self.take(alloc, packet, body),
            _ => Ok(Step::silent(alloc)),
        }
    }

    /// What the rule of a packet shows: a split or a merge that the packet completes, and nothing of any other. It is known
    /// before the packet is handled, and so is the memory for it. An error is out of memory (22).
    pub fn shown_by(&self, alloc: Global, packet: &Packet) -> Result<Notes, AllocError>
        ensures { IfOk result (λ notes. notes ≡ (map_rule (map_of self.now) packet.now packet.now.body).notes) }
    {
        shown_by(alloc, &self.table, packet)
    }

    /// The ranges in the order of their keys. They lie side by side, so that each key is in exactly one of them. Their numbers,
    /// and those of ranges that a split or a merge is to leave, differ.
    pub fn ranges(&self) -> &[RangeEntry]
        ensures value { result.now ≡ self.now.ranges }
        ensures sound { IsSound (map_of self.now) }
        ensures once { HaveEachKeyOnce result.now }
    {
        self.table.entries()
    }

    /// Whether it has stopped. Then it does nothing until it is restarted from its disk.
    pub fn is_stopped(&self) -> bool
        ensures { result ≡ self.now.file.stopped }
    {
        self.file.is_stopped()
    }

    /// The file of its records, to look at: it tells what its disk was told, and copies the disk. Its ranges are what its
    /// records make of them; once it has stopped, all its records or all but the last.
    pub fn file(&self) -> &RecordFile<D>
        ensures value { result.now ≡ self.now.file }
        ensures holds { HoldsMap (map_of self.now) self.now.file.stopped self.now.file.records }
    {
        &self.file
    }

    /// Its disk, whether it has stopped or not. Its bytes are a file of the records that the map had, and these fit: a restart
    /// finds no damage (21).
    pub fn into_disk(self) -> D
        ensures disk { result ≡ self.file.disk }
        ensures stands { IsFileOf self.file.version self.file.records (D.state result).seen }
        ensures fits { map_fits self.file.records ≡ true }
    {
        let PartitionMap { table: _, file } = self;
        file.into_disk()
    }
}

impl PartitionMap<MemDisk> {
    /// Tells its disk to stop at the `calls`-th `write_at` or `sync` from now on, in place of what it was told before: a
    /// record makes four of them. All else stays.
    pub fn stop_at(&mut self, calls: u64, keep: bool)
        ensures told { (memory_state self.new.file.disk).stop ≡ Some (calls, keep) }
        ensures disk { self.new.file.disk ≡ record self.old.file.disk { stop = Some (record { calls = calls; keep = keep }) } }
        ensures file { (self.new.file.stopped ≡ self.old.file.stopped) × (self.new.file.version ≡ self.old.file.version)
            × (self.new.file.records ≡ self.old.file.records) }
        ensures same { self.new ≡ record self.old { file = self.new.file } }
    {
        self.file.stop_at(calls, keep);
    }

    /// Stops it: it does nothing until it is restarted from its disk, which goes on. All else stays.
    pub fn stop_now(&mut self)
        ensures stopped { self.new.file.stopped ≡ true }
        ensures steady { IsSteady (memory_state self.new.file.disk) }
        ensures disk { self.new.file.disk ≡ record self.old.file.disk { stop = None } }
        ensures file { (self.new.file.version ≡ self.old.file.version) × (self.new.file.records ≡ self.old.file.records) }
        ensures same { self.new ≡ record self.old { file = self.new.file } }
        ensures replays { self.old.file.stopped ≡ false → MakesMap self.old.file.records (map_of self.old) }
    {
        self.file.cancel_stop();
        self.file.halt();
    }
}
