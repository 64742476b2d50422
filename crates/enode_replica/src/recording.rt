//! The steps of a replica that its node's records keep. All that takes memory comes before the record, and the record
//! before the change.
ghost use Rattle.std.specs.Prelude.{◌≡◌, ◌<◌, ◌++◌, ◌∷◌, [], true, false, OnOk, OnErr};
ghost use Rattle.std.specs.List.{AllByRecursion};
ghost use Rattle.block_types.specs.Limits.{IsGroup};
ghost use Rattle.block_types.specs.declared.record.Record.TheVariants as records;
ghost use Rattle.disk.specs.Appends.{Appends, Records, listed};
ghost use Rattle.replica.specs.Content.{appended, fenced};
ghost use Rattle.replica.specs.Groups.{text_length};
ghost use Rattle.replica.specs.Reading.{groups_to};
ghost use Rattle.replica.specs.Replay.{cut_to, is_boundary, is_frozen, is_open, is_sealed, is_tail};
ghost use Rattle.replica.specs.State.{content_of};
ghost use Rattle.model_streams.specs.Node.{fresh, frozen_at, raise_written, raised, sealed_at};

use crate::node_replica::NodeReplica;
use crate::writing::{write, write_append, write_fill};
use block_types::{Group, Groups, Record};
use disk::{Disk, DiskFault, RecordFile};
use model_streams::WaitingAppend;
use replica::Replica;
use std::alloc::Global;
use std::slice;
use wire::{ActorId, ExtentId, Fence, ReqNo};

/// Adds a copy of a group to the end of an open replica below its target, once it is recorded there.
fn add_group<D: Disk>(
    replica: &mut Replica,
    alloc: Global,
    file: &mut RecordFile<D>,
    extent: ExtentId,
    group: &Group,
) -> Result<(), DiskFault>
    requires running { file.old.stopped ≡ false }
    requires open { is_open (content_of replica.old).phase ≡ true }
    requires room { text_length (content_of replica.old).groups < (content_of replica.old).target }
    ensures after { OnOk result (content_of replica.new ≡ appended (content_of replica.old) group.now) }
    ensures same { OnErr result (content_of replica.new ≡ content_of replica.old) }
    ensures file { Appends D.state file.old file.new (records.Append extent (text_length (content_of replica.old).groups) group.now) result }
{
    let generation = replica.fence();
    let end = replica.len();
    replica.reserve(slice::from_ref(group))?;
    write_append(alloc, file, extent, end, group)?;
    match replica.put(generation, end, group) {
        Ok(()) => Ok(()),
        // Its generation and its offset are the replica's own, and there is room for it.
        Err(_refused) => unreachable!(),
    }
}

impl NodeReplica {
    /// Adds a group to the end of an open replica below its target, where it waits for the secondaries, once that is
    /// recorded. 20: the disk failed, and the file is stopped; 22: the file is as it was.
    pub fn append<D: Disk>(
        &mut self,
        alloc: Global,
        file: &mut RecordFile<D>,
        extent: ExtentId,
        group: Group,
        asker: ActorId,
        request: ReqNo,
    ) -> Result<(), DiskFault>
        requires running { file.old.stopped ≡ false }
        requires open { is_open self.old.content.phase ≡ true }
        requires room { text_length self.old.content.groups < self.old.content.target }
        ensures after { OnOk result (self.new ≡ record self.old {
          content = appended self.old.content group;
          waiting = self.old.waiting ++ record { offset = text_length self.old.content.groups; group = group; asker = asker; request = request } ∷ [];
        }) }
        ensures same { OnErr result (self.new ≡ self.old) }
        ensures file { Appends D.state file.old file.new (records.Append extent (text_length self.old.content.groups) group) result }
    {
        // Asked for, so that the proof knows that it is a group.
        let _blocks = group.blocks();
        let offset = self.replica.len();
        let queue = &mut self.waiting;
        queue.appends.reserve(1)?;
        queue.ends.reserve(1)?;
        match add_group(&mut self.replica, alloc, file, extent, &group) {
            Ok(()) => {}
            Err(fault) => return Err(fault),
        }
        let append = WaitingAppend {
            offset,
            group,
            asker,
            request,
        };
        queue.appends.push_back_reserved(append);
        // It ends where the replica ends now, so that its blocks are not counted again.
        queue.ends.push_back_reserved(self.replica.len());
        Ok(())
    }

    /// Adds a group to the end of an open replica below its target, once that is recorded. 20: the disk failed, and the
    /// file is stopped; 22: the file is as it was.
    pub fn put<D: Disk>(
        &mut self,
        alloc: Global,
        file: &mut RecordFile<D>,
        extent: ExtentId,
        group: &Group,
    ) -> Result<(), DiskFault>
        requires running { file.old.stopped ≡ false }
        requires open { is_open self.old.content.phase ≡ true }
        requires room { text_length self.old.content.groups < self.old.content.target }
        ensures after { OnOk result (self.new ≡ record self.old { content = appended self.old.content group.now }) }
        ensures same { OnErr result (self.new ≡ self.old) }
        ensures file { Appends D.state file.old file.new (records.Append extent (text_length self.old.content.groups) group.now) result }
    {
        add_group(&mut self.replica, alloc, file, extent, group)
    }

    /// Raises the fence of an open replica to a generation above it, once that is recorded.
    fn raise_above<D: Disk>(
        &mut self,
        alloc: Global,
        file: &mut RecordFile<D>,
        extent: ExtentId,
        generation: Fence,
    ) -> Result<(), DiskFault>
        requires running { file.old.stopped ≡ false }
        requires open { is_open self.old.content.phase ≡ true }
        requires above { self.old.content.fence < generation }
        ensures after { OnOk result (self.new ≡ record self.old { content = fenced self.old.content generation }) }
        ensures same { OnErr result (self.new ≡ self.old) }
        ensures file { Appends D.state file.old file.new (records.Fence extent generation) result }
    {
        let raised = Record::Fence {
            extent: extent.0,
            generation: generation.0,
        };
        write(alloc, file, raised)?;
        match self.replica.raise(generation.0) {
            Ok(()) => Ok(()),
            // It is above the fence.
            Err(_stale) => unreachable!(),
        }
    }

    /// Raises the fence of an open replica to a generation above it, once that is recorded; any other leaves it. 20: the
    /// disk failed, and the file is stopped; 22: the file is as it was.
    pub fn raise<D: Disk>(
        &mut self,
        alloc: Global,
        file: &mut RecordFile<D>,
        extent: ExtentId,
        generation: Fence,
    ) -> Result<(), DiskFault>
        requires running { file.old.stopped ≡ false }
        requires open { is_open self.old.content.phase ≡ true }
        ensures after { OnOk result (self.new ≡ record self.old { content = raised self.old.content generation }) }
        ensures same { OnErr result (self.new ≡ self.old) }
        ensures file { Records D.state file.old file.new (listed (raise_written extent self.old.content generation)) result }
    {
        if self.replica.fence() >= generation.0 {
            return Ok(());
        }
        self.raise_above(alloc, file, extent, generation)
    }

    /// Lets an open replica take no more groups and drops what a stop drops, once that is recorded. 20: the disk failed,
    /// and the file is stopped; 22: the file is as it was.
    pub fn freeze<D: Disk>(
        &mut self,
        alloc: Global,
        file: &mut RecordFile<D>,
        extent: ExtentId,
    ) -> Result<(), DiskFault>
        requires running { file.old.stopped ≡ false }
        requires open { is_open self.old.content.phase ≡ true }
        ensures after { OnOk result (self.new ≡ frozen_at self.old) }
        ensures same { OnErr result (self.new ≡ self.old) }
        ensures file { Appends D.state file.old file.new (records.Freeze extent) result }
    {
        write(alloc, file, Record::Freeze { extent: extent.0 })?;
        self.replica.freeze(alloc);
        self.forget();
        Ok(())
    }

    /// Keeps the groups up to a length at which one ends, for good, and drops what a stop drops, once that is recorded.
    /// 20: the disk failed, and the file is stopped; 22: the file is as it was.
    pub fn seal<D: Disk>(
        &mut self,
        alloc: Global,
        file: &mut RecordFile<D>,
        extent: ExtentId,
        length: u32,
    ) -> Result<(), DiskFault>
        requires running { file.old.stopped ≡ false }
        requires not_sealed { is_sealed self.old.content.phase ≡ false }
        requires boundary { is_boundary (groups_to length self.old.content.groups) ≡ true }
        ensures after { OnOk result (self.new ≡ fresh (cut_to self.old.content (groups_to length self.old.content.groups))) }
        ensures same { OnErr result (self.new ≡ self.old) }
        ensures file { Appends D.state file.old file.new (records.Seal extent length) result }
    {
        let sealed = Record::Seal {
            extent: extent.0,
            length,
        };
        write(alloc, file, sealed)?;
        self.replica.seal(alloc, length);
        self.forget();
        Ok(())
    }

    /// Adds the groups that bring a frozen replica from its end to its length, for good, and drops what a stop drops,
    /// once that is recorded. 20: the disk failed, and the file is stopped; 22: the file is as it was.
    pub fn fill<D: Disk>(
        &mut self,
        alloc: Global,
        file: &mut RecordFile<D>,
        extent: ExtentId,
        from: u32,
        length: u32,
        groups: &Groups,
    ) -> Result<(), DiskFault>
        requires running { file.old.stopped ≡ false }
        requires frozen { is_frozen self.old.content.phase ≡ true }
        requires tail { is_tail self.old.content from length groups.now ≡ true }
        requires groups { AllByRecursion IsGroup groups.now }
        ensures after { OnOk result (self.new ≡ sealed_at self.old (self.old.content.groups ++ groups.now)) }
        ensures same { OnErr result (self.new ≡ self.old) }
        ensures file { Appends D.state file.old file.new (records.Fill extent from length groups.now) result }
    {
        let items = groups.items.as_slice();
        self.replica.reserve(items)?;
        let kept = Groups::copied(alloc, items)?;
        write_fill(alloc, file, extent, from, length, groups)?;
        match self.replica.fill_tail(alloc, from, length, kept) {
            Ok(()) => {
                self.forget();
                Ok(())
            }
            // They are a tail, and there is room for them.
            Err(_refused) => unreachable!(),
        }
    }
}
