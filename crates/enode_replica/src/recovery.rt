//! A replica from the records of its node's file.
ghost use Rattle.block_types.specs.declared.record.Record.TheVariants as records;
ghost use Rattle.enode_replica.specs.Recovery.{Recovers};

use crate::node_replica::NodeReplica;
use crate::phases::{is_frozen, is_open, is_sealed};
use block_types::{Group, Groups, Record};
use disk::FileFault;
use replica::{FillFault, PutFault};
use std::alloc::Global;

impl NodeReplica {
    /// The record of a group: it stands at the end of an open replica below its target.
    fn recover_append(&mut self, extent: u64, offset: u32, group: Group) -> Result<(), FileFault>
        ensures { Recovers self.old self.new (records.Append extent offset group) result }
    {
        if !is_open(self.replica.state()) {
            return Err(FileFault::Damaged);
        }
        let generation = self.replica.fence();
        match self.replica.put(generation, offset, &group) {
            Ok(()) => Ok(()),
            Err(PutFault::Memory) => Err(FileFault::Memory),
            Err(_unfit) => Err(FileFault::Damaged),
        }
    }

    /// The record of a higher fence: the replica is open, and its fence is below it.
    fn recover_fence(&mut self, extent: u64, generation: u64) -> Result<(), FileFault>
        ensures { Recovers self.old self.new (records.Fence extent generation) result }
    {
        if !is_open(self.replica.state()) {
            return Err(FileFault::Damaged);
        }
        if self.replica.fence() >= generation {
            return Err(FileFault::Damaged);
        }
        match self.replica.raise(generation) {
            Ok(()) => Ok(()),
            Err(_stale) => Err(FileFault::Damaged),
        }
    }

    /// The record of a freeze: the replica is open.
    fn recover_freeze(&mut self, alloc: Global, extent: u64) -> Result<(), FileFault>
        ensures { Recovers self.old self.new (records.Freeze extent) result }
    {
        if !is_open(self.replica.state()) {
            return Err(FileFault::Damaged);
        }
        self.replica.freeze(alloc);
        Ok(())
    }

    /// The record of a seal: the replica is not sealed yet, and a group ends there.
    fn recover_seal(&mut self, alloc: Global, extent: u64, length: u32) -> Result<(), FileFault>
        ensures { Recovers self.old self.new (records.Seal extent length) result }
    {
        if is_sealed(self.replica.state()) {
            return Err(FileFault::Damaged);
        }
        if !self.replica.is_boundary(length) {
            return Err(FileFault::Damaged);
        }
        self.replica.seal(alloc, length);
        Ok(())
    }

    /// The record of groups that bring a frozen replica from its end to its length.
    fn recover_fill(
        &mut self,
        alloc: Global,
        extent: u64,
        from: u32,
        length: u32,
        groups: Groups,
    ) -> Result<(), FileFault>
        ensures { Recovers self.old self.new (records.Fill extent from length groups) result }
    {
        if !is_frozen(self.replica.state()) {
            return Err(FileFault::Damaged);
        }
        match self.replica.fill_tail(alloc, from, length, groups) {
            Ok(()) => Ok(()),
            Err(FillFault::Memory) => Err(FileFault::Memory),
            Err(_unfit) => Err(FileFault::Damaged),
        }
    }

    /// One record more of its extent, taken back from the node's file; nothing of what a stop drops comes back. 21: the
    /// record does not fit the replica; 22: there was no memory. An error leaves it as it was.
    pub fn recover(&mut self, alloc: Global, record_read: Record) -> Result<(), FileFault>
        ensures { Recovers self.old self.new record_read result }
    {
        match record_read {
            Record::Make { .. } => Err(FileFault::Damaged),
            Record::Append {
                extent,
                offset,
                group,
            } => self.recover_append(extent, offset, group),
            Record::Fence { extent, generation } => self.recover_fence(extent, generation),
            Record::Freeze { extent } => self.recover_freeze(alloc, extent),
            Record::Seal { extent, length } => self.recover_seal(alloc, extent, length),
            Record::Fill {
                extent,
                from,
                length,
                groups,
            } => self.recover_fill(alloc, extent, from, length, groups),
            Record::Manage { .. } => Err(FileFault::Damaged),
        }
    }
}
