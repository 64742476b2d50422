//! The records of a replica, added to its node's file.
ghost use Rattle.std.specs.Prelude.{◌≡◌, false};
ghost use Rattle.blocks.specs.Record.{Fits};
ghost use Rattle.block_types.specs.declared.record.Record.TheVariants as records;
ghost use Rattle.disk.specs.Appends.{Appends};
ghost use Rattle.enode_replica.specs.Fill.{IsFill};

use block_types::{Group, Groups, Record};
use disk::{Disk, DiskFault, RecordFile};
use std::alloc::Global;
use wire::ExtentId;

/// Adds a record to the node's file.
pub(crate) fn write<D: Disk>(
    alloc: Global,
    file: &mut RecordFile<D>,
    added: Record,
) -> Result<(), DiskFault>
    requires running { file.old.stopped ≡ false }
    requires fits { Fits file.old.version added }
    ensures { Appends D.state file.old file.new added result }
{
    file.append(alloc, &added)
}

/// Adds the record of a copy of a group to the node's file. The copy comes first, as it takes memory.
pub(crate) fn write_append<D: Disk>(
    alloc: Global,
    file: &mut RecordFile<D>,
    extent: ExtentId,
    offset: u32,
    group: &Group,
) -> Result<(), DiskFault>
    requires running { file.old.stopped ≡ false }
    ensures { Appends D.state file.old file.new (records.Append extent offset group.now) result }
{
    // Asked for, so that the proof knows that it is a group.
    let _blocks = group.blocks();
    let added = Record::Append {
        extent: extent.0,
        offset,
        group: group.copy()?,
    };
    write(alloc, file, added)
}

/// Adds the record of a copy of the groups that bring a replica to its length to the node's file. The copy comes first,
/// as it takes memory.
pub(crate) fn write_fill<D: Disk>(
    alloc: Global,
    file: &mut RecordFile<D>,
    extent: ExtentId,
    from: u32,
    length: u32,
    groups: &Groups,
) -> Result<(), DiskFault>
    requires running { file.old.stopped ≡ false }
    requires fill { IsFill from length groups.now }
    ensures { Appends D.state file.old file.new (records.Fill extent from length groups.now) result }
{
    let copied = Groups::copied(alloc, &groups.items)?;
    let added = Record::Fill {
        extent: extent.0,
        from,
        length,
        groups: copied,
    };
    write(alloc, file, added)
}
