//! What a step is about to do is done: the record is written first, and then the table changes.
ghost use Rattle.std.specs.Prelude.{◌≡◌, true, false, OnOk, OnErr};
ghost use Rattle.block_types.specs.declared.record.Record.TheVariants as records;
ghost use Rattle.disk.specs.Appends.{Appends};
ghost use Rattle.model_streams.specs.RecordBytes.{spelled};
ghost use Rattle.model_streams.specs.Maps.{entry_at};
ghost use Rattle.manager_state.specs.RecordBytes.{CanSpell};
ghost use Rattle.manager_state.specs.Table.{plain, table_after, table_fits};
ghost use Rattle.manager_rules.specs.Plan.{CanChange, IsReadAgain, planned, decide};
ghost use Rattle.manager.specs.PlanPerformed.{PlanPerformed};

use block_types::Record;
use disk::{Disk, DiskFault, RecordFile};
use manager_rules::{Change, Plan, decide, plan_for};
use manager_state::{ManagerTable, encode};
use model_streams::ManagerRecord;
use std::alloc::Global;
use wire::{Packet, Step};

/// Adds a record to the manager's file.
fn write<D: Disk>(
    alloc: Global,
    file: &mut RecordFile<D>,
    new_record: &ManagerRecord,
) -> Result<(), DiskFault>
    requires running { file.old.stopped ≡ false }
    requires can { CanSpell new_record.now }
    ensures { Appends D.state file.old file.new (records.Manage (spelled new_record.now)) result }
{
    let text = encode(alloc, new_record)?;
    file.append(alloc, &Record::Manage { text })
}

/// Makes room for what a record adds to the table, writes it, and does what it makes of the table. At an error the room is
/// given back, and the table is as it was.
fn write_and_apply<D: Disk>(
    table: &mut ManagerTable,
    file: &mut RecordFile<D>,
    alloc: Global,
    new_record: &ManagerRecord,
) -> Result<(), DiskFault>
    requires running { file.old.stopped ≡ false }
    requires can { CanSpell new_record.now }
    requires fits { table_fits (plain table.old) new_record.now ≡ true }
    ensures ok { OnOk result (plain table.new ≡ table_after (plain table.old) new_record.now) }
    ensures err { OnErr result (plain table.new ≡ plain table.old) }
    ensures file { Appends D.state file.old file.new (records.Manage (spelled new_record.now)) result }
{
    table.reserve(new_record)?;
    match write(alloc, file, new_record) {
        Ok(()) => {
            table.apply(new_record);
            Ok(())
        }
        Err(fault) => {
            table.release(new_record);
            Err(fault)
        }
    }
}

/// Does it. At an error the table is as it was.
pub(crate) fn perform<D: Disk>(
    table: &mut ManagerTable,
    file: &mut RecordFile<D>,
    alloc: Global,
    plan: Plan,
) -> Result<Step, DiskFault>
    requires running { file.old.stopped ≡ false }
    requires can { CanChange (plain table.old) plan.change }
    ensures { PlanPerformed D.state (plain table.old) (plain table.new) file.old file.new plan result }
{
    let Plan { step, change } = plan;
    match change {
        Change::Nothing => Ok(step),
        Change::Replace { extent, entry } => {
            table.replace(extent, entry);
            Ok(step)
        }
        Change::Write(new_record) => match write_and_apply(table, file, alloc, &new_record) {
            Ok(()) => Ok(step),
            Err(fault) => Err(fault),
        },
    }
}

/// Does what the manager does with a packet.
pub(crate) fn handle_on<D: Disk>(
    table: &mut ManagerTable,
    file: &mut RecordFile<D>,
    alloc: Global,
    packet: &Packet,
) -> Result<Step, DiskFault>
    requires running { file.old.stopped ≡ false }
    ensures done { PlanPerformed D.state (plain table.old) (plain table.new) file.old file.new (planned (plain table.old) packet.now packet.now.body) result }
    ensures again { IsReadAgain (planned (plain table.old) packet.now packet.now.body).change }
{
    match plan_for(alloc, table, packet) {
        Ok(plan) => perform(table, file, alloc, plan),
        Err(_full) => Err(DiskFault::Memory),
    }
}

/// Does what the manager does to have an extent sealed.
pub(crate) fn decide_on<D: Disk>(
    table: &mut ManagerTable,
    file: &mut RecordFile<D>,
    alloc: Global,
    extent: u64,
) -> Result<Step, DiskFault>
    requires running { file.old.stopped ≡ false }
    ensures done { PlanPerformed D.state (plain table.old) (plain table.new) file.old file.new (decide table.old.target extent (entry_at table.old.extents extent)) result }
    ensures again { IsReadAgain (decide table.old.target extent (entry_at table.old.extents extent)).change }
{
    match decide(alloc, table, extent) {
        Ok(plan) => perform(table, file, alloc, plan),
        Err(_full) => Err(DiskFault::Memory),
    }
}
