//! The table that records make.
ghost use Rattle.std.specs.Prelude.{◌≡◌, ◌≢◌, [], true, None, IfOk, OnErr, IsErrOf};
ghost use Rattle.block_types.specs.declared.record.Record.TheVariants as records;
ghost use Rattle.model_streams.specs.Replay.{catalog_fits};
ghost use Rattle.manager_state.specs.Replay.{Recovers, RecoversManagerRecord, IsMade};
ghost use Rattle.manager_state.specs.Table.{plain, table_after};

use crate::record_bytes::decode;
use crate::table::ManagerTable;
use block_types::{BlockFault, Record};
use bytes::Bytes;
use model_streams::ManagerRecord;
use std::alloc::Global;

/// The table after one record more, whose bytes these are.
fn recover_text(
    alloc: Global,
    table: Option<ManagerTable>,
    text: Bytes,
) -> Result<ManagerTable, BlockFault>
    ensures { Recovers table (records.Manage text) result }
{
    match decode(alloc, text.as_slice()) {
        Ok(new_record) => recover_record(alloc, table, &new_record),
        Err(fault) => Err(fault),
    }
}

/// The table after one record more.
fn recover(
    alloc: Global,
    table: Option<ManagerTable>,
    record_read: Record,
) -> Result<ManagerTable, BlockFault>
    ensures { Recovers table record_read result }
{
    match record_read {
        Record::Manage { text } => recover_text(alloc, table, text),
        _ => Err(BlockFault::Damaged),
    }
}

/// The table after one record more, which fits it. An error is out of memory.
#[tactic(auto, using(crate::proofs::Rooms::after_room))]
fn with_record(table: ManagerTable, new_record: &ManagerRecord) -> Result<ManagerTable, BlockFault>
    ensures made { IfOk result (λ t. plain t ≡ table_after (plain table) new_record.now) }
    ensures memory { OnErr result (IsErrOf result BlockFault.Memory) }
{
    let mut table = table;
    match table.reserve(new_record) {
        Ok(()) => {
            table.apply(new_record);
            Ok(table)
        }
        Err(_full) => Err(BlockFault::Memory),
    }
}

/// The table after one record more, which is read already.
fn recover_record(
    alloc: Global,
    table: Option<ManagerTable>,
    new_record: &ManagerRecord,
) -> Result<ManagerTable, BlockFault>
    ensures { RecoversManagerRecord table new_record.now result }
{
    match table {
        None => first_table(alloc, new_record),
        Some(table) => {
            match table.fits(new_record) {
                Ok(true) => with_record(table, new_record),
                Ok(false) => Err(BlockFault::Damaged),
                Err(_full) => Err(BlockFault::Memory),
            }
        }
    }
}

/// The table of the first record.
fn first_table(alloc: Global, new_record: &ManagerRecord) -> Result<ManagerTable, BlockFault>
    ensures { RecoversManagerRecord None new_record.now result }
{
    match new_record {
        ManagerRecord::First { nodes, target } => match ManagerTable::new(alloc, *nodes, *target) {
            Ok(table) => Ok(table),
            Err(_full) => Err(BlockFault::Memory),
        },
        _ => Err(BlockFault::Damaged),
    }
}

impl ManagerTable {
    /// The table that records make, the first of them the first in order. 21: there is no first record, or a record does not
    /// fit what those before it make. 22: no memory.
    pub fn replayed(alloc: Global, records: Vec<Record>) -> Result<ManagerTable, BlockFault>
        ensures made { IfOk result (λ table. IsMade (plain table) records.items) }
        ensures damaged { catalog_fits records.items ≡ true → records.items ≢ [] → IsErrOf result BlockFault.Damaged → ⊥ }
    {
        let mut table = None;
        for record_read in records {
            table = Some(recover(alloc, table, record_read)?);
        }
        match table {
            None => Err(BlockFault::Damaged),
            Some(table) => Ok(table),
        }
    }
}
