//! The table that records make.
ghost use Rattle.std.specs.Prelude.{◌≡◌, true, false, Some, IfOk, OnOk, IsErrOf};
ghost use Rattle.model_partition.specs.Map.{MapState};
ghost use Rattle.model_partition.specs.Replay.{map_after, map_fits, map_record_fits, map_record_of};
ghost use Rattle.pmap_table.specs.MakesMap.{MakesMap};

use crate::record_bytes::decode;
use crate::table::RangeTable;
use block_types::{BlockFault, Record};
use model_partition::MapRecord;
use std::alloc::Global;

/// The map's record that a record of the file spells. `Damaged`: it spells none.
fn map_record_in(alloc: Global, record_read: &Record) -> Result<MapRecord, BlockFault>
    ensures ok { IfOk result (λ new_record. map_record_of record_read.now ≡ Some new_record) }
    ensures damaged { IsErrOf result BlockFault.Damaged → (m : MapState) → map_record_fits m (map_record_of record_read.now) ≡ false }
{
    match record_read {
        Record::Manage { text } => decode(alloc, text.as_slice()),
        _ => Err(BlockFault::Damaged),
    }
}

/// Does what a record more makes of the table. `Damaged`: it does not fit, and nothing has changed.
fn recover(alloc: Global, table: &mut RangeTable, record_read: &Record) -> Result<(), BlockFault>
    ensures fits { OnOk result (map_record_fits table.old.map (map_record_of record_read.now) ≡ true) }
    ensures after { OnOk result (table.new.map ≡ map_after table.old.map (map_record_of record_read.now)) }
    ensures damaged { IsErrOf result BlockFault.Damaged → map_record_fits table.old.map (map_record_of record_read.now) ≡ false }
{
    let new_record = map_record_in(alloc, record_read)?;
    if !table.fits(&new_record) {
        return Err(BlockFault::Damaged);
    }
    let copy = table.reserve(&new_record)?;
    table.apply(new_record, copy);
    Ok(())
}

/// The table that records make, in their order. 21: a record does not fit what those before it make. 22: no memory.
pub fn replayed(alloc: Global, records: &[Record]) -> Result<RangeTable, BlockFault>
    ensures made { IfOk result (λ table. MakesMap records.now table.map) }
    ensures damaged { map_fits records.now ≡ true → IsErrOf result BlockFault.Damaged → ⊥ }
{
    let mut table = RangeTable::first(alloc)?;
    for record_read in records {
        recover(alloc, &mut table, record_read)?;
    }
    Ok(table)
}
