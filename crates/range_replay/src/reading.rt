//! The records of a range's metadata, folded.
ghost use Rattle.std.specs.Prelude.{◌≡◌, ◌∷◌, ℕ, List, Some, None, Err, IfOk, OnOk};
ghost use Rattle.block_types.specs.declared.fault.BlockFault.TheVariants as faults;
ghost use Rattle.model_partition.specs.Loading.{said_after};

use block_types::{BlockFault, Group};
use metadata::{Metadata, decode};
use std::alloc::Global;

/// Folds the record that a group is.
fn fold_group(alloc: Global, said: &mut Metadata, group: &Group) -> Result<(), BlockFault>
    ensures ok { OnOk result ((groups : List (List (List ℕ))) → said_after said.old (group.now ∷ groups) ≡ said_after said.new groups) }
    ensures damaged { result ≡ Err faults.Damaged → (groups : List (List (List ℕ))) → said_after said.old (group.now ∷ groups) ≡ None }
{
    let record = decode(alloc, group)?;
    said.fold(alloc, record)?;
    Ok(())
}

/// Folds the records that the groups are. What is left where one fails is of no use.
fn fold_groups(alloc: Global, said: &mut Metadata, groups: &[Group]) -> Result<(), BlockFault>
    ensures ok { OnOk result (said_after said.old groups.now ≡ Some said.new) }
    ensures damaged { result ≡ Err faults.Damaged → said_after said.old groups.now ≡ None }
{
    for group in groups {
        fold_group(alloc, said, group)?;
    }
    Ok(())
}

/// What the metadata says after the groups of an extent. It is refused `Damaged` (21) where one is no record, or has a number
/// above the next. `Memory` (22) says nothing of the groups.
pub fn folded(alloc: Global, said: &Metadata, groups: &[Group]) -> Result<Metadata, BlockFault>
    ensures ok { IfOk result (λ m. said_after said.now groups.now ≡ Some m) }
    ensures damaged { result ≡ Err faults.Damaged → said_after said.now groups.now ≡ None }
{
    let mut all = said.copy(alloc)?;
    match fold_groups(alloc, &mut all, groups) {
        Ok(()) => Ok(all),
        Err(fault) => Err(fault),
    }
}
