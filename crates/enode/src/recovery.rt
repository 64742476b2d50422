//! Replicas from the records of a node's file.
ghost use Rattle.std.specs.Prelude.{◌≡◌, ℕ, Some, None, true, IfOk, IsErrOf};
ghost use Rattle.block_types.specs.declared.record.Record.TheVariants as records;
ghost use Rattle.replica.specs.Replay.{extent_of, fit};
ghost use Rattle.enode.specs.Node.{find, IsRestart};
ghost use Rattle.enode.specs.Recovery.{Recovers};

use crate::making::{insert_new, is_place};
use block_types::{MAX_TARGET, MIN_TARGET, Nodes, Record};
use disk::FileFault;
use enode_replica::NodeReplica;
use std::alloc::Global;
use std::collections::BTreeMap;
use wire::{ExtentId, Fence};

/// The extent that a record is about, if it is about one.
fn extent_of(added: &Record) -> Option<u64>
    ensures { result ≡ extent_of added.now }
{
    match added {
        Record::Make { extent, .. } => Some(*extent),
        Record::Append { extent, .. } => Some(*extent),
        Record::Fence { extent, .. } => Some(*extent),
        Record::Freeze { extent } => Some(*extent),
        Record::Seal { extent, .. } => Some(*extent),
        Record::Fill { extent, .. } => Some(*extent),
        Record::Manage { .. } => None,
    }
}

/// The record of a new replica, where there is none of its extent: this node is one of its three places.
fn recover_make(
    replicas: &mut BTreeMap<u64, NodeReplica>,
    alloc: Global,
    number: u8,
    extent: ExtentId,
    fence: Fence,
    target: u32,
    places: &Nodes,
) -> Result<(), FileFault>
    requires { find replicas.old.entries extent ≡ None }
    ensures { Recovers number replicas.old.entries replicas.new.entries (records.Make extent fence target places.now) result }
{
    if !is_place(number, places) || !places.are_distinct_nodes() {
        return Err(FileFault::Damaged);
    }
    if target < MIN_TARGET || target > MAX_TARGET {
        return Err(FileFault::Damaged);
    }
    let made = NodeReplica::new(alloc, *places, target, fence);
    insert_new(replicas, extent, made)?;
    Ok(())
}

/// The first record of an extent: a replica is made by it.
fn recover_first(
    replicas: &mut BTreeMap<u64, NodeReplica>,
    alloc: Global,
    number: u8,
    record_read: Record,
) -> Result<(), FileFault>
    requires { (e : ℕ) → extent_of record_read ≡ Some e → find replicas.old.entries e ≡ None }
    ensures { Recovers number replicas.old.entries replicas.new.entries record_read result }
{
    match record_read {
        Record::Make {
            extent,
            fence,
            target,
            nodes,
        } => recover_make(
            replicas,
            alloc,
            number,
            ExtentId(extent),
            Fence(fence),
            target,
            &nodes,
        ),
        Record::Append { .. } => Err(FileFault::Damaged),
        Record::Fence { .. } => Err(FileFault::Damaged),
        Record::Freeze { .. } => Err(FileFault::Damaged),
        Record::Seal { .. } => Err(FileFault::Damaged),
        Record::Fill { .. } => Err(FileFault::Damaged),
        Record::Manage { .. } => Err(FileFault::Damaged),
    }
}

/// One record more.
fn recover(
    replicas: &mut BTreeMap<u64, NodeReplica>,
    alloc: Global,
    number: u8,
    record_read: Record,
) -> Result<(), FileFault>
    ensures { Recovers number replicas.old.entries replicas.new.entries record_read result }
{
    let Some(extent) = extent_of(&record_read) else {
        return Err(FileFault::Damaged);
    };
    match replicas.get_mut(&extent) {
        None => recover_first(replicas, alloc, number, record_read),
        Some(hosted) => hosted.recover(alloc, record_read),
    }
}

/// The replicas that the records of a file make. `Failed` (20) does not come.
pub(crate) fn replicas_of(
    alloc: Global,
    number: u8,
    records: Vec<Record>,
) -> Result<BTreeMap<u64, NodeReplica>, FileFault>
    ensures ok { IfOk result (λ replicas. IsRestart number replicas.entries records.items) }
    ensures damaged { fit number records.items ≡ true → IsErrOf result FileFault.Damaged → ⊥ }
    ensures failed { IsErrOf result FileFault.Failed → ⊥ }
{
    let mut replicas = BTreeMap::new(alloc);
    for record_read in records {
        recover(&mut replicas, alloc, number, record_read)?;
    }
    Ok(replicas)
}
