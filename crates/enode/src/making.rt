//! A new replica at a node.
ghost use Rattle.std.specs.Prelude.{◌≡◌, ◌≢◌, ℕ, Some, None, false, true, OnOk, OnErr, IfErr};
ghost use Rattle.block_types.specs.Limits.{AreNodes, IsTarget};
ghost use Rattle.block_types.specs.declared.record.Record.TheVariants as records;
ghost use Rattle.disk.specs.Appends.{Appends};
ghost use Rattle.disk.specs.declared.device.DiskFault.TheVariants as faults;
ghost use Rattle.replica.specs.Replay.{is_place as is_one_place};
ghost use Rattle.model_streams.specs.Outcome.{all_met};
ghost use Rattle.model_streams.specs.Node.{make_rule, make_taken, make_tests};
ghost use Rattle.enode.specs.Node.{find};
ghost use Rattle.enode.specs.Performs.{NodePerforms};

use block_types::{MAX_TARGET, MIN_TARGET, Nodes, Record};
use disk::{Disk, DiskFault, RecordFile};
use enode_replica::NodeReplica;
use enode_rules::is_manager;
use std::alloc::Global;
use std::collections::BTreeMap;
use wire::{ExtentId, Fence, Packet, Step};

/// Puts a new replica into the map, whose growth may fail.
pub(crate) fn insert_new(
    replicas: &mut BTreeMap<u64, NodeReplica>,
    extent: ExtentId,
    made: NodeReplica,
) -> Result<(), DiskFault>
    ensures here { OnOk result (find replicas.new.entries extent ≡ Some made) }
    ensures elsewhere { OnOk result ((f : ℕ) → f ≢ extent → find replicas.new.entries f ≡ find replicas.old.entries f) }
    ensures err { OnErr result (replicas.new.entries ≡ replicas.old.entries) }
    ensures fault { IfErr result (λ e. e ≡ faults.Memory) }
{
    match replicas.insert(extent.0, made) {
        Ok(_none) => Ok(()),
        Err(_full) => Err(DiskFault::Memory),
    }
}

fn remove_new(replicas: &mut BTreeMap<u64, NodeReplica>, extent: ExtentId)
    ensures gone { find replicas.new.entries extent ≡ None }
    ensures elsewhere { (f : ℕ) → f ≢ extent → find replicas.new.entries f ≡ find replicas.old.entries f }
{
    // The replica that was made goes with it.
    let _made = replicas.remove(&extent.0);
}

/// Adds the record of a new replica to the node's file.
fn write_make<D: Disk>(
    alloc: Global,
    file: &mut RecordFile<D>,
    extent: ExtentId,
    fence: Fence,
    target: u32,
    places: Nodes,
) -> Result<(), DiskFault>
    requires running { file.old.stopped ≡ false }
    requires target { IsTarget target }
    requires places { AreNodes places }
    ensures { Appends D.state file.old file.new (records.Make extent fence target places) result }
{
    let added = Record::Make {
        extent: extent.0,
        fence: fence.0,
        target,
        nodes: places,
    };
    file.append(alloc, &added)
}

// The map grows first; where the record could not be written, the replica is taken out again.
fn make_taken<D: Disk>(
    replicas: &mut BTreeMap<u64, NodeReplica>,
    file: &mut RecordFile<D>,
    alloc: Global,
    extent: ExtentId,
    fence: Fence,
    target: u32,
    places: Nodes,
) -> Result<Step, DiskFault>
    requires running { file.old.stopped ≡ false }
    requires absent { find replicas.old.entries extent ≡ None }
    requires target { IsTarget target }
    requires places { AreNodes places }
    ensures { NodePerforms D.state replicas.old.entries replicas.new.entries file.old file.new extent
        (make_taken extent fence target places) result }
{
    let made = NodeReplica::new(alloc, places, target, fence);
    insert_new(replicas, extent, made)?;
    match write_make(alloc, file, extent, fence, target, places) {
        Ok(()) => Ok(Step::silent(alloc)),
        Err(fault) => {
            remove_new(replicas, extent);
            Err(fault)
        }
    }
}

pub(crate) fn is_place(number: u8, places: &Nodes) -> bool
    ensures { result ≡ is_one_place number places.now }
{
    number == places.primary || number == places.second || number == places.third
}

/// Whether a replica may be made: the manager asks, this node is one of three distinct places, and the target is
/// within its limits.
fn may_make(number: u8, packet: &Packet, target: u32, places: &Nodes) -> bool
    ensures value { result ≡ all_met (make_tests number packet.now target places.now) }
    ensures target { result ≡ true → IsTarget target }
    ensures places { result ≡ true → AreNodes places.now }
{
    if !is_manager(packet.from) {
        return false;
    }
    if !is_place(number, places) {
        return false;
    }
    if !places.are_distinct_nodes() {
        return false;
    }
    MIN_TARGET <= target && target <= MAX_TARGET
}

/// A Make of an extent of which there is no replica: one is made, if it may be.
pub(crate) fn make<D: Disk>(
    replicas: &mut BTreeMap<u64, NodeReplica>,
    file: &mut RecordFile<D>,
    alloc: Global,
    number: u8,
    packet: &Packet,
    extent: ExtentId,
    fence: Fence,
    target: u32,
    places: &Nodes,
) -> Result<Step, DiskFault>
    requires running { file.old.stopped ≡ false }
    requires absent { find replicas.old.entries extent ≡ None }
    ensures { NodePerforms D.state replicas.old.entries replicas.new.entries file.old file.new extent
        (make_rule number packet.now extent fence target places.now) result }
{
    if !may_make(number, packet, target, places) {
        return Ok(Step::silent(alloc));
    }
    make_taken(replicas, file, alloc, extent, fence, target, *places)
}
