//! A node.
ghost use Rattle.std.specs.Prelude.{◌≡◌, ◌≢◌, ◌<◌, List, [], Some, None, false, true, IfOk, IfErr, OnOk, IsErrOf, MatchResult, option_map};
ghost use Rattle.block_types.specs.declared.record.Record.{Record};
ghost use Rattle.block_types.specs.declared.record.Version.{Version};
ghost use Rattle.disk.specs.Disk.{IsSteady, LeavesOnly};
ghost use Rattle.disk.specs.File.{IsFileOf};
ghost use Rattle.disk.specs.Memory.{memory_state};
ghost use Rattle.replica.specs.State.{content_of};
ghost use Rattle.replica.specs.Replay.{fit};
ghost use Rattle.model_streams.specs.Node.{node_rule, extent_of, contents};
ghost use Rattle.enode_rules.specs.KeptStep.{empty_step, told};
ghost use Rattle.enode.specs.Faults.{as_rule};
ghost use Rattle.enode.specs.Node.{find, IsReplay, IsRestart, HoldsReplicas};
ghost use Rattle.enode.specs.Performs.{NodePerforms};
ghost use Rattle.model_streams.specs.Bounds.{AreFew};

use crate::fault::{NodeFault, answer};
use crate::recovery::replicas_of;
use crate::rules::take;
use block_types::Record;
use disk::{Disk, MemDisk, RecordFile};
use enode_replica::NodeReplica;
use replica::Replica;
use std::alloc::Global;
use std::collections::BTreeMap;
use std::marker::Model;
use wire::{ExtentId, Packet, Step};

/// An extent node: its number, from 1 to 12, its replicas by extent, and the file of records that they come from
/// (after Calder et al., SOSP 2011, section 4.2).
pub struct Node<D: Disk> {
    number: u8,
    replicas: BTreeMap<u64, NodeReplica>,
    file: RecordFile<D>,
}

// Written out, so that a crate above that lets one go has no proof of what is in it.
impl<D: Disk + Drop> Drop for Node<D> {
    fn drop(self) {
        let Node {
            number: _,
            replicas: _,
            file: _,
        } = self;
    }
}

/// Each replica is what the records make of it, but for what a stop drops. Once it has stopped, the last record may be one
/// that its replicas are without: the one at whose write the disk failed.
impl<D: Disk> Model for Node<D> {
    ghost use Rattle.enode.specs.Node.{NodeState, HoldsReplicas};

    ghost Value = { NodeState D };

    ghost view = { λ n. record { number = n.number; replicas = n.replicas.entries; file = n.file } };

    ghost invariant = { λ n. HoldsReplicas n.number n.replicas.entries n.file.stopped n.file.records };
}

/// The node that the records of a file make.
fn recovered<D: Disk>(
    alloc: Global,
    number: u8,
    file: RecordFile<D>,
    records: Vec<Record>,
) -> Result<Node<D>, (NodeFault, D)>
    requires { records.items ≡ file.records }
    ensures number { IfOk result (λ node. node.number ≡ number) }
    ensures replays { IfOk result (λ node. IsRestart number node.replicas file.records) }
    ensures damaged { fit number file.records ≡ true → IfErr result (λ e. e.0 ≢ NodeFault.Damaged) }
    ensures failed { IfErr result (λ e. e.0 ≢ NodeFault.Failed) }
    ensures file { IfOk result (λ node. node.file ≡ file) }
    ensures disk { IfErr result (λ e. e.1 ≡ file.disk) }
{
    match replicas_of(alloc, number, records) {
        Ok(replicas) => Ok(Node {
            number,
            replicas,
            file,
        }),
        Err(fault) => Err((fault.into(), file.into_disk())),
    }
}

impl<D: Disk> Node<D> {
    /// The node that the records on a disk make, with nothing of what a stop drops. The file is synced, and then read.
    /// A refusal hands the disk back: 20 (a device call failed), 21 (the bytes are no file of records, or a record does
    /// not fit what those before it leave), 22 (no memory).
    pub fn restart(alloc: Global, number: u8, disk: D) -> Result<Node<D>, (NodeFault, D)>
        ensures number { IfOk result (λ node. node.number ≡ number) }
        ensures running { IfOk result (λ node. node.file.stopped ≡ false) }
        ensures file { IfOk result (λ node. IsFileOf node.file.version node.file.records (D.state disk).seen) }
        ensures replays { IfOk result (λ node. IsRestart number node.replicas node.file.records) }

        // 21 only where the bytes are no file of records that fit.
        ensures damaged { (v : Version) (rs : List Record) → IsFileOf v rs (D.state disk).seen → fit number rs ≡ true
            → IfErr result (λ e. e.0 ≢ NodeFault.Damaged) }

        // No node comes of records that do not fit, or of bytes that are no file of records.
        ensures unfit { (v : Version) (rs : List Record) → IsFileOf v rs (D.state disk).seen → (fit number rs ≡ true → ⊥)
            → IfOk result (λ node. ⊥) }
        ensures no_file { ((v : Version) (rs : List Record) → IsFileOf v rs (D.state disk).seen → ⊥) → IfOk result (λ node. ⊥) }
        ensures failed { IfErr result (λ e. e.0 ≡ NodeFault.Failed → (D.state disk).failures < (D.state e.1).failures) }

        // No other records make the node than those that the bytes are a file of.
        ensures only { (v : Version) (rs : List Record) → IsFileOf v rs (D.state disk).seen
            → IfOk result (λ node. (node.file.version ≡ v) × (node.file.records ≡ rs)) }

        // A disk that cannot fail does not, and stays one that cannot.
        ensures steady { IsSteady (D.state disk) → MatchResult result
            (λ node. IsSteady (D.state node.file.disk))
            (λ e. (e.0 ≢ NodeFault.Failed) × IsSteady (D.state e.1)) }

        // A crash at any moment leaves what one before it might have left, also where it is refused.
        ensures any_moment { MatchResult result
            (λ node. LeavesOnly (D.state disk) (D.state node.file.disk) (D.state disk).may_leave)
            (λ e. LeavesOnly (D.state disk) (D.state e.1) (D.state disk).may_leave) }
    {
        match RecordFile::open_with_records(alloc, disk) {
            Ok((file, records)) => recovered(alloc, number, file, records),
            Err((fault, disk)) => Err((fault.into(), disk)),
        }
    }

    /// What the node does with a packet: the rule of its table, exactly. The record, if there is one, is on the disk
    /// before the packets are handed out. A stopped node does nothing. 20: the disk failed, and the node is stopped
    /// until it is restarted; its records are the old ones, with the new one or without. 22: nothing has changed. 21
    /// never comes.
    pub fn handle(&mut self, alloc: Global, packet: &Packet) -> Result<Step, NodeFault>
        ensures performed { self.old.file.stopped ≡ false → NodePerforms D.state self.old.replicas self.new.replicas self.old.file self.new.file
            (extent_of packet.now.body) (node_rule self.old.number (find self.old.replicas (extent_of packet.now.body)) packet.now packet.now.body) (as_rule result) }
        ensures undamaged { IsErrOf result NodeFault.Damaged → ⊥ }
        ensures failed { IsErrOf result NodeFault.Failed → (D.state self.old.file.disk).failures < (D.state self.new.file.disk).failures }
        ensures number { self.new.number ≡ self.old.number }
        ensures stopped { self.old.file.stopped ≡ true → (self.new ≡ self.old) × (result ≡ Ok (record { packets = []; notes = [] })) }

        // A step sends no more than a caller can make room for beforehand.
        ensures few { IfOk result (λ step. AreFew step.packets step.notes) }

        // While the node runs, its replicas are what its records make of them.
        ensures replays { self.old.file.stopped ≡ false → IsReplay self.old.number self.old.replicas self.old.file.records }
    {
        let mut step = Step::silent(alloc);
        match self.handle_into(alloc, packet, &mut step) {
            Ok(()) => Ok(step),
            Err(fault) => Err(fault),
        }
    }

    /// What the node does with a packet, as `handle`. What it sends and shows fills the step, which is empty before: one that is
    /// kept, and emptied before it is given again, takes no memory once it has room. After an error it may hold something, which
    /// is not sent.
    pub fn handle_into(
        &mut self,
        alloc: Global,
        packet: &Packet,
        step: &mut Step,
    ) -> Result<(), NodeFault>
        requires empty { step.old ≡ empty_step }
        ensures performed { self.old.file.stopped ≡ false → NodePerforms D.state self.old.replicas self.new.replicas self.old.file self.new.file
            (extent_of packet.now.body) (node_rule self.old.number (find self.old.replicas (extent_of packet.now.body)) packet.now packet.now.body) (as_rule (told result step.new)) }
        ensures undamaged { IsErrOf result NodeFault.Damaged → ⊥ }
        ensures failed { IsErrOf result NodeFault.Failed → (D.state self.old.file.disk).failures < (D.state self.new.file.disk).failures }
        ensures number { self.new.number ≡ self.old.number }
        ensures stopped { self.old.file.stopped ≡ true → (self.new ≡ self.old) × (told result step.new ≡ Ok empty_step) }

        // A step sends no more than a caller can make room for beforehand.
        ensures few { OnOk result (AreFew step.new.packets step.new.notes) }

        // While the node runs, its replicas are what its records make of them.
        ensures replays { self.old.file.stopped ≡ false → IsReplay self.old.number self.old.replicas self.old.file.records }
    {
        if self.file.is_stopped() {
            return Ok(());
        }
        answer(take(
            &mut self.replicas,
            &mut self.file,
            alloc,
            self.number,
            packet,
            step,
        ))
    }

    /// The replica of an extent, if there is one; takes no memory.
    pub fn replica(&self, extent: ExtentId) -> Option<&Replica>
        ensures { option_map (λ r. content_of r.now) result ≡ contents (find self.now.replicas extent) }
    {
        match self.replicas.get(&extent.0) {
            None => None,
            Some(hosted) => Some(hosted.replica()),
        }
    }

    /// Its number.
    pub fn number(&self) -> u8
        ensures { result ≡ self.now.number }
    {
        self.number
    }

    /// Whether it has stopped. Then it does nothing until it is restarted from its disk.
    pub fn is_stopped(&self) -> bool
        ensures { result ≡ self.now.file.stopped }
    {
        self.file.is_stopped()
    }

    /// The file of its records, to look at: it tells what its disk was told, and copies the disk. Its replicas are what its
    /// records make of them, but for what a stop drops; once it has stopped, all its records or all but the last.
    pub fn file(&self) -> &RecordFile<D>
        ensures value { result.now ≡ self.now.file }
        ensures holds { HoldsReplicas self.now.number self.now.replicas self.now.file.stopped self.now.file.records }
    {
        &self.file
    }

    /// Its disk, whether it has stopped or not. Its bytes are a file of the records that the node had, and these fit: a restart
    /// finds no damage (21).
    pub fn into_disk(self) -> D
        ensures disk { result ≡ self.file.disk }
        ensures stands { IsFileOf self.file.version self.file.records (D.state result).seen }
        ensures fits { fit self.number self.file.records ≡ true }
    {
        let Node {
            number: _,
            replicas: _,
            file,
        } = self;
        file.into_disk()
    }
}

impl Node<MemDisk> {
    /// Tells its disk to stop at the `calls`-th `write_at` or `sync` from now on, in place of what it was told before: a
    /// record makes four of them. All else stays.
    pub fn stop_at(&mut self, calls: u64, keep: bool)
        ensures told { (memory_state self.new.file.disk).stop ≡ Some (calls, keep) }
        ensures same { (self.new.number ≡ self.old.number) × (self.new.replicas ≡ self.old.replicas)
            × (self.new.file.stopped ≡ self.old.file.stopped) × (self.new.file.version ≡ self.old.file.version)
            × (self.new.file.records ≡ self.old.file.records) }
        ensures disk { self.new.file.disk ≡ record self.old.file.disk { stop = Some (record { calls = calls; keep = keep }) } }
    {
        self.file.stop_at(calls, keep);
    }

    /// It stops, and its disk is not told to stop any more. Its replicas, its records and all else stay.
    pub fn stop_now(&mut self)
        ensures stopped { self.new.file.stopped ≡ true }
        ensures steady { IsSteady (memory_state self.new.file.disk) }
        ensures same { (self.new.number ≡ self.old.number) × (self.new.file.version ≡ self.old.file.version)
            × (self.new.file.records ≡ self.old.file.records) }
        ensures replicas { self.new.replicas ≡ self.old.replicas }
        ensures disk { self.new.file.disk ≡ record self.old.file.disk { stop = None } }
        ensures replays { self.old.file.stopped ≡ false → IsReplay self.old.number self.old.replicas self.old.file.records }
    {
        self.file.cancel_stop();
        self.file.halt();
    }
}
