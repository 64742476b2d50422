//! The node on a disk in memory.
ghost use Rattle.std.specs.Prelude.{◌≡◌, ℕ, [], Some, true, option_map, IfOk, OnOk, OnErr};
ghost use Rattle.wire.specs.declared.actor.ActorId.TheVariants as actors;
ghost use Rattle.model_streams.specs.StreamSystem.{StreamSystem, is_present, node_takes, restart as restarted_in, stop as stopped_in};
ghost use Rattle.world_steps.specs.ActorStep.{IsFew, nothing, stream_step};
ghost use Rattle.world_nodes.specs.Seen.{NodeMirrors, NodeSimulates, NodeSteps, if_running, new_node, seen_of};

use disk::{DiskFault, MemDisk, RecordFile};
use enode::{Node, NodeFault};
use std::alloc::{AllocError, Global};
use std::marker::Model;
use wire::{Packet, Step};

/// An extent node, on a disk in memory.
pub struct NodeActor {
    node: Node<MemDisk>,
}

// Written out, so that a crate above that lets one go has no proof of what is in it.
impl Drop for NodeActor {
    fn drop(self) {
        let NodeActor { node: _ } = self;
    }
}

impl Model for NodeActor {
    ghost use Rattle.world_nodes.specs.Seen.{NodeSeen, seen_of};

    ghost Value = { NodeSeen };

    ghost view = { λ actor. seen_of actor.node };
}

/// Empties a step that is kept, and leaves it its room.
pub fn empty(step: &mut Step)
    ensures { step.new ≡ record { packets = []; notes = [] } }
{
    step.packets.items.clear();
    step.notes.items.clear();
}

/// A node on a new disk.
fn on_new_disk(alloc: Global, number: u8) -> Result<Node<MemDisk>, AllocError>
    ensures { IfOk result (λ node. seen_of node ≡ new_node number) }
{
    let file = match RecordFile::format(MemDisk::new(alloc)) {
        Ok(file) => file,
        Err((DiskFault::Memory, _disk)) => return Err(AllocError),
        Err(_) => unreachable!(),
    };
    match Node::restart(alloc, number, file.into_disk()) {
        Ok(node) => Ok(node),
        Err((NodeFault::Memory, _disk)) => Err(AllocError),
        Err(_) => unreachable!(),
    }
}

/// Gives a packet to a node, which fills a step. One that stops in it sends nothing.
fn give(
    node: &mut Node<MemDisk>,
    alloc: Global,
    packet: &Packet,
    step: &mut Step,
) -> Result<(), AllocError>
    requires { step.old ≡ record { packets = []; notes = [] } }
    ensures ok { OnOk result (NodeSimulates (seen_of node.old) (seen_of node.new) (λ w n. node_takes w n packet.now) (stream_step step.new)) }
    ensures err { OnErr result (seen_of node.new ≡ seen_of node.old) }
    ensures few { OnOk result (IsFew (stream_step step.new)) }
{
    if node.is_stopped() {
        return Ok(());
    }
    match node.handle_into(alloc, packet, step) {
        Ok(()) => Ok(()),
        Err(NodeFault::Failed) => {
            empty(step);
            Ok(())
        }
        Err(NodeFault::Damaged) => unreachable!(),
        Err(NodeFault::Memory) => Err(AllocError),
    }
}

/// Stops a node at once, or in one of its next device calls. Nothing comes of it where it has stopped.
fn stop(node: &mut Node<MemDisk>, call: u64, keep: bool)
    ensures { NodeSimulates (seen_of node.old) (seen_of node.new) (λ w n. stopped_in w (actors.Node n) call keep) nothing }
{
    if node.is_stopped() {
        return;
    }
    if call == 0 {
        node.stop_now();
    } else {
        node.stop_at(call, keep);
    }
}

/// Brings a node back that has stopped, with what is on its disk. Nothing comes of it where it runs.
fn restart(node: &mut Node<MemDisk>, alloc: Global) -> Result<(), AllocError>
    ensures ok { OnOk result ((n : ℕ) (w : StreamSystem) → is_present w n ≡ true → NodeMirrors n (seen_of node.old) w → NodeSteps n (seen_of node.new) w (restarted_in w (actors.Node n)) nothing) }
    ensures err { OnErr result (seen_of node.new ≡ seen_of node.old) }
{
    if !node.is_stopped() {
        return Ok(());
    }
    let disk = match node.file().copy_disk(alloc) {
        Ok(disk) => disk,
        Err(full) => return Err(full),
    };
    match Node::restart(alloc, node.number(), disk) {
        Ok(started) => {
            *node = started;
            Ok(())
        }
        Err((NodeFault::Memory, _disk)) => Err(AllocError),
        Err(_) => unreachable!(),
    }
}

/// The node, where it runs.
fn running(node: &Node<MemDisk>) -> Option<&Node<MemDisk>>
    ensures { option_map (λ node. seen_of node.now) result ≡ if_running (Some (seen_of node.now)) }
{
    if node.is_stopped() { None } else { Some(node) }
}

impl NodeActor {
    /// The node of a number, with nothing on its disk. An error is out of memory (22).
    pub fn start(alloc: Global, number: u8) -> Result<NodeActor, AllocError>
        ensures { IfOk result (λ actor. actor ≡ new_node number) }
    {
        match on_new_disk(alloc, number) {
            Ok(node) => Ok(NodeActor { node }),
            Err(full) => Err(full),
        }
    }

    /// Gives it a packet, and fills a step, which is empty before, with what it sends and shows. An error is out of memory (22),
    /// and nothing has changed but the step, which its owner empties.
    pub fn give(
        &mut self,
        alloc: Global,
        packet: &Packet,
        step: &mut Step,
    ) -> Result<(), AllocError>
        requires { step.old ≡ record { packets = []; notes = [] } }
        ensures ok { OnOk result (NodeSimulates self.old self.new (λ w n. node_takes w n packet.now) (stream_step step.new)) }
        ensures err { OnErr result (self.new ≡ self.old) }
        ensures few { OnOk result (IsFew (stream_step step.new)) }
    {
        give(&mut self.node, alloc, packet, step)
    }

    /// Stops it at once, or in one of its next device calls. Nothing comes of it where it has stopped.
    pub fn stop(&mut self, call: u64, keep: bool)
        ensures { NodeSimulates self.old self.new (λ w n. stopped_in w (actors.Node n) call keep) nothing }
    {
        stop(&mut self.node, call, keep)
    }

    /// Brings it back, with what is on its disk. Nothing comes of it where it runs. An error is out of memory (22), and
    /// nothing has changed.
    pub fn restart(&mut self, alloc: Global) -> Result<(), AllocError>
        ensures ok { OnOk result ((n : ℕ) (w : StreamSystem) → is_present w n ≡ true → NodeMirrors n self.old w → NodeSteps n self.new w (restarted_in w (actors.Node n)) nothing) }
        ensures err { OnErr result (self.new ≡ self.old) }
    {
        restart(&mut self.node, alloc)
    }

    /// Whether it has stopped. Then nothing comes of a packet until it is restarted.
    pub fn is_stopped(&self) -> bool
        ensures { result ≡ self.now.stopped }
    {
        self.node.is_stopped()
    }

    /// The node itself, to look at; none where it has stopped.
    pub fn node(&self) -> Option<&Node<MemDisk>>
        ensures { option_map (λ node. seen_of node.now) result ≡ if_running (Some self.now) }
    {
        running(&self.node)
    }
}
