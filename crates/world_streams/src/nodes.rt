//! The extent nodes of a run.
ghost use Rattle.std.specs.Prelude.{◌≡◌, ◌<◌, [], suc, length, option_map, IfOk, OnOk, OnErr};
ghost use Rattle.wire.specs.declared.actor.ActorId.TheVariants as actors;
ghost use Rattle.model_streams.specs.StreamSystem.{StreamSystem, node_takes, restart, stop};
ghost use Rattle.world_steps.specs.ActorStep.{IsFew, nothing, stream_step};
ghost use Rattle.world_nodes.specs.Seen.{seen_of};
ghost use Rattle.world_streams.specs.Nodes.{NodesMirror, NodesStep, first_nodes, running_at};

use disk::MemDisk;
use enode::Node;
use std::alloc::{AllocError, Global};
use std::marker::Model;
use wire::{Packet, Step};
use world_nodes::NodeActor;

/// The nodes, in order from node 1.
#[derive(Drop)]
pub(crate) struct NodeList {
    items: Vec<NodeActor>,
}

impl Model for NodeList {
    ghost use Rattle.std.specs.Prelude.{List};
    ghost use Rattle.world_nodes.specs.Seen.{NodeSeen};

    ghost Value = { List NodeSeen };

    ghost view = { λ nodes. nodes.items.items };
}

/// Gives a packet to one of the nodes, which fills a step.
fn give_at(
    nodes: &mut Vec<NodeActor>,
    at: usize,
    alloc: Global,
    packet: &Packet,
    step: &mut Step,
) -> Result<(), AllocError>
    requires at { at < length nodes.old.items }
    requires empty { step.old ≡ record { packets = []; notes = [] } }
    ensures ok { OnOk result ((w : StreamSystem) → NodesMirror nodes.old.items w → NodesStep nodes.new.items w (node_takes w (suc at) packet.now) (stream_step step.new)) }
    ensures err { OnErr result (nodes.new.items ≡ nodes.old.items) }
    ensures few { OnOk result (IsFew (stream_step step.new)) }
{
    nodes[at].give(alloc, packet, step)
}

fn stop_at(nodes: &mut Vec<NodeActor>, at: usize, call: u64, keep: bool)
    requires { at < length nodes.old.items }
    ensures { (w : StreamSystem) → NodesMirror nodes.old.items w → NodesStep nodes.new.items w (stop w (actors.Node (suc at)) call keep) nothing }
{
    nodes[at].stop(call, keep)
}

fn restart_at(nodes: &mut Vec<NodeActor>, at: usize, alloc: Global) -> Result<(), AllocError>
    requires { at < length nodes.old.items }
    ensures ok { OnOk result ((w : StreamSystem) → NodesMirror nodes.old.items w → NodesStep nodes.new.items w (restart w (actors.Node (suc at))) nothing) }
    ensures err { OnErr result (nodes.new.items ≡ nodes.old.items) }
{
    nodes[at].restart(alloc)
}

impl NodeList {
    /// So many nodes, with nothing on their disks.
    pub(crate) fn start(alloc: Global, count: u8) -> Result<NodeList, AllocError>
        ensures { IfOk result (λ nodes. nodes ≡ first_nodes count) }
    {
        let mut items = Vec::with_capacity(alloc, usize::from(count))?;
        for before in 0..count {
            items.push(NodeActor::start(alloc, before + 1)?)?;
        }
        Ok(NodeList { items })
    }

    /// Gives a packet to the node of a number, which fills a step. Nothing comes of one to an absent node.
    pub(crate) fn give(
        &mut self,
        alloc: Global,
        number: u8,
        packet: &Packet,
        step: &mut Step,
    ) -> Result<(), AllocError>
        requires { step.old ≡ record { packets = []; notes = [] } }
        ensures ok { OnOk result ((w : StreamSystem) → NodesMirror self.old w → NodesStep self.new w (node_takes w number packet.now) (stream_step step.new)) }
        ensures err { OnErr result (self.new ≡ self.old) }
        ensures few { OnOk result (IsFew (stream_step step.new)) }
    {
        if number == 0 {
            return Ok(());
        }
        let at = usize::from(number) - 1;
        if at >= self.items.len() {
            return Ok(());
        }
        give_at(&mut self.items, at, alloc, packet, step)
    }

    /// Stops the node of a number, at once or in one of its next device calls. Nothing comes of it where there is none.
    pub(crate) fn stop(&mut self, number: u8, call: u64, keep: bool)
        ensures { (w : StreamSystem) → NodesMirror self.old w → NodesStep self.new w (stop w (actors.Node number) call keep) nothing }
    {
        if number == 0 {
            return;
        }
        let at = usize::from(number) - 1;
        if at >= self.items.len() {
            return;
        }
        stop_at(&mut self.items, at, call, keep)
    }

    /// Brings the node of a number back. Nothing comes of it where there is none, or where it runs.
    pub(crate) fn restart(&mut self, alloc: Global, number: u8) -> Result<(), AllocError>
        ensures ok { OnOk result ((w : StreamSystem) → NodesMirror self.old w → NodesStep self.new w (restart w (actors.Node number)) nothing) }
        ensures err { OnErr result (self.new ≡ self.old) }
    {
        if number == 0 {
            return Ok(());
        }
        let at = usize::from(number) - 1;
        if at >= self.items.len() {
            return Ok(());
        }
        restart_at(&mut self.items, at, alloc)
    }

    /// The node of a number, where it runs.
    pub(crate) fn node(&self, number: u8) -> Option<&Node<MemDisk>>
        ensures { option_map (λ node. seen_of node.now) result ≡ running_at self.now number }
    {
        if number == 0 {
            return None;
        }
        match self.items.get(usize::from(number) - 1) {
            None => None,
            Some(actor) => actor.node(),
        }
    }
}
