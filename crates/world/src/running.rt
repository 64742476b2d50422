//! A run: a cluster that events brought to where it is.
ghost use Rattle.std.specs.Prelude.{◌≡◌, IfOk, None, OnOk, OnErr, option_map};
ghost use Rattle.model_streams.specs.declared.event.Event.TheVariants as events;
ghost use Rattle.model_streams.specs.Honest.{Agree, Kept};
ghost use Rattle.model_partition.specs.Cluster.{first_cluster};
ghost use Rattle.model_partition.specs.Honest.{Honest};
ghost use Rattle.wire.specs.Refusal.{number_of};
ghost use Rattle.world_nodes.specs.Seen.{seen_of};
ghost use Rattle.world_streams.specs.Nodes.{running_at};
ghost use Rattle.world.specs.Cluster.{ClusterSimulates, ClusterMirrors, IsRun, IsUnmergedRun, refusal_of};

use crate::cluster::Cluster;
use disk::MemDisk;
use enode::Node;
use model_streams::Event;
use std::alloc::Global;
use std::marker::Model;
use wire::{ActorId, Body, Note, Packet, Refusal};
use world_streams::{Setup, WorldFault};

/// A cluster that events made. At each moment it is what the model makes of some list of events, from the start of some
/// setup. So what was observed of extents agrees and is kept, at any moment and of any run; and what was observed of tables
/// replays, at any moment of any run in which no two ranges are merged.
pub struct Run {
    cluster: Cluster,
}

// Written out, so that a crate above that lets one go has no proof of what is in it.
impl Drop for Run {
    fn drop(self) {
        let Run { cluster: _ } = self;
    }
}

impl Model for Run {
    ghost use Rattle.world.specs.Cluster.{ClusterState, IsRun};

    ghost Value = { ClusterState };

    ghost view = { λ run. run.cluster };

    ghost invariant = { λ run. IsRun run.cluster };
}

impl Run {
    /// The actors of this setup, with nothing on their disks, and nothing sent or observed. An error is out of memory
    /// (22).
    pub fn start(alloc: Global, setup: &Setup) -> Result<Run, WorldFault>
        ensures mirrors { IfOk result (λ run. ClusterMirrors run (first_cluster setup.now.nodes setup.now.servers setup.now.target setup.now.batch)) }
    {
        Ok(Run {
            cluster: Cluster::start(alloc, setup)?,
        })
    }

    /// One event more. It answers why the event is refused: a decision, where there is no such extent (1) or no place has answered
    /// with its length (10); giving up and a renewal, where the server does not hold the range (30); a checkpoint, where the server
    /// does not hold the range (30), the range is not served yet (38) or is paused (34), or a checkpoint, a split or a merge of it
    /// is under way (35); a split for the same (30, 38, 34, 35), and where the key does not split the keys of the range (39); a
    /// merge for the same of either range (30, 38, 34, 35), where the left one does not end where the right one begins (40), and
    /// where they have too many indexes together (37); an assignment, of an unknown range (30) or while another server holds it
    /// (31). Nothing has changed then. An error is out of memory (22), and nothing has changed then either.
    pub fn advance(&mut self, alloc: Global, event: &Event) -> Result<Option<Refusal>, WorldFault>
        ensures ok { OnOk result (ClusterSimulates self.old self.new event.now) }
        ensures err { OnErr result (self.new ≡ self.old) }
        ensures refusal { IfOk result (λ refusal. refusal ≡ refusal_of self.old event.now) }
    {
        self.cluster.step(alloc, event)
    }

    /// One event more, as `advance` has it. It answers the number of the refusal where the event is refused. An error is out of
    /// memory (22), and nothing has changed then.
    pub fn step(&mut self, alloc: Global, event: &Event) -> Result<Option<u8>, WorldFault>
        ensures ok { OnOk result (ClusterSimulates self.old self.new event.now) }
        ensures err { OnErr result (self.new ≡ self.old) }
        ensures refusal { IfOk result (λ number. number ≡ option_map number_of (refusal_of self.old event.now)) }
    {
        let refusal = self.advance(alloc, event)?;
        Ok(refusal.map(|refusal| refusal.number()))
    }

    /// One event more: the packet of a number, from 0, comes to whom it is for. Nothing comes of a number that was never sent. It is
    /// what `advance` makes of that event, which is never refused. An error is out of memory (22), and nothing has changed then.
    pub fn deliver(&mut self, alloc: Global, number: usize) -> Result<Option<Refusal>, WorldFault>
        ensures ok { OnOk result (ClusterSimulates self.old self.new (events.Deliver number)) }
        ensures err { OnErr result (self.new ≡ self.old) }
        ensures refusal { IfOk result (λ refusal. refusal ≡ refusal_of self.old (events.Deliver number)) }
        ensures none { IfOk result (λ refusal. refusal ≡ None) }
    {
        self.cluster.deliver(alloc, number)
    }

    /// One event more: a user asks an actor this, which becomes the next packet, and nothing is observed of it. Nothing comes of a
    /// body that users may not ask. It is what `advance` makes of that event, which is never refused. An error is out of memory
    /// (22), and nothing has changed then.
    pub fn submit(
        &mut self,
        user: u64,
        to: ActorId,
        body: Body,
    ) -> Result<Option<Refusal>, WorldFault>
        ensures ok { OnOk result (ClusterSimulates self.old self.new (events.Submit user to body)) }
        ensures err { OnErr result (self.new ≡ self.old) }
        ensures refusal { IfOk result (λ refusal. refusal ≡ refusal_of self.old (events.Submit user to body)) }
        ensures same_notes { self.new.stream_layer.notes ≡ self.old.stream_layer.notes }
        ensures none { IfOk result (λ refusal. refusal ≡ None) }
    {
        self.cluster.submit(user, to, body)
    }

    /// All packets that were sent, in order: their places, from 0, are their numbers.
    pub fn sent(&self) -> &[Packet]
        ensures sent { result.now ≡ self.now.stream_layer.post }
        ensures led { IsRun self.now }
    {
        self.cluster.sent()
    }

    /// All that was observed, in order. Whatever was asked, lost, repeated, reordered, split or merged: all that is shown of an
    /// extent agrees, and every acknowledged append stands in it at its answered offset. Where no event merged ranges, whatever was
    /// split, what was observed of tables replays too: each table that a load shows is, within the range's keys, that of a line of
    /// transactions that has every one that was acknowledged under an earlier generation, of the range or of one that it was split
    /// from, in order, each once; and each Get that was answered shows what was stored under its key after every transaction that
    /// was acknowledged by then.
    pub fn observations(&self) -> &[Note]
        ensures notes { result.now ≡ self.now.stream_layer.notes }
        ensures agree { Agree result.now }
        ensures kept { Kept result.now }
        ensures honest { IsUnmergedRun self.now → Honest result.now }
    {
        self.cluster.observations()
    }

    /// The node of a number, from 1; none where it is stopped, or where there is none.
    pub fn node(&self, number: u8) -> Option<&Node<MemDisk>>
        ensures { option_map (λ node. seen_of node.now) result ≡ running_at self.now.stream_layer.nodes number }
    {
        self.cluster.node(number)
    }
}
