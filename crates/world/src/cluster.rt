//! A cluster: the stream layer, the servers above it, the map, and the clock of leases.
ghost use Rattle.std.specs.Prelude.{◌≡◌, None, Some, IfOk, IfSome, OnOk, OnErr, option_map, slice_get};
ghost use Rattle.model_streams.specs.declared.event.Event.TheVariants as events;
ghost use Rattle.model_streams.specs.Maps.{entry_at};
ghost use Rattle.model_partition.specs.Servers.{checkpoint_refusal_at, give_up_refusal, merge_refusal_at, split_refusal_at};
ghost use Rattle.model_partition.specs.Cluster.{first_cluster};
ghost use Rattle.world_manager.specs.Seen.{decision_refusal};
ghost use Rattle.world_nodes.specs.Seen.{seen_of};
ghost use Rattle.world_streams.specs.Nodes.{running_at};
ghost use Rattle.wire.specs.declared.actor.ActorId.TheVariants as actors;
ghost use Rattle.world_map.specs.Seen.{assign_refusal, renew_refusal};
ghost use Rattle.world.specs.Cluster.{ClusterSimulates, ClusterMirrors, IsBelow, addressee_of, refusal_of};

use block_types::Nodes;
use bytes::Bytes;
use disk::MemDisk;
use enode::Node;
use model_streams::Event;
use std::alloc::Global;
use std::marker::Model;
use wire::{ActorId, Body, ExtentId, Note, Packet, RangeId, Refusal, ServerNo};
use world_map::MapActor;
use world_servers::Servers;
use world_streams::{Setup, StreamLayer, WorldFault};

/// Real actors: nodes and the manager in the stream layer, which has all packets and observations; the servers, which know how
/// many transactions a group may hold; and the map. Servers and the map have seen the same moments of the clock.
#[derive(Drop)]
pub(crate) struct Cluster {
    stream_layer: StreamLayer,
    servers: Servers,
    map: MapActor,
}

impl Model for Cluster {
    ghost use Rattle.std.specs.Prelude.{◌≡◌};
    ghost use Rattle.world.specs.Cluster.{ClusterState};

    ghost Value = { ClusterState };

    ghost view = { λ c. record { stream_layer = c.stream_layer; servers = c.servers.cells; map = c.map; moment = c.servers.moment; batch = c.servers.batch } };

    ghost invariant = { λ c. c.map.moment ≡ c.servers.moment };
}

impl Cluster {
    /// The actors of this setup, with nothing on their disks, and nothing sent or observed. An error is out of memory
    /// (22).
    pub(crate) fn start(alloc: Global, setup: &Setup) -> Result<Cluster, WorldFault>
        ensures { IfOk result (λ run. ClusterMirrors run (first_cluster setup.now.nodes setup.now.servers setup.now.target setup.now.batch)) }
    {
        Ok(Cluster {
            stream_layer: StreamLayer::start(alloc, setup)?,
            servers: Servers::start(alloc, setup.servers, setup.batch)?,
            map: MapActor::start(alloc)?,
        })
    }

    /// A user asks this. An error is out of memory (22), and nothing has changed.
    pub(crate) fn submit(
        &mut self,
        user: u64,
        to: ActorId,
        body: Body,
    ) -> Result<Option<Refusal>, WorldFault>
        ensures none { IfOk result (λ refusal. refusal ≡ None) }
        ensures ok { OnOk result (ClusterSimulates self.old self.new (events.Submit user to body)) }
        ensures err { OnErr result (self.new ≡ self.old) }
        ensures same_notes { self.new.stream_layer.notes ≡ self.old.stream_layer.notes }
    {
        self.stream_layer.submit(user, to, body)
    }

    fn submit_copy(
        &mut self,
        alloc: Global,
        user: u64,
        to: ActorId,
        body: &Body,
    ) -> Result<Option<Refusal>, WorldFault>
        ensures none { IfOk result (λ refusal. refusal ≡ None) }
        ensures ok { OnOk result (ClusterSimulates self.old self.new (events.Submit user to body.now)) }
        ensures err { OnErr result (self.new ≡ self.old) }
    {
        self.stream_layer.submit_copy(alloc, user, to, body)
    }

    /// Whom the packet of a number is for; none where no packet has it.
    fn addressee(&self, number: usize) -> Option<ActorId>
        ensures { result ≡ addressee_of (slice_get self.now.stream_layer.post number) }
    {
        match self.stream_layer.sent().get(number) {
            None => None,
            Some(packet) => Some(packet.to),
        }
    }

    /// The server takes the packet of this number, which is for it.
    fn give(&mut self, alloc: Global, server: ServerNo, number: usize) -> Result<(), WorldFault>
        requires { addressee_of (slice_get self.old.stream_layer.post number) ≡ Some (actors.Server server) }
        ensures ok { OnOk result (ClusterSimulates self.old self.new (events.Deliver number)) }
        ensures err { OnErr result (self.new ≡ self.old) }
    {
        self.stream_layer
            .give(alloc, &mut self.servers, server, number)
    }

    /// The map takes the packet of this number, which is for it.
    fn route(&mut self, alloc: Global, number: usize) -> Result<(), WorldFault>
        requires { addressee_of (slice_get self.old.stream_layer.post number) ≡ Some actors.Map }
        ensures ok { OnOk result (ClusterSimulates self.old self.new (events.Deliver number)) }
        ensures err { OnErr result (self.new ≡ self.old) }
    {
        self.stream_layer.route(alloc, &mut self.map, number)
    }

    /// The packet of this number comes to whom it is for.
    fn take(
        &mut self,
        alloc: Global,
        to: ActorId,
        number: usize,
    ) -> Result<Option<Refusal>, WorldFault>
        requires { addressee_of (slice_get self.old.stream_layer.post number) ≡ Some to }
        ensures none { IfOk result (λ refusal. refusal ≡ None) }
        ensures ok { OnOk result (ClusterSimulates self.old self.new (events.Deliver number)) }
        ensures err { OnErr result (self.new ≡ self.old) }
    {
        match to {
            ActorId::Server(server) => {
                self.give(alloc, server, number)?;
                Ok(None)
            }
            ActorId::Map => {
                self.route(alloc, number)?;
                Ok(None)
            }
            ActorId::Node(_) => self.pass_on(alloc, number),
            ActorId::Manager => self.pass_on(alloc, number),
            ActorId::User(_) => self.pass_on(alloc, number),
        }
    }

    /// The packet of this number comes to the stream layer.
    fn pass_on(&mut self, alloc: Global, number: usize) -> Result<Option<Refusal>, WorldFault>
        requires { IfSome (addressee_of (slice_get self.old.stream_layer.post number)) IsBelow }
        ensures none { IfOk result (λ refusal. refusal ≡ None) }
        ensures ok { OnOk result (ClusterSimulates self.old self.new (events.Deliver number)) }
        ensures err { OnErr result (self.new ≡ self.old) }
    {
        self.stream_layer.deliver(alloc, number)
    }

    /// The packet of a number comes to whom it is for; nothing comes of a number that was never sent. An error is out of memory
    /// (22), and nothing has changed.
    pub(crate) fn deliver(
        &mut self,
        alloc: Global,
        number: usize,
    ) -> Result<Option<Refusal>, WorldFault>
        ensures none { IfOk result (λ refusal. refusal ≡ None) }
        ensures ok { OnOk result (ClusterSimulates self.old self.new (events.Deliver number)) }
        ensures err { OnErr result (self.new ≡ self.old) }
    {
        match self.addressee(number) {
            None => Ok(None),
            Some(to) => self.take(alloc, to, number),
        }
    }

    fn stop(&mut self, actor: ActorId, call: u64, keep: bool)
        ensures { ClusterSimulates self.old self.new (events.Stop actor call keep) }
    {
        match actor {
            ActorId::Server(server) => self.servers.stop(server, call),
            ActorId::Node(_) => self.stream_layer.stop(actor, call, keep),
            ActorId::Manager => self.stream_layer.stop(actor, call, keep),
            ActorId::Map => self.map.stop(call, keep),
            ActorId::User(_) => {}
        }
    }

    fn restart(&mut self, alloc: Global, actor: ActorId) -> Result<(), WorldFault>
        ensures ok { OnOk result (ClusterSimulates self.old self.new (events.Restart actor)) }
        ensures err { OnErr result (self.new ≡ self.old) }
    {
        match actor {
            ActorId::Server(server) => {
                self.servers.restart(alloc, server);
                Ok(())
            }
            ActorId::Node(_) => self.stream_layer.restart(alloc, actor),
            ActorId::Manager => self.stream_layer.restart(alloc, actor),
            ActorId::Map => self.map.restart(alloc),
            ActorId::User(_) => Ok(()),
        }
    }

    fn decide(&mut self, alloc: Global, extent: ExtentId) -> Result<Option<Refusal>, WorldFault>
        ensures refusal { IfOk result (λ refusal. refusal ≡ decision_refusal self.old.stream_layer.manager extent) }
        ensures ok { OnOk result (ClusterSimulates self.old self.new (events.Decide extent)) }
        ensures err { OnErr result (self.new ≡ self.old) }
    {
        self.stream_layer.decide(alloc, extent)
    }

    fn give_up(
        &mut self,
        alloc: Global,
        server: ServerNo,
        range: RangeId,
        pick: &Nodes,
    ) -> Result<Option<Refusal>, WorldFault>
        ensures refusal { IfOk result (λ refusal. refusal ≡ give_up_refusal range pick.now (entry_at self.old.servers server)) }
        ensures ok { OnOk result (ClusterSimulates self.old self.new (events.GiveUp server range pick.now)) }
        ensures err { OnErr result (self.new ≡ self.old) }
    {
        self.stream_layer
            .give_up(alloc, &mut self.servers, server, range, pick)
    }

    fn checkpoint(
        &mut self,
        alloc: Global,
        server: ServerNo,
        range: RangeId,
        combine: bool,
    ) -> Result<Option<Refusal>, WorldFault>
        ensures refusal { IfOk result (λ refusal. refusal ≡ checkpoint_refusal_at range (entry_at self.old.servers server)) }
        ensures ok { OnOk result (ClusterSimulates self.old self.new (events.Checkpoint server range combine)) }
        ensures err { OnErr result (self.new ≡ self.old) }
    {
        self.stream_layer
            .checkpoint(alloc, &mut self.servers, server, range, combine)
    }

    fn split(
        &mut self,
        alloc: Global,
        server: ServerNo,
        range: RangeId,
        key: &Bytes,
    ) -> Result<Option<Refusal>, WorldFault>
        ensures refusal { IfOk result (λ refusal. refusal ≡ split_refusal_at range key.now (entry_at self.old.servers server)) }
        ensures ok { OnOk result (ClusterSimulates self.old self.new (events.Split server range key.now)) }
        ensures err { OnErr result (self.new ≡ self.old) }
    {
        self.stream_layer
            .split(alloc, &mut self.servers, server, range, key)
    }

    fn merge(
        &mut self,
        alloc: Global,
        server: ServerNo,
        left: RangeId,
        right: RangeId,
    ) -> Result<Option<Refusal>, WorldFault>
        ensures refusal { IfOk result (λ refusal. refusal ≡ merge_refusal_at left right (entry_at self.old.servers server)) }
        ensures ok { OnOk result (ClusterSimulates self.old self.new (events.Merge server left right)) }
        ensures err { OnErr result (self.new ≡ self.old) }
    {
        self.stream_layer
            .merge(alloc, &mut self.servers, server, left, right)
    }

    fn assign(
        &mut self,
        alloc: Global,
        range: RangeId,
        server: ServerNo,
        until: u64,
    ) -> Result<Option<Refusal>, WorldFault>
        ensures refusal { IfOk result (λ refusal. refusal ≡ assign_refusal self.old.map self.old.moment range server) }
        ensures ok { OnOk result (ClusterSimulates self.old self.new (events.Assign range server until)) }
        ensures err { OnErr result (self.new ≡ self.old) }
    {
        self.stream_layer
            .assign(alloc, &mut self.map, range, server, until)
    }

    fn renew(
        &mut self,
        alloc: Global,
        range: RangeId,
        server: ServerNo,
        until: u64,
    ) -> Result<Option<Refusal>, WorldFault>
        ensures refusal { IfOk result (λ refusal. refusal ≡ renew_refusal self.old.map range server) }
        ensures ok { OnOk result (ClusterSimulates self.old self.new (events.Renew range server until)) }
        ensures err { OnErr result (self.new ≡ self.old) }
    {
        self.stream_layer
            .renew(alloc, &mut self.map, range, server, until)
    }

    fn show_moment(&mut self, moment: u64)
        ensures { ClusterSimulates self.old self.new (events.Moment moment) }
    {
        self.servers.moment(moment);
        self.map.moment(moment);
    }

    /// The next event. It answers why an event is refused: a decision 1 or 10, giving up and a renewal 30, a checkpoint 30, 38, 34
    /// or 35, a split 30, 38, 34, 35 or 39, a merge 30, 38, 34, 35, 40 or 37, and an assignment 30 or 31; nothing else is. An
    /// error is out of memory (22), and nothing has changed.
    pub(crate) fn step(
        &mut self,
        alloc: Global,
        event: &Event,
    ) -> Result<Option<Refusal>, WorldFault>
        ensures ok { OnOk result (ClusterSimulates self.old self.new event.now) }
        ensures err { OnErr result (self.new ≡ self.old) }
        ensures refusal { IfOk result (λ refusal. refusal ≡ refusal_of self.old event.now) }
    {
        match event {
            Event::Submit { user, to, body } => self.submit_copy(alloc, *user, *to, body),
            Event::Deliver { number } => self.deliver(alloc, *number),
            Event::Stop { actor, call, keep } => {
                self.stop(*actor, *call, *keep);
                Ok(None)
            }
            Event::Restart { actor } => {
                self.restart(alloc, *actor)?;
                Ok(None)
            }
            Event::Decide { extent } => self.decide(alloc, *extent),
            Event::GiveUp {
                server,
                range,
                pick,
            } => self.give_up(alloc, *server, *range, pick),
            Event::Assign {
                range,
                server,
                until,
            } => self.assign(alloc, *range, *server, *until),
            Event::Renew {
                range,
                server,
                until,
            } => self.renew(alloc, *range, *server, *until),
            Event::Moment { now } => {
                self.show_moment(*now);
                Ok(None)
            }
            Event::Checkpoint {
                server,
                range,
                combine,
            } => self.checkpoint(alloc, *server, *range, *combine),
            Event::Split { server, range, key } => self.split(alloc, *server, *range, key),
            Event::Merge {
                server,
                left,
                right,
            } => self.merge(alloc, *server, *left, *right),
        }
    }

    /// All packets that were sent, in order.
    pub(crate) fn sent(&self) -> &[Packet]
        ensures { result.now ≡ self.now.stream_layer.post }
    {
        self.stream_layer.sent()
    }

    /// All observations, in order.
    pub(crate) fn observations(&self) -> &[Note]
        ensures { result.now ≡ self.now.stream_layer.notes }
    {
        self.stream_layer.observations()
    }

    /// The node of a number, from 1; none where it is stopped, or there is none.
    pub(crate) fn node(&self, number: u8) -> Option<&Node<MemDisk>>
        ensures { option_map (λ node. seen_of node.now) result ≡ running_at self.now.stream_layer.nodes number }
    {
        self.stream_layer.node(number)
    }
}
