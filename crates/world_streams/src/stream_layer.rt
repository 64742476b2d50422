//! The stream layer: real nodes and the real manager, the packets sent, and what was observed.
ghost use Rattle.std.specs.Prelude.{◌≡◌, ◌++◌, ◌+◌, ◌<◌, ◌≤◌, [], ◌∷◌, None, Some, IfOk, OnOk, OnErr, length, option_map, slice_get, vec_capacity, vec_len};
ghost use Rattle.wire.specs.declared.actor.ActorId.TheVariants as actors;
ghost use Rattle.wire.specs.declared.packet.Packet.{Packet};
ghost use Rattle.model_streams.specs.Maps.{entry_at};
ghost use Rattle.model_streams.specs.StreamSystem.{StreamSystem, happens, manager_takes, moved, delivered, restart, start};
ghost use Rattle.model_streams.specs.StreamSystem.Move.{Asks};
ghost use Rattle.model_streams.specs.declared.event.Event.TheVariants as events;
ghost use Rattle.model_streams.specs.Outcome.{packet};
ghost use Rattle.model_partition.specs.Servers.{checkpoint_refusal_at, give_up_refusal, merge_refusal_at, server_checkpoints, server_gives_up, server_merges, server_splits, server_takes, split_refusal_at};
ghost use Rattle.world_steps.specs.ActorStep.{IsFew, nothing, stream_step};
ghost use Rattle.world_nodes.specs.Seen.{seen_of};
ghost use Rattle.world_manager.specs.Seen.{ManagerMirrors, ManagerSimulates, decision_refusal};
ghost use Rattle.world_streams.specs.Nodes.{NodesMirror, running_at};
ghost use Rattle.world_streams.specs.StreamLayer.{StreamLayerMirrors, ActorsStep, refusal_of};
ghost use Rattle.world_streams.specs.ServersStep.{AfterMap, AfterServers};
ghost use Rattle.world_map.specs.Seen.{MapSimulates, assign_refusal, renew_refusal};
ghost use Rattle.model_partition.specs.Cluster.{assigns, map_takes, renews};

use crate::calls::is_call;
use crate::fault::WorldFault;
use crate::nodes::NodeList;
use crate::observations::Observations;
use crate::post::{make_room, move_in, move_over};
use crate::showing::{Given, give, show};
use block_types::Nodes;
use bytes::Bytes;
use disk::MemDisk;
use enode::Node;
use model_streams::Event;
use std::alloc::Global;
use std::marker::Model;
use wire::{ActorId, Body, ExtentId, Note, Packet, RangeId, Refusal, Rows, ServerNo, Step};
use world_copies::{is_request, request};
use world_manager::ManagerActor;
use world_map::MapActor;
use world_nodes::empty;
use world_servers::Servers;
use world_setup::Setup;
use world_steps::ActorStep;

/// Real extent nodes and the stream manager on disks in memory, all packets that were sent, numbered from 0, and all
/// observations. The packets stay, since each may be delivered any number of times. The lists that an actor's step fills are kept,
/// and empty between steps.
pub struct StreamLayer {
    nodes: NodeList,
    manager: ManagerActor,
    post: Vec<Packet>,
    notes: Observations,
    step: Step,
}

// Written out, so that a crate above that lets one go has no proof of what is in it.
impl Drop for StreamLayer {
    fn drop(self) {
        let StreamLayer {
            nodes: _,
            manager: _,
            post: _,
            notes: _,
            step: _,
        } = self;
    }
}

impl Model for StreamLayer {
    ghost use Rattle.std.specs.Prelude.{◌≡◌, []};
    ghost use Rattle.world_streams.specs.StreamLayer.{StreamLayerState};

    ghost Value = { StreamLayerState };

    ghost view = { λ run. record { nodes = run.nodes; manager = run.manager; post = run.post.items; notes = run.notes.items } };

    ghost invariant = { λ run. run.step ≡ record { packets = []; notes = [] } };
}

/// Gives a packet to the manager, and fills a step.
fn give_manager(
    manager: &mut ManagerActor,
    alloc: Global,
    packet: &Packet,
    step: &mut Step,
) -> Result<(), WorldFault>
    ensures ok { OnOk result (ManagerSimulates manager.old manager.new (λ w. manager_takes w packet.now) (stream_step step.new)) }
    ensures err { OnErr result (manager.new ≡ manager.old) }
    ensures few { OnOk result (IsFew (stream_step step.new)) }
{
    let given = manager.give(alloc, packet)?;
    let ActorStep { packets, notes, .. } = given;
    *step = Step { packets, notes };
    Ok(())
}

/// What the addressee does with a packet, which fills a step. Nothing comes of one to a stopped or absent actor, or to a user.
fn take(
    nodes: &mut NodeList,
    manager: &mut ManagerActor,
    alloc: Global,
    packet: &Packet,
    step: &mut Step,
) -> Result<(), WorldFault>
    requires { step.old ≡ record { packets = []; notes = [] } }
    ensures ok { OnOk result ((w : StreamSystem) → NodesMirror nodes.old w → ManagerMirrors manager.old w → ActorsStep nodes.new manager.new w (delivered w packet.now packet.now.to) (stream_step step.new)) }
    ensures nodes { OnErr result (nodes.new ≡ nodes.old) }
    ensures manager { OnErr result (manager.new ≡ manager.old) }
    ensures few { OnOk result (IsFew (stream_step step.new)) }
{
    match packet.to {
        ActorId::Node(number) => nodes.give(alloc, number, packet, step),
        ActorId::Manager => give_manager(manager, alloc, packet, step),
        ActorId::Map => Ok(()),
        ActorId::Server(_) => Ok(()),
        ActorId::User(_) => Ok(()),
    }
}

/// Moves what a step sends and shows to the end of what was sent and shown before, into room that is there. The step is empty
/// then, and keeps its room.
fn move_step(post: &mut Vec<Packet>, notes: &mut Observations, step: &mut Step)
    requires packets { vec_len post.old + length step.old.packets ≤ vec_capacity post.old }
    requires notes { vec_len notes.old + length step.old.notes ≤ vec_capacity notes.old }
    ensures sent { post.new.items ≡ post.old.items ++ step.old.packets }
    ensures shown { notes.new.items ≡ notes.old.items ++ step.old.notes }
    ensures emptied { step.new ≡ record { packets = []; notes = [] } }
{
    move_over(post, &mut step.packets.items);
    notes.move_over(&mut step.notes.items);
}

impl StreamLayer {
    /// The actors of this setup, with nothing on their disks, and nothing sent or observed. An error is out of memory
    /// (22).
    pub fn start(alloc: Global, setup: &Setup) -> Result<StreamLayer, WorldFault>
        ensures mirrors { IfOk result (λ run. StreamLayerMirrors run (start setup.now.nodes setup.now.target)) }
    {
        Ok(StreamLayer {
            nodes: NodeList::start(alloc, setup.nodes)?,
            manager: ManagerActor::start(alloc, setup.nodes, setup.target)?,
            post: Vec::new(alloc),
            notes: Observations::new(alloc),
            step: Step::silent(alloc),
        })
    }

    /// A user asks something, and nothing is observed of it. Nothing comes of a body that users may not ask. An error is out of
    /// memory (22), and nothing has changed.
    pub fn submit(
        &mut self,
        user: u64,
        to: ActorId,
        body: Body,
    ) -> Result<Option<Refusal>, WorldFault>
        ensures none { IfOk result (λ refusal. refusal ≡ None) }
        ensures ok { OnOk result ((w : StreamSystem) → StreamLayerMirrors self.old w → StreamLayerMirrors self.new (happens w (events.Submit user to body))) }
        ensures err { OnErr result (self.new ≡ self.old) }
        ensures same_notes { self.new.notes ≡ self.old.notes }
    {
        if !is_request(&body) {
            return Ok(None);
        }
        self.send(ActorId::User(user), to, body)?;
        Ok(None)
    }

    /// A user asks the same as this body, which shares its payload and stays. Nothing comes of a body that users may not ask. An
    /// error is out of memory (22), and nothing has changed.
    pub fn submit_copy(
        &mut self,
        alloc: Global,
        user: u64,
        to: ActorId,
        body: &Body,
    ) -> Result<Option<Refusal>, WorldFault>
        ensures none { IfOk result (λ refusal. refusal ≡ None) }
        ensures ok { OnOk result ((w : StreamSystem) → StreamLayerMirrors self.old w → StreamLayerMirrors self.new (happens w (events.Submit user to body.now))) }
        ensures err { OnErr result (self.new ≡ self.old) }
    {
        match request(alloc, body)? {
            None => Ok(None),
            Some(body) => {
                self.send(ActorId::User(user), to, body)?;
                Ok(None)
            }
        }
    }

    /// A server asks a node or the manager: an append, a check, a seal, a read, or a call for streams, under any generation.
    /// Nothing comes of another body. The packet is the next of those sent, and its answer is sent to the server. An error
    /// is out of memory (22), and nothing has changed.
    pub fn ask(&mut self, server: ServerNo, to: ActorId, body: Body) -> Result<(), WorldFault>
        ensures ok { OnOk result ((w : StreamSystem) → StreamLayerMirrors self.old w → StreamLayerMirrors self.new (moved w (Asks server to body))) }
        ensures err { OnErr result (self.new ≡ self.old) }
    {
        if !is_call(&body) {
            return Ok(());
        }
        self.send(ActorId::Server(server), to, body)
    }

    fn send(&mut self, from: ActorId, to: ActorId, body: Body) -> Result<(), WorldFault>
        ensures ok { OnOk result (self.new ≡ record self.old { post = self.old.post ++ packet from to body ∷ [] }) }
        ensures err { OnErr result (self.new ≡ self.old) }
        ensures same_notes { self.new.notes ≡ self.old.notes }
    {
        self.post.push(Packet { from, to, body })?;
        Ok(())
    }

    /// The packet of a number comes to its node, or to the manager; nothing comes of one to somebody else, or that was never
    /// sent. The room for what the step may give is made before an actor is called. An error is out of memory (22), and
    /// nothing has changed.
    pub fn deliver(&mut self, alloc: Global, number: usize) -> Result<Option<Refusal>, WorldFault>
        ensures none { IfOk result (λ refusal. refusal ≡ None) }
        ensures ok { OnOk result ((w : StreamSystem) → StreamLayerMirrors self.old w → StreamLayerMirrors self.new (happens w (events.Deliver number))) }
        ensures err { OnErr result (self.new ≡ self.old) }
    {
        if number >= self.post.len() {
            return Ok(None);
        }
        make_room(&mut self.post)?;
        self.notes.make_room()?;
        match take(
            &mut self.nodes,
            &mut self.manager,
            alloc,
            &self.post[number],
            &mut self.step,
        ) {
            Ok(()) => {
                move_step(&mut self.post, &mut self.notes, &mut self.step);
                Ok(None)
            }
            Err(fault) => {
                empty(&mut self.step);
                Err(fault)
            }
        }
    }

    /// A node or the manager stops, at once or in a device call.
    pub fn stop(&mut self, actor: ActorId, call: u64, keep: bool)
        ensures { (w : StreamSystem) → StreamLayerMirrors self.old w → StreamLayerMirrors self.new (happens w (events.Stop actor call keep)) }
    {
        match actor {
            ActorId::Node(number) => self.nodes.stop(number, call, keep),
            ActorId::Manager => self.manager.stop(call, keep),
            ActorId::Map => {}
            ActorId::Server(_) => {}
            ActorId::User(_) => {}
        }
    }

    /// A node or the manager comes back with nothing but its records. An error is out of memory (22), and nothing has changed.
    pub fn restart(&mut self, alloc: Global, actor: ActorId) -> Result<(), WorldFault>
        ensures ok { OnOk result ((w : StreamSystem) → StreamLayerMirrors self.old w → StreamLayerMirrors self.new (happens w (events.Restart actor))) }
        ensures err { OnErr result (self.new ≡ self.old) }
    {
        match actor {
            ActorId::Node(number) => self.nodes.restart(alloc, number),
            ActorId::Manager => self.manager.restart(alloc),
            ActorId::Map => Ok(()),
            ActorId::Server(_) => Ok(()),
            ActorId::User(_) => Ok(()),
        }
    }

    /// The manager seals an extent. It answers why it does not: there is no such extent (1), or no place has answered with its
    /// length (10). An error is out of memory (22), and nothing has changed.
    pub fn decide(&mut self, alloc: Global, extent: ExtentId) -> Result<Option<Refusal>, WorldFault>
        ensures refusal { IfOk result (λ refusal. refusal ≡ decision_refusal self.old.manager extent) }
        ensures ok { OnOk result ((w : StreamSystem) → StreamLayerMirrors self.old w → StreamLayerMirrors self.new (happens w (events.Decide extent))) }
        ensures err { OnErr result (self.new ≡ self.old) }
    {
        make_room(&mut self.post)?;
        self.notes.make_room()?;
        let step = self.manager.decide(alloc, extent)?;
        let ActorStep {
            packets: sent,
            notes: shown,
            refusal,
            ..
        } = step;
        move_in(&mut self.post, sent.into_vec());
        self.notes.move_in(shown.into_vec());
        Ok(refusal)
    }

    /// The next event. It answers why an event is refused: a decision 1 or 10, and nothing else is. An error is out of memory
    /// (22), and nothing has changed.
    pub fn step(&mut self, alloc: Global, event: &Event) -> Result<Option<Refusal>, WorldFault>
        ensures ok { OnOk result ((w : StreamSystem) → StreamLayerMirrors self.old w → StreamLayerMirrors self.new (happens w event.now)) }
        ensures err { OnErr result (self.new ≡ self.old) }
        ensures refusal { IfOk result (λ refusal. refusal ≡ refusal_of self.old event.now) }
    {
        match event {
            Event::Submit { user, to, body } => self.submit_copy(alloc, *user, *to, body),
            Event::Deliver { number } => self.deliver(alloc, *number),
            Event::Stop { actor, call, keep } => {
                self.stop(*actor, *call, *keep);
                Ok(None)
            }
            Event::Restart { actor } => {
                self.restart(alloc, *actor)?;
                Ok(None)
            }
            Event::Decide { extent } => self.decide(alloc, *extent),
            Event::GiveUp { .. } => Ok(None),
            Event::Assign { .. } => Ok(None),
            Event::Renew { .. } => Ok(None),
            Event::Moment { .. } => Ok(None),
            Event::Checkpoint { .. } => Ok(None),
            Event::Split { .. } => Ok(None),
            Event::Merge { .. } => Ok(None),
        }
    }

    /// The map takes the packet of this number. The room for what it sends and shows is made before it makes its step. An error
    /// is out of memory (22), and nothing has changed.
    pub fn route(
        &mut self,
        alloc: Global,
        map: &mut MapActor,
        number: usize,
    ) -> Result<(), WorldFault>
        requires { number < length self.old.post }
        ensures ok { OnOk result ((p : Packet) → slice_get self.old.post number ≡ Some p →
            AfterMap self.old self.new (MapSimulates map.old map.new (λ c. map_takes c p))) }
        ensures err { OnErr result (self.new ≡ self.old) }
        ensures map_err { OnErr result (map.new ≡ map.old) }
        ensures moment { map.new.moment ≡ map.old.moment }
    {
        make_room(&mut self.post)?;
        self.notes.make_room()?;
        let step = map.give(alloc, &self.post[number])?;
        let ActorStep {
            packets: told,
            notes: observed,
            ..
        } = step;
        move_in(&mut self.post, told.into_vec());
        self.notes.move_in(observed.into_vec());
        Ok(())
    }

    /// The map assigns a range. It answers why it does not: the range is unknown (30), or another server holds it at this moment
    /// (31). An error is out of memory (22), and nothing has changed.
    pub fn assign(
        &mut self,
        alloc: Global,
        map: &mut MapActor,
        range: RangeId,
        server: ServerNo,
        until: u64,
    ) -> Result<Option<Refusal>, WorldFault>
        ensures ok { OnOk result (AfterMap self.old self.new (MapSimulates map.old map.new (λ c. assigns c range server until))) }
        ensures refusal { IfOk result (λ refusal. refusal ≡ assign_refusal map.old map.old.moment range server) }
        ensures err { OnErr result (self.new ≡ self.old) }
        ensures map_err { OnErr result (map.new ≡ map.old) }
        ensures moment { map.new.moment ≡ map.old.moment }
    {
        make_room(&mut self.post)?;
        let step = map.assign(alloc, range, server, until)?;
        let ActorStep {
            packets,
            refusal,
            ..
        } = step;
        move_in(&mut self.post, packets.into_vec());
        Ok(refusal)
    }

    /// The map renews the lease of a range. It answers why it does not: the server does not hold the range (30). An error is out
    /// of memory (22), and nothing has changed.
    pub fn renew(
        &mut self,
        alloc: Global,
        map: &mut MapActor,
        range: RangeId,
        server: ServerNo,
        until: u64,
    ) -> Result<Option<Refusal>, WorldFault>
        ensures ok { OnOk result (AfterMap self.old self.new (MapSimulates map.old map.new (λ c. renews c range server until))) }
        ensures refusal { IfOk result (λ refusal. refusal ≡ renew_refusal map.old range server) }
        ensures err { OnErr result (self.new ≡ self.old) }
        ensures map_err { OnErr result (map.new ≡ map.old) }
        ensures moment { map.new.moment ≡ map.old.moment }
    {
        make_room(&mut self.post)?;
        let step = map.renew(alloc, range, server, until)?;
        let ActorStep {
            packets,
            refusal,
            ..
        } = step;
        move_in(&mut self.post, packets.into_vec());
        Ok(refusal)
    }

    /// A server takes the packet of this number. The room for what it sends and shows, and the rows of a table that it shows,
    /// are made before it makes its step. An error is out of memory (22), and nothing has changed.
    pub fn give(
        &mut self,
        alloc: Global,
        servers: &mut Servers,
        server: ServerNo,
        number: usize,
    ) -> Result<(), WorldFault>
        requires { number < length self.old.post }
        ensures ok { OnOk result ((p : Packet) → slice_get self.old.post number ≡ Some p → AfterServers self.old self.new servers.new.cells (server_takes servers.old.cells server p)) }
        ensures err { OnErr result (self.new ≡ self.old) }
        ensures servers_err { OnErr result (servers.new ≡ servers.old) }
        ensures servers_same { (servers.new.moment ≡ servers.old.moment) × (servers.new.batch ≡ servers.old.batch) }
    {
        make_room(&mut self.post)?;
        self.notes.make_room()?;
        let taken = give(servers, alloc, server, &self.post[number], &mut self.notes)?;
        let Given { step, rows } = taken;
        let ActorStep {
            packets: given,
            tables: shown,
            ..
        } = step;
        move_in(&mut self.post, given.into_vec());
        show(alloc, &mut self.notes, shown, rows);
        Ok(())
    }

    /// A server gives up on what a range waits for. It answers why it does not: it does not hold the range (30). An error is
    /// out of memory (22), and nothing has changed.
    pub fn give_up(
        &mut self,
        alloc: Global,
        servers: &mut Servers,
        server: ServerNo,
        range: RangeId,
        pick: &Nodes,
    ) -> Result<Option<Refusal>, WorldFault>
        ensures ok { OnOk result (AfterServers self.old self.new servers.new.cells (server_gives_up servers.old.cells server range pick.now)) }
        ensures refusal { IfOk result (λ refusal. refusal ≡ give_up_refusal range pick.now (entry_at servers.old.cells server)) }
        ensures err { OnErr result (self.new ≡ self.old) }
        ensures servers_err { OnErr result (servers.new ≡ servers.old) }
        ensures servers_same { (servers.new.moment ≡ servers.old.moment) × (servers.new.batch ≡ servers.old.batch) }
    {
        make_room(&mut self.post)?;
        self.notes.make_room()?;
        let step = servers.give_up(alloc, server, range, pick)?;
        let ActorStep {
            packets: again,
            tables: told,
            refusal,
            ..
        } = step;
        move_in(&mut self.post, again.into_vec());
        show(
            alloc,
            &mut self.notes,
            told,
            Rows {
                items: Vec::new(alloc),
            },
        );
        Ok(refusal)
    }

    /// A server begins a checkpoint of a range, which combines the range's indexes where that is asked. It answers why it does not:
    /// it does not hold the range (30), the range is not served yet (38) or is paused (34), or a checkpoint, a split or a merge of
    /// it is under way (35). An error is out of memory (22), and nothing has changed.
    pub fn checkpoint(
        &mut self,
        alloc: Global,
        servers: &mut Servers,
        server: ServerNo,
        range: RangeId,
        combine: bool,
    ) -> Result<Option<Refusal>, WorldFault>
        ensures ok { OnOk result (AfterServers self.old self.new servers.new.cells (server_checkpoints servers.old.cells server range combine)) }
        ensures refusal { IfOk result (λ refusal. refusal ≡ checkpoint_refusal_at range (entry_at servers.old.cells server)) }
        ensures err { OnErr result (self.new ≡ self.old) }
        ensures servers_err { OnErr result (servers.new ≡ servers.old) }
        ensures servers_same { (servers.new.moment ≡ servers.old.moment) × (servers.new.batch ≡ servers.old.batch) }
    {
        make_room(&mut self.post)?;
        self.notes.make_room()?;
        let step = servers.checkpoint(alloc, server, range, combine)?;
        let ActorStep {
            packets: asked,
            tables: told,
            refusal,
            ..
        } = step;
        move_in(&mut self.post, asked.into_vec());
        show(
            alloc,
            &mut self.notes,
            told,
            Rows {
                items: Vec::new(alloc),
            },
        );
        Ok(refusal)
    }

    /// A server begins a split of a range at a key. It answers why it does not: it does not hold the range (30), the range is not
    /// served yet (38) or is paused (34), a checkpoint, a split or a merge of it is under way (35), or the key does not split its
    /// keys (39). An error is out of memory (22), and nothing has changed.
    pub fn split(
        &mut self,
        alloc: Global,
        servers: &mut Servers,
        server: ServerNo,
        range: RangeId,
        key: &Bytes,
    ) -> Result<Option<Refusal>, WorldFault>
        ensures ok { OnOk result (AfterServers self.old self.new servers.new.cells (server_splits servers.old.cells server range key.now)) }
        ensures refusal { IfOk result (λ refusal. refusal ≡ split_refusal_at range key.now (entry_at servers.old.cells server)) }
        ensures err { OnErr result (self.new ≡ self.old) }
        ensures servers_err { OnErr result (servers.new ≡ servers.old) }
        ensures servers_same { (servers.new.moment ≡ servers.old.moment) × (servers.new.batch ≡ servers.old.batch) }
    {
        make_room(&mut self.post)?;
        self.notes.make_room()?;
        let step = servers.split(alloc, server, range, key)?;
        let ActorStep {
            packets: begun,
            tables: told,
            refusal,
            ..
        } = step;
        move_in(&mut self.post, begun.into_vec());
        show(
            alloc,
            &mut self.notes,
            told,
            Rows {
                items: Vec::new(alloc),
            },
        );
        Ok(refusal)
    }

    /// A server begins a merge of two ranges. It answers why it does not: it does not hold both (30), one is not served yet (38) or
    /// is paused (34), a checkpoint, a split or a merge of one is under way (35), the left one does not end where the right one
    /// begins (40), or they have too many indexes together (37). An error is out of memory (22), and nothing has changed.
    pub fn merge(
        &mut self,
        alloc: Global,
        servers: &mut Servers,
        server: ServerNo,
        left: RangeId,
        right: RangeId,
    ) -> Result<Option<Refusal>, WorldFault>
        ensures ok { OnOk result (AfterServers self.old self.new servers.new.cells (server_merges servers.old.cells server left right)) }
        ensures refusal { IfOk result (λ refusal. refusal ≡ merge_refusal_at left right (entry_at servers.old.cells server)) }
        ensures err { OnErr result (self.new ≡ self.old) }
        ensures servers_err { OnErr result (servers.new ≡ servers.old) }
        ensures servers_same { (servers.new.moment ≡ servers.old.moment) × (servers.new.batch ≡ servers.old.batch) }
    {
        make_room(&mut self.post)?;
        self.notes.make_room()?;
        let step = servers.merge(alloc, server, left, right)?;
        let ActorStep {
            packets: joined,
            tables: told,
            refusal,
            ..
        } = step;
        move_in(&mut self.post, joined.into_vec());
        show(
            alloc,
            &mut self.notes,
            told,
            Rows {
                items: Vec::new(alloc),
            },
        );
        Ok(refusal)
    }

    /// All packets that were sent, in order: their places, from 0, are their numbers.
    pub fn sent(&self) -> &[Packet]
        ensures { result.now ≡ self.now.post }
    {
        self.post.as_slice()
    }

    /// All observations, in order.
    pub fn observations(&self) -> &[Note]
        ensures { result.now ≡ self.now.notes }
    {
        self.notes.as_slice()
    }

    /// The node of a number, from 1; none where it is stopped, or there is none.
    pub fn node(&self, number: u8) -> Option<&Node<MemDisk>>
        ensures { option_map (λ node. seen_of node.now) result ≡ running_at self.now.nodes number }
    {
        self.nodes.node(number)
    }
}
