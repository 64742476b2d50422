//! An actor of any kind.
ghost use Rattle.std.specs.Prelude.{◌≡◌, option_map};
ghost use Rattle.world_nodes.specs.Seen.{seen_of};
ghost use Rattle.world_actors.specs.Actors.{is_stopped, running_node, ticked};

use crate::actor_input::ActorInput;
use crate::manager_steps::manager_step;
use crate::map_steps::map_step;
use crate::node_steps::node_step;
use crate::server_steps::server_step;
use disk::MemDisk;
use enode::Node;
use model_streams::Event;
use stamp_traces::{Actor, Timed, TraceFault};
use std::alloc::Global;
use world_manager::ManagerActor;
use world_map::MapActor;
use world_nodes::NodeActor;
use world_server::ServerActor;
use world_steps::ActorStep;

/// An actor of a run.
pub enum RunActor {
    Node(NodeActor),
    Manager(ManagerActor),
    Map(MapActor),
    Server(ServerActor),
}

// Written out, so that a crate above that lets one go has no proof of what is in it.
impl Drop for RunActor {
    fn drop(self) {
        match self {
            RunActor::Node(_) => {}
            RunActor::Manager(_) => {}
            RunActor::Map(_) => {}
            RunActor::Server(_) => {}
        }
    }
}

impl Actor<ActorInput, ActorStep> for RunActor {
    ghost use Rattle.world_actors.specs.Actors.{first_of};
    ghost use Rattle.world_actors.specs.Steps.{Goes};

    ghost first = { first_of };

    ghost goes = { Goes };

    fn step(&mut self, alloc: Global, event: &ActorInput) -> Result<ActorStep, TraceFault> {
        match self {
            RunActor::Node(node) => match node_step(node, alloc, event) {
                Ok(step) => Ok(step),
                Err(_full) => Err(TraceFault::Memory),
            },
            RunActor::Manager(manager) => match manager_step(manager, alloc, event) {
                Ok(step) => Ok(step),
                Err(_full) => Err(TraceFault::Memory),
            },
            RunActor::Map(map) => match map_step(map, alloc, event) {
                Ok(step) => Ok(step),
                Err(_full) => Err(TraceFault::Memory),
            },
            RunActor::Server(server) => match server_step(server, alloc, event) {
                Ok(step) => Ok(step),
                Err(_full) => Err(TraceFault::Memory),
            },
        }
    }
}

impl RunActor {
    /// The clock of leases shows this. A moment that goes back changes nothing, and nodes and the manager do not look at it.
    pub fn show(&mut self, now: u64)
        ensures { self.new ≡ ticked now self.old }
    {
        match self {
            RunActor::Node(_) => {}
            RunActor::Manager(_) => {}
            RunActor::Map(map) => map.moment(now),
            RunActor::Server(server) => server.moment(now),
        }
    }

    /// Whether it has stopped. Then nothing comes of an event but a restart and a moment.
    pub fn is_stopped(&self) -> bool
        ensures { result ≡ is_stopped self.now }
    {
        match self {
            RunActor::Node(node) => node.is_stopped(),
            RunActor::Manager(manager) => manager.is_stopped(),
            RunActor::Map(map) => map.is_stopped(),
            RunActor::Server(server) => server.is_stopped(),
        }
    }

    /// The node itself, to look at; none where it has stopped, and where this is no node.
    pub fn node(&self) -> Option<&Node<MemDisk>>
        ensures { option_map (λ node. seen_of node.now) result ≡ running_node self.now }
    {
        match self {
            RunActor::Node(node) => node.node(),
            RunActor::Manager(_) => None,
            RunActor::Map(_) => None,
            RunActor::Server(_) => None,
        }
    }
}

impl Timed<ActorInput, ActorStep> for RunActor {
    ghost use Rattle.std.specs.Prelude.{◌≡◌, true};
    ghost use Rattle.world_actors.specs.Inputs.{is_moment};
    ghost use Rattle.world_steps.specs.ActorStep.{nothing};

    ghost is_moment = { λ d. is_moment d.event ≡ true };

    ghost quiet = { nothing };

    fn tick(&mut self, event: &ActorInput) {
        match &event.event {
            Event::Moment { now } => self.show(*now),
            _ => unreachable!(),
        }
    }
}
