//! Actors before any event.
ghost use Rattle.std.specs.Prelude.{◌≡◌, ◌<◌, IfOk};
ghost use Rattle.world_actors.specs.Actors.{first_of};
ghost use Rattle.world_actors.specs.Numbers.{count_of, numbers_of};

use crate::run_actor::RunActor;
use std::alloc::{AllocError, Global};
use wire::ServerNo;
use world_manager::ManagerActor;
use world_map::MapActor;
use world_nodes::NodeActor;
use world_server::ServerActor;
use world_setup::Setup;

/// The actor of a number before any event, which runs, with nothing on its disk but what it puts there itself. An error is out of
/// memory (22).
pub fn first(alloc: Global, setup: &Setup, number: usize) -> Result<RunActor, AllocError>
    requires { number < count_of (numbers_of setup.now) }
    ensures { IfOk result (λ actor. actor ≡ first_of (numbers_of setup.now) number) }
{
    let nodes = usize::from(setup.nodes);
    if number < nodes {
        Ok(RunActor::Node(NodeActor::start(alloc, number as u8 + 1)?))
    } else if number == nodes {
        Ok(RunActor::Manager(ManagerActor::start(alloc, setup.nodes, setup.target)?))
    } else if number == nodes + 1 {
        Ok(RunActor::Map(MapActor::start(alloc)?))
    } else {
        let server = ServerNo((number - (nodes + 1)) as u8);
        Ok(RunActor::Server(ServerActor::start(alloc, server, setup.batch)))
    }
}
