//! The numbers of the actors of a setup.
ghost use Rattle.std.specs.Prelude.{◌≡◌, ◌<◌, IfSome};
ghost use Rattle.world_actors.specs.Actors.{actor_at};
ghost use Rattle.world_actors.specs.Numbers.{count_of, numbers_of, place_in};

use wire::{ActorId, ServerNo};
use world_setup::Setup;

/// How many actors there are: the nodes, the manager, the map and the servers; at most 18.
pub fn count(setup: &Setup) -> usize
    ensures count { result ≡ count_of (numbers_of setup.now) }
    ensures few { result < 19 }
{
    usize::from(setup.nodes) + 2 + usize::from(setup.servers)
}

/// The number of an actor, from 0 on: nodes first, then the manager, the map and the servers; none of one that is not there, and none
/// of a user.
pub fn place_of(setup: &Setup, actor: ActorId) -> Option<usize>
    ensures place { result ≡ place_in (numbers_of setup.now) actor }
    ensures within { IfSome result (λ number. number < count_of (numbers_of setup.now)) }
{
    let nodes = usize::from(setup.nodes);
    match actor {
        ActorId::Node(node) => {
            if 0 < node && node <= setup.nodes {
                Some(usize::from(node) - 1)
            } else {
                None
            }
        }
        ActorId::Manager => Some(nodes),
        ActorId::Map => Some(nodes + 1),
        ActorId::Server(server) => {
            if 0 < server.0 && server.0 <= setup.servers {
                Some(nodes + 1 + usize::from(server.0))
            } else {
                None
            }
        }
        ActorId::User(_) => None,
    }
}

/// The actor of a number.
pub fn actor_of(setup: &Setup, number: usize) -> ActorId
    requires { number < count_of (numbers_of setup.now) }
    ensures { result ≡ actor_at (numbers_of setup.now) number }
{
    let nodes = usize::from(setup.nodes);
    if number < nodes {
        ActorId::Node(number as u8 + 1)
    } else if number == nodes {
        ActorId::Manager
    } else if number == nodes + 1 {
        ActorId::Map
    } else {
        ActorId::Server(ServerNo((number - (nodes + 1)) as u8))
    }
}
