//! Who sends a packet.
ghost use Rattle.std.specs.Prelude.{◌≡◌};
ghost use Rattle.model_streams.specs.Actors.{generation_of, is_manager as is_the_manager, is_node as is_the_node, is_one_of};

use block_types::Nodes;
use wire::{ActorId, Fence, Packet};

/// Whether an actor is this node.
pub(crate) fn is_node(number: u8, actor: ActorId) -> bool
    ensures { result ≡ is_the_node number actor }
{
    actor == ActorId::Node(number)
}

/// Whether an actor is the stream manager.
pub fn is_manager(actor: ActorId) -> bool
    ensures { result ≡ is_the_manager actor }
{
    actor == ActorId::Manager
}

/// Whether a packet comes from one of an extent's places.
pub(crate) fn is_from_place(places: Nodes, packet: &Packet) -> bool
    ensures { result ≡ is_one_of places packet.now.from }
{
    if is_node(places.primary, packet.from) {
        return true;
    }
    if is_node(places.second, packet.from) {
        return true;
    }
    is_node(places.third, packet.from)
}

/// The generation that a packet counts with: a user's is 0.
pub(crate) fn generation_of(from: ActorId, generation: Fence) -> u64
    ensures { result ≡ generation_of from generation }
{
    match from {
        ActorId::User(_) => 0,
        _ => generation.0,
    }
}
