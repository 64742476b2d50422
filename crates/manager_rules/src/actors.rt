//! Who sends a packet.
ghost use Rattle.std.specs.Prelude.{◌≡◌};
ghost use Rattle.model_streams.specs.Actors.{is_user, generation_of};
ghost use Rattle.model_streams.specs.Manager.{is_foreign};

use wire::{ActorId, Fence, RangeId};

pub(crate) fn is_user(actor: ActorId) -> bool
    ensures { result ≡ is_user actor }
{
    match actor {
        ActorId::Node(_) => false,
        ActorId::Manager => false,
        ActorId::Map => false,
        ActorId::Server(_) => false,
        ActorId::User(_) => true,
    }
}

/// The generation that somebody's calls count with: 0 for a user.
pub(crate) fn generation_of(actor: ActorId, generation: Fence) -> Fence
    ensures { result ≡ generation_of actor generation }
{
    match actor {
        ActorId::Node(_) => generation,
        ActorId::Manager => generation,
        ActorId::Map => generation,
        ActorId::Server(_) => generation,
        ActorId::User(_) => Fence(0),
    }
}

/// Whether somebody has no streams in a range: users have those of range 0 alone.
pub(crate) fn is_foreign(actor: ActorId, range: RangeId) -> bool
    ensures { result ≡ is_foreign actor range }
{
    is_user(actor) && range.0 != 0
}
