//! Steps of the manager.
ghost use Rattle.std.specs.Prelude.{◌≡◌, IfOk, OnErr};
ghost use Rattle.world_actors.specs.Steps.{Goes};

use crate::actor_input::ActorInput;
use crate::run_actor::RunActor;
use model_streams::Event;
use std::alloc::{AllocError, Global};
use world_manager::ManagerActor;
use world_steps::ActorStep;

/// The manager takes an input; nothing comes of one that is not for it.
pub(crate) fn manager_step(
    manager: &mut ManagerActor,
    alloc: Global,
    input: &ActorInput,
) -> Result<ActorStep, AllocError>
    ensures ok { IfOk result (λ step. Goes (RunActor.Manager manager.old) input.now (RunActor.Manager manager.new) step) }
    ensures err { OnErr result (manager.new ≡ manager.old) }
{
    match &input.event {
        Event::Deliver { .. } => match &input.packet {
            None => Ok(ActorStep::silent(alloc)),
            Some(packet) => manager.give(alloc, packet),
        },
        Event::Stop { call, keep, .. } => {
            manager.stop(*call, *keep);
            Ok(ActorStep::silent(alloc))
        }
        Event::Restart { .. } => match manager.restart(alloc) {
            Ok(()) => Ok(ActorStep::silent(alloc)),
            Err(full) => Err(full),
        },
        Event::Decide { extent } => manager.decide(alloc, *extent),
        _ => Ok(ActorStep::silent(alloc)),
    }
}
