//! Steps of the map.
ghost use Rattle.std.specs.Prelude.{◌≡◌, IfOk, OnErr};
ghost use Rattle.world_actors.specs.Steps.{Goes};

use crate::actor_input::ActorInput;
use crate::run_actor::RunActor;
use model_streams::Event;
use std::alloc::{AllocError, Global};
use world_map::MapActor;
use world_steps::ActorStep;

/// The map takes an input; nothing comes of one that is not for it.
pub(crate) fn map_step(
    map: &mut MapActor,
    alloc: Global,
    input: &ActorInput,
) -> Result<ActorStep, AllocError>
    ensures ok { IfOk result (λ step. Goes (RunActor.Map map.old) input.now (RunActor.Map map.new) step) }
    ensures err { OnErr result (map.new ≡ map.old) }
{
    match &input.event {
        Event::Deliver { .. } => match &input.packet {
            None => Ok(ActorStep::silent(alloc)),
            Some(packet) => map.give(alloc, packet),
        },
        Event::Stop { call, keep, .. } => {
            map.stop(*call, *keep);
            Ok(ActorStep::silent(alloc))
        }
        Event::Restart { .. } => match map.restart(alloc) {
            Ok(()) => Ok(ActorStep::silent(alloc)),
            Err(full) => Err(full),
        },
        Event::Assign {
            range,
            server,
            until,
        } => map.assign(alloc, *range, *server, *until),
        Event::Renew {
            range,
            server,
            until,
        } => map.renew(alloc, *range, *server, *until),
        Event::Moment { now } => {
            map.moment(*now);
            Ok(ActorStep::silent(alloc))
        }
        _ => Ok(ActorStep::silent(alloc)),
    }
}
