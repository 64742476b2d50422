//! Steps of a server.
ghost use Rattle.std.specs.Prelude.{◌≡◌, IfOk, OnErr};
ghost use Rattle.world_actors.specs.Steps.{Goes};

use crate::actor_input::ActorInput;
use crate::run_actor::RunActor;
use model_streams::Event;
use std::alloc::{AllocError, Global};
use world_server::ServerActor;
use world_steps::ActorStep;

/// A server takes an input; nothing comes of one that is not for servers.
pub(crate) fn server_step(
    server: &mut ServerActor,
    alloc: Global,
    input: &ActorInput,
) -> Result<ActorStep, AllocError>
    ensures ok { IfOk result (λ step. Goes (RunActor.Server server.old) input.now (RunActor.Server server.new) step) }
    ensures err { OnErr result (server.new ≡ server.old) }
{
    match &input.event {
        Event::Deliver { .. } => match &input.packet {
            None => Ok(ActorStep::silent(alloc)),
            Some(packet) => server.give(alloc, packet),
        },
        Event::Stop { call, .. } => {
            server.stop(*call);
            Ok(ActorStep::silent(alloc))
        }
        Event::Restart { .. } => {
            server.restart(alloc);
            Ok(ActorStep::silent(alloc))
        }
        Event::GiveUp { range, pick, .. } => server.give_up(alloc, *range, pick),
        Event::Checkpoint { range, combine, .. } => server.checkpoint(alloc, *range, *combine),
        Event::Split { range, key, .. } => server.split(alloc, *range, key),
        Event::Merge { left, right, .. } => server.merge(alloc, *left, *right),
        Event::Moment { now } => {
            server.moment(*now);
            Ok(ActorStep::silent(alloc))
        }
        _ => Ok(ActorStep::silent(alloc)),
    }
}
