//! Steps of a node.
ghost use Rattle.std.specs.Prelude.{◌≡◌, [], None, IfOk, OnErr};
ghost use Rattle.model_streams.specs.StreamSystem.{node_takes};
ghost use Rattle.world_nodes.specs.Seen.{NodeSimulates};
ghost use Rattle.world_steps.specs.ActorStep.{IsFew};
ghost use Rattle.world_actors.specs.Steps.{Goes};

use crate::actor_input::ActorInput;
use crate::run_actor::RunActor;
use model_streams::Event;
use std::alloc::{AllocError, Global};
use wire::{Packet, Step};
use world_nodes::NodeActor;
use world_steps::ActorStep;

/// A node takes a packet.
fn give(node: &mut NodeActor, alloc: Global, packet: &Packet) -> Result<ActorStep, AllocError>
    ensures ok { IfOk result (λ step. NodeSimulates node.old node.new (λ w n. node_takes w n packet.now) step) }
    ensures plain { IfOk result (λ step. (step.tables ≡ []) × (step.refusal ≡ None)) }
    ensures err { OnErr result (node.new ≡ node.old) }
    ensures few { IfOk result IsFew }
{
    let mut step = Step::silent(alloc);
    match node.give(alloc, packet, &mut step) {
        Ok(()) => Ok(ActorStep::of_streams(alloc, step)),
        Err(full) => Err(full),
    }
}

/// A node takes an input; nothing comes of one that is not for nodes.
pub(crate) fn node_step(
    node: &mut NodeActor,
    alloc: Global,
    input: &ActorInput,
) -> Result<ActorStep, AllocError>
    ensures ok { IfOk result (λ step. Goes (RunActor.Node node.old) input.now (RunActor.Node node.new) step) }
    ensures err { OnErr result (node.new ≡ node.old) }
{
    match &input.event {
        Event::Deliver { .. } => match &input.packet {
            None => Ok(ActorStep::silent(alloc)),
            Some(packet) => give(node, alloc, packet),
        },
        Event::Stop { call, keep, .. } => {
            node.stop(*call, *keep);
            Ok(ActorStep::silent(alloc))
        }
        Event::Restart { .. } => match node.restart(alloc) {
            Ok(()) => Ok(ActorStep::silent(alloc)),
            Err(full) => Err(full),
        },
        _ => Ok(ActorStep::silent(alloc)),
    }
}
