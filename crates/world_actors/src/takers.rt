//! Who takes an event.
ghost use Rattle.std.specs.Prelude.{◌≡◌, ◌+◌, ◌<◌, ◌^◌, IfSome};
ghost use Rattle.world_actors.specs.Inputs.{is_moment, one_at, place_if, taker_of, takers_in};
ghost use Rattle.world_actors.specs.Numbers.{numbers_of};

use crate::actor_input::ActorInput;
use crate::numbers::{count, place_of};
use model_streams::Event;
use stamp_traces::Takers;
use wire::{ActorId, Packet};
use world_setup::Setup;

fn is_moment(event: &Event) -> bool
    ensures { result ≡ is_moment event.now }
{
    matches!(event, Event::Moment { .. })
}

/// Who alone takes an event, with the packet that it delivers; nobody what is only told, and several a moment.
fn taker(event: &Event, packet: &Option<Packet>) -> Option<ActorId>
    ensures { result ≡ taker_of event.now packet.now }
{
    match event {
        Event::Submit { .. } => None,
        Event::Deliver { .. } => match packet {
            None => None,
            Some(packet) => Some(packet.to),
        },
        Event::Stop { actor, .. } => Some(*actor),
        Event::Restart { actor } => Some(*actor),
        Event::Decide { .. } => Some(ActorId::Manager),
        Event::GiveUp { server, .. } => Some(ActorId::Server(*server)),
        Event::Assign { .. } => Some(ActorId::Map),
        Event::Renew { .. } => Some(ActorId::Map),
        Event::Moment { .. } => None,
        Event::Checkpoint { server, .. } => Some(ActorId::Server(*server)),
        Event::Split { server, .. } => Some(ActorId::Server(*server)),
        Event::Merge { server, .. } => Some(ActorId::Server(*server)),
    }
}

/// The actor of a number alone.
fn one(number: Option<usize>) -> Takers
    requires { IfSome number (λ n. n + 1 < 2 ^ 64) }
    ensures { result ≡ one_at number }
{
    match number {
        None => Takers::nobody(),
        Some(number) => Takers::one(number),
    }
}

fn place_if(setup: &Setup, actor: Option<ActorId>) -> Option<usize>
    ensures place { result ≡ place_if (numbers_of setup.now) actor }
    ensures within { IfSome result (λ number. number + 1 < 2 ^ 64) }
{
    match actor {
        None => None,
        Some(actor) => place_of(setup, actor),
    }
}

/// Who takes an input: the map and all servers a moment; else the actor that it is for, and nobody where that is not there. Nobody
/// takes what a user submits, and a packet that is for a user or was never sent.
pub fn takers_of(setup: &Setup, input: &ActorInput) -> Takers
    ensures { result ≡ takers_in (numbers_of setup.now) input.now }
{
    if is_moment(&input.event) {
        Takers {
            first: usize::from(setup.nodes) + 1,
            end: count(setup),
        }
    } else {
        one(place_if(setup, taker(&input.event, &input.packet)))
    }
}
