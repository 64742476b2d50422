//! How a request is put into the trace.
ghost use Rattle.std.specs.Prelude.{◌≡◌, ℕ, Option};
ghost use Rattle.world_actors.specs.Inputs.{one_at};
ghost use Rattle.world_actors.specs.Numbers.{numbers_of};
ghost use Rattle.stamp.specs.Handling.{IsHandledAs, IsTakenAs, moment_of, placed_at, told};

use model_streams::Event;
use stamp_answers::Ticket;
use stamp_traces::Takers;
use world_actors::{ActorInput, takers_of};
use world_setup::Setup;

/// How a request is put into the trace: as a moment of the map and all servers, as an event of one actor, by its number, or as one
/// that no actor takes.
pub(crate) enum Handling {
    Moment(u64),
    Nobody,
    One(usize),
}

/// An event as an actor takes it that is not a delivery.
pub(crate) fn told(event: Event) -> ActorInput
    ensures { result ≡ told event }
{
    ActorInput {
        event,
        packet: None,
    }
}

/// The moment that the clock shows, if the event is one.
fn moment_of(event: &Event) -> Option<u64>
    ensures { result ≡ moment_of event.now }
{
    match event {
        Event::Moment { now } => Some(*now),
        _ => None,
    }
}

/// How an event is put into the trace that one actor takes, or nobody.
fn by_takers(takers: Takers) -> Handling
    requires { (o : Option ℕ) × (takers ≡ one_at o) }
    ensures { IsTakenAs takers result }
{
    if takers.first < takers.end {
        Handling::One(takers.first)
    } else {
        Handling::Nobody
    }
}

/// How a request is put into the trace.
pub(crate) fn handling_of(setup: &Setup, request: &ActorInput) -> Handling
    requires { request.now ≡ told request.now.event }
    ensures { IsHandledAs (numbers_of setup.now) request.now.event result }
{
    match moment_of(&request.event) {
        Some(now) => Handling::Moment(now),
        None => by_takers(takers_of(setup, request)),
    }
}

/// The ticket of an event that stands at this place of the trace.
pub(crate) fn placed(ticket: Ticket, place: usize) -> Ticket
    ensures { result ≡ placed_at place ticket }
{
    match ticket {
        Ticket::Event { .. } => Ticket::Event { place },
        Ticket::Request { key } => Ticket::Request { key },
        Ticket::Unanswered => Ticket::Unanswered,
    }
}
