//! What is booked for an event of an actor.
use crate::logged_event::LoggedEvent;
use crate::run_marks::RunEntry;
use stamp_marks::{Booking, History, Identity, Prefix};
use stamp_traces::Timed;
use std::marker::{Model, PhantomData};
use world_actors::ActorInput;
use world_steps::ActorStep;

/// What a step is told with: the mark of what the pass will then have seen, and the event as the log will keep it. Its value is the
/// event.
#[derive(Drop)]
pub struct Announcement<K: Identity> {
    pub(crate) prefix: Booking<usize, Prefix<RunEntry>>,
    pub(crate) logged: LoggedEvent,
    pub(crate) of: PhantomData<K>,
}

impl<K: Identity> Model for Announcement<K> {
    ghost use Rattle.boxcar.specs.Table.{Shows};
    ghost use Rattle.model_streams.specs.declared.event.Event.{Event};

    ghost Value = { Event };

    ghost view = { λ a. a.logged };

    ghost invariant = { λ a. Shows K.prefixes a.prefix };
}

/// What is booked for an event of an actor: the input with its mark, and what its step is told with. Its value is the input.
#[derive(Drop)]
pub struct BookedFor<A: Timed<ActorInput, ActorStep>, K: Identity> {
    pub mark: Booking<ActorInput, History<ActorInput, A>>,
    pub input: ActorInput,
    pub announcement: Announcement<K>,
}

impl<A: Timed<ActorInput, ActorStep>, K: Identity> Model for BookedFor<A, K> {
    ghost use Rattle.std.specs.Prelude.{◌≡◌};
    ghost use Rattle.boxcar.specs.Table.{Shows};
    ghost use Rattle.world_actors.specs.declared.actor_input.ActorInput.{ActorInput};

    ghost Value = { ActorInput };

    ghost view = { λ b. b.input };

    ghost invariant = { λ b. Shows K.events b.mark × (b.mark.value.subject.value ≡ b.input) × (b.announcement ≡ b.input.event) };
}
