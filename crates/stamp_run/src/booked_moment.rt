//! What is booked for a moment.
use crate::logged_event::LoggedEvent;
use stamp_marks::Identity;
use stamp_traces::{MomentBooking, Timed};
use world_actors::ActorInput;
use world_steps::ActorStep;

/// A moment that is booked, and its event as the log will keep it.
#[derive(Drop)]
pub struct BookedMomentOf<A: Timed<ActorInput, ActorStep>, K: Identity> {
    pub moment: MomentBooking<A, ActorInput, ActorStep, K>,
    pub logged: LoggedEvent,
}
