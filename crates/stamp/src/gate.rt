//! What is entered between the booking of an event and the step of its actor.

use wire::ActorId;

/// What a thread enters under the lock of a cell, after an event was booked for its actor and before the actor takes it. It is not
/// entered for a moment, and not for an event that no actor takes.
pub trait Gate {
    fn enter(&self, actor: ActorId);
}

/// A gate that lets all through.
#[derive(Clone, Copy, Debug, PartialEq, Eq)]
pub struct OpenGate;

impl Gate for OpenGate {
    fn enter(&self, _actor: ActorId) {}
}
