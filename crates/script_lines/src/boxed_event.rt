//! An event that stands apart from the line that holds it.
ghost use Rattle.std.specs.Prelude.{◌≡◌, IfOk};

use model_streams::Event;
use std::alloc::{AllocError, Global};
use std::marker::Model;

/// An event in memory of its own, so that no line is as wide as the widest event. Its value is the event.
#[derive(Drop)]
pub struct BoxedEvent {
    event: Box<Event>,
}

impl Model for BoxedEvent {
    ghost use Rattle.model_streams.specs.declared.event.Event.{Event};

    ghost Value = { Event };

    ghost view = { λ boxed. boxed.event.value };
}

impl BoxedEvent {
    /// Takes an event. An error is out of memory (22).
    pub fn new(alloc: Global, event: Event) -> Result<BoxedEvent, AllocError>
        ensures { IfOk result (λ boxed. boxed ≡ event) }
    {
        match Box::new(alloc, event) {
            Ok(event) => Ok(BoxedEvent { event }),
            Err(_full) => Err(AllocError),
        }
    }

    /// The event that it holds.
    pub fn event(&self) -> &Event
        ensures { result.now ≡ self.now }
    {
        self.event.as_ref()
    }

    /// Gives the event back.
    pub fn into_event(self) -> Event
        ensures { result ≡ self }
    {
        let BoxedEvent { event } = self;
        Box::into_inner(event)
    }
}
