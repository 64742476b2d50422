//! An event of the log.
ghost use Rattle.std.specs.Prelude.{◌≡◌, IfOk};
ghost use Rattle.model_streams.specs.declared.event.Event.TheVariants.{Deliver};

use crate::asked::Asked;
use model_streams::Event;
use std::alloc::{AllocError, Global};
use std::marker::Model;
use world_copies::event as event_copy;

/// An event as the log keeps it. Its value is the event.
#[derive(Drop)]
pub struct LoggedEvent {
    kind: Asked,
}

impl Model for LoggedEvent {
    ghost use Rattle.model_streams.specs.declared.event.Event.{Event};
    ghost use Rattle.stamp_run.specs.Logs.{kept_event};

    ghost Value = { Event };

    ghost view = { λ e. kept_event e.kind };
}

impl LoggedEvent {
    /// The delivery of the packet of this number; takes no memory.
    pub fn delivery(number: usize) -> LoggedEvent
        ensures { result ≡ Deliver number }
    {
        LoggedEvent {
            kind: Asked::Delivered(number),
        }
    }

    /// A copy of an event. An error is out of memory (22).
    pub fn copy_of(alloc: Global, event: &Event) -> Result<LoggedEvent, AllocError>
        ensures { IfOk result (λ e. e ≡ event.now) }
    {
        let copy = event_copy(alloc, event)?;
        match Box::new(alloc, copy) {
            Ok(event) => Ok(LoggedEvent {
                kind: Asked::Called(event),
            }),
            Err(_full) => Err(AllocError),
        }
    }

    /// The event. An error is out of memory (22).
    pub fn event(&self, alloc: Global) -> Result<Event, AllocError>
        ensures { IfOk result (λ e. e ≡ self.now) }
    {
        match &self.kind {
            Asked::Delivered(number) => Ok(Event::Deliver { number: *number }),
            Asked::Called(event) => event_copy(alloc, event.as_ref()),
        }
    }
}
