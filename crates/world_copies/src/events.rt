//! The copy of an event.
ghost use Rattle.std.specs.Prelude.{◌≡◌, IfOk};

use crate::bodies::body as body_copy;
use model_streams::Event;
use std::alloc::{AllocError, Global};

/// The same event again, which shares the payload of a request and the key of a split. An error is out of memory (22).
pub fn event(alloc: Global, event: &Event) -> Result<Event, AllocError>
    ensures { IfOk result (λ copy. copy ≡ event.now) }
{
    match event {
        Event::Submit { user, to, body } => {
            let body = body_copy(alloc, body)?;
            Ok(Event::Submit {
                user: *user,
                to: *to,
                body,
            })
        }
        Event::Deliver { number } => Ok(Event::Deliver { number: *number }),
        Event::Stop { actor, call, keep } => Ok(Event::Stop {
            actor: *actor,
            call: *call,
            keep: *keep,
        }),
        Event::Restart { actor } => Ok(Event::Restart { actor: *actor }),
        Event::Decide { extent } => Ok(Event::Decide { extent: *extent }),
        Event::GiveUp {
            server,
            range,
            pick,
        } => Ok(Event::GiveUp {
            server: *server,
            range: *range,
            pick: *pick,
        }),
        Event::Assign {
            range,
            server,
            until,
        } => Ok(Event::Assign {
            range: *range,
            server: *server,
            until: *until,
        }),
        Event::Renew {
            range,
            server,
            until,
        } => Ok(Event::Renew {
            range: *range,
            server: *server,
            until: *until,
        }),
        Event::Moment { now } => Ok(Event::Moment { now: *now }),
        Event::Checkpoint {
            server,
            range,
            combine,
        } => Ok(Event::Checkpoint {
            server: *server,
            range: *range,
            combine: *combine,
        }),
        Event::Split { server, range, key } => {
            let key = key.clone()?;
            Ok(Event::Split {
                server: *server,
                range: *range,
                key,
            })
        }
        Event::Merge {
            server,
            left,
            right,
        } => Ok(Event::Merge {
            server: *server,
            left: *left,
            right: *right,
        }),
    }
}
