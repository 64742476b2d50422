//! What is to be appended.
ghost use Rattle.std.specs.Prelude.{◌≡◌};

use crate::logged_event::LoggedEvent;
use world_actors::ActorInput;

/// An event with the packet that it delivers, and as the log will keep it.
pub(crate) struct Planned {
    pub(crate) input: ActorInput,
    pub(crate) logged: LoggedEvent,
}

// Written out, so that a function that lets one go has no proof of what is in it.
impl Drop for Planned {
    fn drop(self) {
        let Planned {
            input: _,
            logged: _,
        } = self;
    }
}

impl Planned {
    /// The event as the log will keep it.
    pub(crate) fn into_logged(self) -> LoggedEvent
        ensures { result ≡ self.logged }
    {
        let Planned { input: _, logged } = self;
        logged
    }

    /// Both.
    pub(crate) fn into_parts(self) -> (ActorInput, LoggedEvent)
        ensures { result ≡ (self.input, self.logged) }
    {
        let Planned { input, logged } = self;
        (input, logged)
    }
}
