//! What an actor is.
ghost use Rattle.std.specs.Prelude.{◌≡◌, ℕ, List, IfOk, OnErr};

use crate::fault::TraceFault;
use std::alloc::Global;

/// An actor, whose steps are as a relation says.
pub trait Actor<E, R>: Drop {
    /// The actor before any event, by the numbers of the setup and its own.
    ghost first: { List ℕ → ℕ → Self };

    /// From the state before an event to the state after it, with the reply.
    ghost goes: { Self → E → Self → R → Type 0 };

    /// Takes an event, or refuses it, and then is as it was.
    fn step(&mut self, alloc: Global, event: &E) -> Result<R, TraceFault>
        ensures ok { IfOk result (λ r. goes self.old event.now self.new r) }
        ensures err { OnErr result (self.new ≡ self.old) };
}

/// An actor that takes some events with no reply of its own, and cannot refuse these.
pub trait Timed<E, R>: Actor<E, R> {
    /// The events that it takes so.
    ghost is_moment: { E → Type 0 };

    /// The reply of all of them.
    ghost quiet: { R };

    /// Takes such an event.
    fn tick(&mut self, event: &E)
        requires { is_moment event.now }
        ensures { Self.goes self.old event.now self.new quiet };
}
