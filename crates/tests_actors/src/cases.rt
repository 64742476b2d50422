//! How a case is run.
use std::alloc::Global;

/// An actor that a case is about.
pub trait Actor: Drop {
    type Event: Copy;

    /// The actor as an event leaves it, or none where the event does not go as the case says.
    fn after(self, alloc: Global, event: Self::Event) -> Option<Self>;
}

fn part_run<A: Actor>(alloc: Global, start: Option<A>, part: &[A::Event]) -> Option<A> {
    let mut state = start;
    for event in part {
        state = match state {
            Some(actor) => actor.after(alloc, *event),
            None => None,
        };
    }
    state
}

/// Whether the events of a case, part after part, go as it says. Where there is no actor, they do not.
pub fn holds<A: Actor>(alloc: Global, start: Option<A>, case: &[&[A::Event]]) -> bool {
    let mut state = start;
    for part in case {
        state = part_run(alloc, state, part);
    }
    state.is_some()
}
