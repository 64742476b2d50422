//! Events, each with the state that it left.
ghost use Rattle.std.specs.Prelude.{◌≡◌, [], ◌∷◌, ◌++◌};
ghost use Rattle.stamp_marks.specs.Histories.{lent_events};

use std::marker::Model;
use std::snapshot::Snapshot;

/// One event or more, each with the state that it left. It exists in proofs alone, and has no bytes.
#[derive(Drop)]
pub struct History<E, S> {
    earlier: Option<Snapshot<Snapshot<History<E, S>>>>,
    event: Snapshot<E>,
    state: Snapshot<S>,
}

impl<E, S> Model for History<E, S> {
    ghost use Rattle.std.specs.Prelude.{List, [], ◌++◌, ◌∷◌, length};
    ghost use Rattle.std.proofs.Common.{arith, length-append};
    ghost use Rattle.stamp_marks.specs.Histories.{events_of};

    ghost Value = { List (E × S) };

    ghost view = { λ h. events_of h.earlier ++ (h.event.value, h.state.value) ∷ [] };

    ghost size = { length };

    ghost size_decreases = { λ a h. Prim.grind (arith, length-append) };
}

/// A history with one event more, and the state that this one left; takes no memory.
pub fn with_event<E, S>(
    earlier: Option<&Snapshot<History<E, S>>>,
    event: &E,
    state: &S,
) -> Snapshot<History<E, S>>
    ensures { result.value ≡ lent_events earlier.entry ++ (event.now, state.now) ∷ [] }
{
    let earlier = match earlier {
        None => None,
        Some(history) => Some(Snapshot::of(history)),
    };
    Snapshot::of(&History {
        earlier,
        event: Snapshot::of(event),
        state: Snapshot::of(state),
    })
}
