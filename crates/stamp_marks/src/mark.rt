//! What lies in a list of marks.
use boxcar::slot::{OnceSlot, SlotRule};
use std::snapshot::Snapshot;

/// The rule of the slots of marks: any value will do.
pub struct AnyValue;

impl<T> SlotRule<T> for AnyValue {
    ghost use Rattle.std.specs.Prelude.{⊤};

    ghost holds = { λ _ _. ⊤ };
}

/// What the mark is about, which is known as it is booked, and a slot for its value, which is fixed later.
#[derive(Drop)]
pub struct Mark<D, V> {
    pub subject: Snapshot<D>,
    pub slot: OnceSlot<Snapshot<V>, AnyValue>,
}
