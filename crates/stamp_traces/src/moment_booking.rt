//! What is booked for one event of several actors.
ghost use Rattle.std.specs.Prelude.{◌≡◌, ◌≢◌, ◌+◌, MatchBool, length};

use crate::actor::Timed;
use crate::entry::Entry;
use crate::moment_step::MomentStep;
use crate::takers::Takers;
use stamp_marks::{Booking, History, Identity, Prefix};
use std::marker::{Model, PhantomData};

/// One event of several actors: a mark for each that has not taken it yet, the steps of those that have, in order, with memory for
/// all, and the mark of what the pass will then have seen.
#[derive(Drop)]
pub struct MomentBooking<A: Timed<E, R>, E: Drop, R: Drop, K: Identity> {
    pub(crate) takers: Takers,
    pub(crate) event: E,
    pub(crate) marks: Vec<Booking<E, History<E, A>>>,
    pub(crate) steps: Vec<MomentStep<A, E>>,
    pub(crate) prefix: Booking<usize, Prefix<Entry<E, R>>>,
    pub(crate) of: PhantomData<K>,
}

impl<A: Timed<E, R>, E: Drop, R: Drop, K: Identity> Model for MomentBooking<A, E, R, K> {
    ghost use Rattle.std.specs.Prelude.{◌+◌, ◌≤◌, length, vec_len, vec_capacity};
    ghost use Rattle.boxcar.specs.Table.{Shows};
    ghost use Rattle.stamp_traces.specs.Moments.{MomentState, AreMarksOf, AreMomentSteps};

    ghost Value = { MomentState A E };

    ghost view = { λ m. record { takers = m.takers; event = m.event; left = length m.marks.items; steps = m.steps.items } };

    ghost invariant = { λ m. A.is_moment m.event × AreMarksOf K.events m.event m.marks.items × Shows K.prefixes m.prefix × AreMomentSteps (A.first K.numbers) A.goes A.quiet K.events m.event m.takers.first m.steps.items × (m.takers.first + vec_len m.steps + vec_len m.marks ≤ m.takers.end) × (vec_len m.steps + vec_len m.marks ≤ vec_capacity m.steps) };
}

impl<A: Timed<E, R>, E: Drop, R: Drop, K: Identity> MomentBooking<A, E, R, K> {
    /// Whether this actor takes the event next.
    pub fn is_next(&self, number: usize) -> bool
        ensures { MatchBool result (number ≡ self.now.takers.first + length self.now.steps) (number ≢ self.now.takers.first + length self.now.steps) }
    {
        number >= self.takers.first && number - self.takers.first == self.steps.len()
    }
}
