//! The trace: what happened, in order.
ghost use Rattle.std.specs.Prelude.{◌≡◌, ◌+◌, ◌≤◌, [], IfOk, length, ◌≢◌, ℕ, Some, slice_get};
ghost use Rattle.stamp_traces.specs.Shown.{BookingState};
ghost use Rattle.stamp_traces.specs.Traces.{Leads};

use crate::actor::Actor;
use crate::entry::Entry;
use boxcar::Pushed;
use stamp_marks::{History, Identity, Mark, Prefix, Token};
use std::alloc::{AllocError, Global};
use std::marker::{Model, PhantomData};

/// What happened, in order, with a token of each actor's history, one of what each pass has seen, and what is booked.
#[derive(Drop)]
pub struct Journal<A: Actor<E, R>, E: Drop, R: Drop, K: Identity> {
    pub(crate) entries: Vec<Entry<E, R>>,
    pub(crate) actors: Vec<Option<Token<E, History<E, A>>>>,
    pub(crate) passes: Vec<Option<Token<usize, Prefix<Entry<E, R>>>>>,
    pub(crate) bookings: Vec<Option<Pushed<Mark<E, History<E, A>>>>>,
    pub(crate) booked: usize,
    pub(crate) room: usize,
    pub(crate) of: PhantomData<K>,
}

impl<A: Actor<E, R>, E: Drop, R: Drop, K: Identity> Model for Journal<A, E, R, K> {
    ghost use Rattle.std.specs.Prelude.{map, ◌+◌, ◌≤◌, vec_len, vec_capacity};
    ghost use Rattle.stamp_marks.specs.Tokens.{index_of};
    ghost use Rattle.stamp_traces.specs.Passes.{ArePasses};
    ghost use Rattle.stamp_traces.specs.Shown.{booking_of};
    ghost use Rattle.stamp_traces.specs.Traces.{IsLegal, AreBookings, JournalState};

    ghost Value = { JournalState E R };

    ghost view = { λ j. record { entries = j.entries.items; actors = map index_of j.actors.items; passes = map index_of j.passes.items; bookings = map booking_of j.bookings.items; booked = j.booked; room = j.room } };

    ghost invariant = { λ j. IsLegal (A.first K.numbers) A.goes K.events j.entries.items j.actors.items × ArePasses K.prefixes j.entries.items j.passes.items × AreBookings K.events j.bookings.items × (vec_len j.entries + j.booked ≤ j.room) × (j.room ≤ vec_capacity j.entries) };
}

impl<A: Actor<E, R>, E: Drop, R: Drop, K: Identity> Journal<A, E, R, K> {
    /// A trace of so many actors, in which nothing has happened, with room for so many entries. 22 where there was no memory.
    pub fn new(alloc: Global, actors: usize, room: usize) -> Result<Journal<A, E, R, K>, AllocError>
        ensures empty { IfOk result (λ j. (j.entries ≡ []) × (j.booked ≡ 0) × (j.room ≡ room)) }
        ensures none { IfOk result (λ j. (n : ℕ) (b : BookingState E) → slice_get j.bookings n ≢ Some (Some b)) }
    {
        let entries = Vec::with_capacity(alloc, room)?;
        let mut tokens = Vec::new(alloc);
        let mut bookings = Vec::new(alloc);
        for _i in 0..actors {
            tokens.push(None)?;
            bookings.push(None)?;
        }
        Ok(Journal {
            entries,
            actors: tokens,
            passes: Vec::new(alloc),
            bookings,
            booked: 0,
            room,
            of: PhantomData,
        })
    }

    /// How many entries there are.
    pub fn len(&self) -> usize
        ensures { result ≡ length self.now.entries }
    {
        self.entries.len()
    }

    /// The entries, in order. Each was a step of the actors that took it, and there is room for as many more as are booked.
    pub fn entries(&self) -> &[Entry<E, R>]
        ensures same { result.now ≡ self.now.entries }
        ensures leads { Leads A.goes (A.first K.numbers) self.now.entries }
        ensures room { length self.now.entries + self.now.booked ≤ self.now.room }
    {
        self.entries.as_slice()
    }

    /// How many entries are booked.
    pub fn booked(&self) -> usize
        ensures { result ≡ self.now.booked }
    {
        self.booked
    }
}
