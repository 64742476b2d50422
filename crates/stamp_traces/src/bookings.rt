//! What is booked in the trace before an actor takes an event.
ghost use Rattle.std.specs.Prelude.{◌≡◌, ◌⊎◌, ◌+◌, ◌≤◌, IfOk, IfErr, OnErr, Some, length, set};
ghost use Rattle.boxcar.specs.Table.{Shows};
ghost use Rattle.stamp_traces.specs.Journals.{PassDiffers, without_booking};
ghost use Rattle.stamp_traces.specs.Shown.{booked_by};

use crate::actor::Actor;
use crate::entry::Entry;
use crate::fault::TraceFault;
use crate::journal::Journal;
use crate::pass::Pass;
use crate::places::clear_at;
use stamp_marks::{Booking, History, Identity, Marks, Prefix};
use std::sync::Wait;

/// What is booked for an event of an actor: its mark, and the mark of what the pass will then have seen.
#[derive(Drop)]
pub struct EventBooking<E, S, X> {
    pub event: Booking<E, History<E, S>>,
    pub prefix: Booking<usize, Prefix<X>>,
}

impl<A: Actor<E, R>, E: Drop, R: Drop, K: Identity> Journal<A, E, R, K> {
    /// Books an event of an actor, with room for its entry; it takes the place of an event that was booked for the actor before. 52
    /// where there is no such actor or the pass's token is not the trace's, else 50 where there is no room, else 22 where there was no
    /// memory for the marks.
    pub fn book<W: Wait>(
        &mut self,
        rt: &W,
        marks: &Marks<E, A, Entry<E, R>>,
        pass: &Pass<E, R, K>,
        number: usize,
        event: &E,
    ) -> Result<EventBooking<E, A, Entry<E, R>>, TraceFault>
        requires named { (marks.now.events ≡ K.events) × (marks.now.prefixes ≡ K.prefixes) }
        ensures event { IfOk result (λ b. Shows K.events b.event × (b.event.value.subject.value ≡ event.now)) }
        ensures prefix { IfOk result (λ b. Shows K.prefixes b.prefix) }
        ensures ok { IfOk result (λ b. self.new ≡ record self.old { booked = self.old.booked + 1; bookings = set self.old.bookings number (Some (booked_by b.event)) }) }
        ensures full { IfErr result (λ e. e ≡ TraceFault.Full → self.old.room ≤ length self.old.entries + self.old.booked) }
        ensures differ { IfErr result (λ e. e ≡ TraceFault.Stopped → (length self.old.bookings ≤ number) ⊎ PassDiffers self.old pass.now) }
        ensures err { OnErr result (self.new ≡ self.old) }
    {
        if number >= self.bookings.len() || !self.stands(marks, pass) {
            return Err(TraceFault::Stopped);
        }
        if self.entries.len() + self.booked >= self.room {
            return Err(TraceFault::Full);
        }
        let Ok(prefix) = marks.prefixes.book(rt, &pass.number) else {
            return Err(TraceFault::Memory);
        };
        let Ok(booking) = marks.events.book(rt, event) else {
            return Err(TraceFault::Memory);
        };
        self.bookings[number] = Some(booking.place());
        self.booked += 1;
        Ok(EventBooking {
            event: booking,
            prefix,
        })
    }

    /// Gives the room of an actor's booking back, and nothing is booked for the actor.
    pub fn unbook(&mut self, number: usize)
        ensures { self.new ≡ without_booking self.old number }
    {
        self.booked = self.booked.saturating_sub(1);
        clear_at(&mut self.bookings, number);
    }
}
