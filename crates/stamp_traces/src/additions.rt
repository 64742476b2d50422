//! What is put at the end of the trace.
ghost use Rattle.std.specs.Prelude.{◌≡◌, ◌⊎◌, ◌+◌, ◌<◌, ◌≤◌, IfOk, IfErr, OnErr, OnOk, Some, length, slice_get};
ghost use Rattle.boxcar.specs.Table.{Shows};
ghost use Rattle.stamp_traces.specs.Cells.{booking_for};
ghost use Rattle.stamp_traces.specs.Journals.{PassDiffers, StepDiffers, with_entry, with_step};
ghost use Rattle.stamp_traces.specs.Passes.{PassPuts};
ghost use Rattle.stamp_traces.specs.Traces.{LeavesAt, entry_of, note_by};

use crate::actor::Actor;
use crate::cell_step::CellStep;
use crate::entry::Entry;
use crate::fault::TraceFault;
use crate::journal::Journal;
use crate::pass::Pass;
use crate::places::{is_booked_at, is_token_at};
use crate::takers::Takers;
use stamp_marks::{Booking, Identity, Marks, Prefix, prefix_of};
use std::snapshot::Snapshot;
use std::sync::Wait;

impl<A: Actor<E, R>, E: Drop, R: Drop, K: Identity> Journal<A, E, R, K> {
    /// Appends a step that was booked, after all that the pass has seen; then the pass has seen all. Hands out the event and its
    /// reply. 52, and nothing is appended, where a token of the step or of the pass is not the trace's, or the step is not the one
    /// that was booked for its actor.
    pub fn append(
        &mut self,
        marks: &Marks<E, A, Entry<E, R>>,
        pass: &mut Pass<E, R, K>,
        step: CellStep<A, E, R, K>,
        booking: Booking<usize, Prefix<Entry<E, R>>>,
    ) -> Result<(E, R), TraceFault>
        requires named { (marks.now.events ≡ K.events) × (marks.now.prefixes ≡ K.prefixes) }
        requires booked { Shows K.prefixes booking }
        ensures appended { OnOk result (self.new ≡ with_step self.old step pass.new) }
        ensures reply { IfOk result (λ p. (p.0 ≡ step.event) × (p.1 ≡ step.reply)) }
        ensures found { OnOk result (LeavesAt A.goes (A.first K.numbers) self.old.entries step.number step.was) }
        ensures leaves { OnOk result (LeavesAt A.goes (A.first K.numbers) self.new.entries step.number step.state) }
        ensures event { OnOk result (slice_get self.old.bookings step.number ≡ Some (Some (booking_for step))) }
        ensures booked { OnOk result (0 < self.old.booked) }
        ensures puts { OnOk result (PassPuts pass.old (entry_of pass.old.number step) pass.new) }
        ensures seen { OnOk result (pass.new.seen ≡ self.new.entries) }
        ensures differ { IfErr result (λ e. e ≡ TraceFault.Stopped → StepDiffers self.old step ⊎ PassDiffers self.old pass.old) }
        ensures err { OnErr result ((self.new ≡ self.old) × (pass.new ≡ pass.old)) }
    {
        let CellStep {
            number,
            event,
            reply,
            before,
            after,
            state: _,
            of: _,
        } = step;
        let is_found = is_token_at(&marks.events, self.actors.as_slice(), number, &before);
        let is_booked = is_booked_at(&marks.events, self.bookings.as_slice(), number, &after);
        if self.booked == 0 || !is_found || !is_booked || !self.stands(marks, pass) {
            return Err(TraceFault::Stopped);
        }
        let entry = Entry {
            pass: pass.number,
            takers: Takers::one(number),
            event: Snapshot::of(&event),
            reply: Snapshot::of(&reply),
        };
        let prefix = prefix_of(&self.entries, Some(&entry));
        let Some(seen) = marks.prefixes.fix(booking, prefix) else {
            return Err(TraceFault::Spent);
        };
        self.actors[number] = Some(after);
        self.passes[pass.number] = Some(seen.again());
        self.bookings[number] = None;
        self.booked -= 1;
        self.entries.push_reserved(entry);
        pass.token = Some(seen);
        Ok((event, reply))
    }

    /// Appends an event that no actor takes, after all that the pass has seen; then the pass has seen all. 52 where the pass's token
    /// is not the trace's, else 50 where there is no room, else 22 where there was no memory for the mark.
    pub fn note<W: Wait>(
        &mut self,
        rt: &W,
        marks: &Marks<E, A, Entry<E, R>>,
        pass: &mut Pass<E, R, K>,
        event: &E,
        reply: &R,
    ) -> Result<(), TraceFault>
        requires named { marks.now.prefixes ≡ K.prefixes }
        ensures appended { OnOk result (self.new ≡ with_entry self.old (note_by pass.old.number event.now reply.now) pass.new) }
        ensures puts { OnOk result (PassPuts pass.old (note_by pass.old.number event.now reply.now) pass.new) }
        ensures seen { OnOk result (pass.new.seen ≡ self.new.entries) }
        ensures full { IfErr result (λ e. e ≡ TraceFault.Full → self.old.room ≤ length self.old.entries + self.old.booked) }
        ensures differ { IfErr result (λ e. e ≡ TraceFault.Stopped → PassDiffers self.old pass.old) }
        ensures err { OnErr result ((self.new ≡ self.old) × (pass.new ≡ pass.old)) }
    {
        if !self.stands(marks, pass) {
            return Err(TraceFault::Stopped);
        }
        if self.entries.len() + self.booked >= self.room {
            return Err(TraceFault::Full);
        }
        let Ok(booking) = marks.prefixes.book(rt, &pass.number) else {
            return Err(TraceFault::Memory);
        };
        let entry = Entry {
            pass: pass.number,
            takers: Takers::nobody(),
            event: Snapshot::of(event),
            reply: Snapshot::of(reply),
        };
        let prefix = prefix_of(&self.entries, Some(&entry));
        let Some(seen) = marks.prefixes.fix(booking, prefix) else {
            return Err(TraceFault::Spent);
        };
        self.passes[pass.number] = Some(seen.again());
        self.entries.push_reserved(entry);
        pass.token = Some(seen);
        Ok(())
    }
}
