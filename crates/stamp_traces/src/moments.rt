//! One event of several actors, all or nothing.
ghost use Rattle.std.specs.Prelude.{◌≡◌, ◌⊎◌, ◌+◌, ◌-◌, ◌<◌, ◌≤◌, ℕ, [], Some, IfOk, IfErr, OnErr, OnOk, MatchBool, length, map, slice_get};
ghost use Rattle.boxcar.specs.Table.{Shows};
ghost use Rattle.stamp_marks.specs.Tokens.{IsOf, index_of};
ghost use Rattle.stamp_traces.specs.Journals.{PassDiffers};
ghost use Rattle.stamp_traces.specs.Moments.{AreMarksOf, AreTokensOf, HasOther, LeaveEach, MomentDiffers, moment_by, state_before, with_moment, with_tokens};
ghost use Rattle.stamp_traces.specs.Passes.{PassPuts};

use crate::actor::Timed;
use crate::entry::Entry;
use crate::fault::TraceFault;
use crate::journal::Journal;
use crate::moment_booking::MomentBooking;
use crate::moment_step::MomentStep;
use crate::pass::Pass;
use crate::places::is_token_at;
use crate::takers::Takers;
use stamp_marks::{Booking, History, Identity, MarkList, Marks, Token, prefix_of};
use std::alloc::{AllocError, Global};
use std::marker::PhantomData;
use std::snapshot::Snapshot;
use std::sync::Wait;

/// So many marks about one event.
fn book_marks<D, V, W: Wait + AllocGlobal>(
    rt: &W,
    marks: &MarkList<D, V>,
    count: usize,
    event: &D,
) -> Result<Vec<Booking<D, V>>, AllocError>
    ensures marks { IfOk result (λ v. AreMarksOf marks.now event.now v.items) }
    ensures count { IfOk result (λ v. length v.items ≡ count) }
{
    let mut bookings = Vec::new(rt.alloc());
    for _i in 0..count {
        let booking = marks.book(rt, event)?;
        bookings.push(booking)?;
    }
    Ok(bookings)
}

/// Whether each step goes by the token at its actor's number.
fn has_tokens<S, E>(
    marks: &MarkList<E, History<E, S>>,
    tokens: &[Option<Token<E, History<E, S>>>],
    steps: &[MomentStep<S, E>],
) -> bool
    requires tokens { (n : ℕ) (t : _) → slice_get tokens.now n ≡ Some t → IsOf t marks.now }
    requires steps { (k : ℕ) (s : _) → slice_get steps.now k ≡ Some s → IsOf s.before marks.now }
    ensures { MatchBool result (AreTokensOf tokens.now steps.now) (HasOther (map index_of tokens.now) steps.now) }
{
    for i in 0..steps.len() {
        let step = &steps[i];
        if !is_token_at(marks, tokens, step.number, &step.before) {
            return false;
        }
    }
    true
}

/// Writes the tokens after the steps.
fn install<S, E>(tokens: &mut Vec<Option<Token<E, History<E, S>>>>, steps: &[MomentStep<S, E>])
    requires { AreTokensOf tokens.old.items steps.now }
    ensures { tokens.new.items ≡ with_tokens tokens.old.items steps.now }
{
    for i in 0..steps.len() {
        let step = &steps[i];
        tokens[step.number] = Some(step.after.again());
    }
}

impl<A: Timed<E, R>, E: Drop, R: Drop, K: Identity> Journal<A, E, R, K> {
    /// Books one event of several actors, with room for its entry and memory for all that is to come. 52 where there are no such
    /// actors or the pass's token is not the trace's, else 50 where there is no room, else 22 where there was no memory.
    pub fn book_moment<W: Wait + AllocGlobal>(
        &mut self,
        rt: &W,
        marks: &Marks<E, A, Entry<E, R>>,
        pass: &Pass<E, R, K>,
        takers: Takers,
        event: E,
    ) -> Result<MomentBooking<A, E, R, K>, TraceFault>
        requires named { (marks.now.events ≡ K.events) × (marks.now.prefixes ≡ K.prefixes) }
        requires moment { A.is_moment event }
        ensures booking { IfOk result (λ m. m ≡ record { takers = takers; event = event; left = takers.end - takers.first; steps = [] }) }
        ensures takers { OnOk result ((takers.first ≤ takers.end) × (takers.end ≤ length self.old.actors)) }
        ensures ok { OnOk result (self.new ≡ record self.old { booked = self.old.booked + 1 }) }
        ensures full { IfErr result (λ e. e ≡ TraceFault.Full → self.old.room ≤ length self.old.entries + self.old.booked) }
        ensures differ { IfErr result (λ e. e ≡ TraceFault.Stopped → (takers.end < takers.first) ⊎ ((length self.old.actors < takers.end) ⊎ PassDiffers self.old pass.now)) }
        ensures err { OnErr result (self.new ≡ self.old) }
    {
        let Takers { first, end } = takers;
        if end < first || self.actors.len() < end || !self.stands(marks, pass) {
            return Err(TraceFault::Stopped);
        }
        if self.entries.len() + self.booked >= self.room {
            return Err(TraceFault::Full);
        }
        let Ok(prefix) = marks.prefixes.book(rt, &pass.number) else {
            return Err(TraceFault::Memory);
        };
        let Ok(steps) = Vec::with_capacity(rt.alloc(), end - first) else {
            return Err(TraceFault::Memory);
        };
        let Ok(bookings) = book_marks(rt, &marks.events, end - first, &event) else {
            return Err(TraceFault::Memory);
        };
        self.booked += 1;
        Ok(MomentBooking {
            takers,
            event,
            marks: bookings,
            steps,
            prefix,
            of: PhantomData,
        })
    }

    /// Gives the room of a moment's booking back.
    pub fn unbook_moment(&mut self)
        ensures { self.new ≡ record self.old { booked = self.old.booked - 1 } }
    {
        self.booked = self.booked.saturating_sub(1);
    }

    /// Appends one event that several actors took, after all that the pass has seen; then the pass has seen all. 52, and nothing is
    /// appended, where a token of one of the steps or of the pass is not the trace's, or a step is still to come.
    pub fn append_moment(
        &mut self,
        marks: &Marks<E, A, Entry<E, R>>,
        pass: &mut Pass<E, R, K>,
        moment: MomentBooking<A, E, R, K>,
        reply: &R,
    ) -> Result<(), TraceFault>
        requires named { (marks.now.events ≡ K.events) × (marks.now.prefixes ≡ K.prefixes) }
        requires quiet { reply.now ≡ A.quiet }
        ensures appended { OnOk result (self.new ≡ with_moment self.old moment reply.now pass.new) }
        ensures all { OnOk result (moment.takers.first + length moment.steps ≡ moment.takers.end) }
        ensures booked { OnOk result (0 < self.old.booked) }
        ensures found { OnOk result (LeaveEach A.goes (A.first K.numbers) self.old.entries moment.steps (state_before (A.first K.numbers))) }
        ensures leaves { OnOk result (LeaveEach A.goes (A.first K.numbers) self.new.entries moment.steps (λ s. s.state.value)) }
        ensures puts { OnOk result (PassPuts pass.old (moment_by pass.old.number moment reply.now) pass.new) }
        ensures seen { OnOk result (pass.new.seen ≡ self.new.entries) }
        ensures differ { IfErr result (λ e. e ≡ TraceFault.Stopped → MomentDiffers self.old moment ⊎ PassDiffers self.old pass.old) }
        ensures few { IfErr result (λ e. (e ≡ TraceFault.Stopped) ⊎ (e ≡ TraceFault.Spent)) }
        ensures err { OnErr result ((self.new ≡ self.old) × (pass.new ≡ pass.old)) }
    {
        let MomentBooking {
            takers,
            event,
            marks: _,
            steps,
            prefix: booking,
            of: _,
        } = moment;
        let is_found = has_tokens(&marks.events, self.actors.as_slice(), steps.as_slice());
        let is_whole = steps.len() == takers.end - takers.first;
        if self.booked == 0 || !is_whole || !is_found || !self.stands(marks, pass) {
            return Err(TraceFault::Stopped);
        }
        let entry = Entry {
            pass: pass.number,
            takers,
            event: Snapshot::of(&event),
            reply: Snapshot::of(reply),
        };
        let prefix = prefix_of(&self.entries, Some(&entry));
        let Some(seen) = marks.prefixes.fix(booking, prefix) else {
            return Err(TraceFault::Spent);
        };
        install(&mut self.actors, steps.as_slice());
        self.passes[pass.number] = Some(seen.again());
        self.booked -= 1;
        self.entries.push_reserved(entry);
        pass.token = Some(seen);
        Ok(())
    }
}
