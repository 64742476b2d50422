//! What is booked for actors, and given back.
ghost use Rattle.std.specs.Prelude.{◌≡◌, ◌≢◌, ◌⊎◌, ◌≤◌, ℕ, None, Some, IfErr, IfOk, OnErr, length};
ghost use Rattle.model_streams.specs.declared.event.Event.TheVariants.{Deliver};
ghost use Rattle.stamp_traces.specs.Journals.{PassDiffers, without_booking};
ghost use Rattle.world_actors.specs.Inputs.{one_at, takers_in};
ghost use Rattle.laws_traces.specs.Traces.{sent_by};
ghost use Rattle.stamp_run.specs.Bookings.{IsBooked};
ghost use Rattle.stamp_run.specs.Traces.{IsFullFor};

use crate::booked::{Announcement, BookedFor};
use crate::logged_event::LoggedEvent;
use crate::planned::Planned;
use crate::run_marks::MarksOf;
use crate::run_pass::Pass;
use crate::trace::{MOST_PACKETS, TraceOf};
use model_streams::Event;
use stamp_marks::Identity;
use stamp_traces::{EventBooking, Timed, TraceFault};
use std::alloc::Global;
use std::marker::PhantomData;
use std::sync::Wait;
use world_actors::ActorInput;
use world_steps::ActorStep;

impl<A: Timed<ActorInput, ActorStep>, K: Identity> TraceOf<A, K> {
    /// Books an event of an actor.
    pub(crate) fn book<W: Wait>(
        &mut self,
        rt: &W,
        run: &MarksOf<A, K>,
        pass: &Pass<K>,
        actor: usize,
        planned: Planned,
    ) -> Result<BookedFor<A, K>, TraceFault>
        requires booked { IsBooked K.numbers (sent_by self.old.journal.entries) actor planned.input }
        requires logged { planned.logged ≡ planned.input.event }
        ensures input { IfOk result (λ b. b ≡ planned.input) }
        ensures entries { self.new.journal.entries ≡ self.old.journal.entries }
        ensures full { IfErr result (λ e. e ≡ TraceFault.Full → IsFullFor 2048 self.old) }
        ensures differ { IfErr result (λ e. e ≡ TraceFault.Stopped → (length self.old.journal.bookings ≤ actor) ⊎ PassDiffers self.old.journal pass.now.sight) }
        ensures err { OnErr result (self.new ≡ self.old) }
    {
        if !self.has_room(MOST_PACKETS) {
            return Err(TraceFault::Full);
        }
        let EventBooking {
            event: mark,
            prefix,
        } = self
            .journal
            .book(rt, run.marks(), &pass.pass, actor, &planned.input)?;
        let (input, logged) = planned.into_parts();
        Ok(BookedFor {
            mark,
            input,
            announcement: Announcement {
                prefix,
                logged,
                of: PhantomData,
            },
        })
    }

    /// Books an event of an actor that is no delivery, with room for its entry and for 2,048 packets. 52 where there is no such actor or
    /// the pass's token is not the trace's, 50 where there is no room, 22 where there was no memory.
    pub fn book_request<W: Wait + AllocGlobal>(
        &mut self,
        rt: &W,
        run: &MarksOf<A, K>,
        pass: &Pass<K>,
        actor: usize,
        request: Event,
    ) -> Result<BookedFor<A, K>, TraceFault>
        requires taker { takers_in K.numbers (record { event = request; packet = None }) ≡ one_at (Some actor) }
        requires asks { (number : ℕ) → request ≢ Deliver number }
        ensures input { IfOk result (λ b. b ≡ record { event = request; packet = None }) }
        ensures entries { self.new.journal.entries ≡ self.old.journal.entries }
        ensures full { IfErr result (λ e. e ≡ TraceFault.Full → IsFullFor 2048 self.old) }
        ensures differ { IfErr result (λ e. e ≡ TraceFault.Stopped → (length self.old.journal.bookings ≤ actor) ⊎ PassDiffers self.old.journal pass.now.sight) }
        ensures err { OnErr result (self.new ≡ self.old) }
    {
        let input = ActorInput {
            event: request,
            packet: None,
        };
        match LoggedEvent::copy_of(rt.alloc(), &input.event) {
            Ok(logged) => self.book(rt, run, pass, actor, Planned { input, logged }),
            Err(_full) => Err(TraceFault::Memory),
        }
    }

    /// Gives the room of an actor's booking back, and nothing is booked for the actor.
    pub fn unbook(&mut self, actor: usize)
        ensures { self.new ≡ record self.old { journal = without_booking self.old.journal actor } }
    {
        self.journal.unbook(actor);
    }
}
