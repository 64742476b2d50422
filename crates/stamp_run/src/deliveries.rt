//! Deliveries of packets.
ghost use Rattle.std.specs.Prelude.{◌≡◌, ◌≢◌, ◌<◌, ℕ, [], ◌∷◌, ◌++◌, None, Some, IfErr, IfNone, IfOk, IfSome, OnErr, OnOk, slice_get};
ghost use Rattle.std.specs.Option.{option_or};
ghost use Rattle.model_streams.specs.declared.event.Event.TheVariants.{Deliver};
ghost use Rattle.stamp_answers.specs.Answers.{answer_key};
ghost use Rattle.stamp_answers.specs.declared.key.AnswerKey.{AnswerKey};
ghost use Rattle.stamp_traces.specs.Journals.{PassDiffers};
ghost use Rattle.stamp_traces.specs.Traces.{note_by};
ghost use Rattle.world_actors.specs.Inputs.{one_at, takers_in};
ghost use Rattle.world_actors.specs.Numbers.{count_of, place_in};
ghost use Rattle.world_steps.specs.ActorStep.{nothing};
ghost use Rattle.laws_traces.specs.Traces.{IsLegalEntry, sent_by};
ghost use Rattle.stamp_run.specs.Answers.{first_number, number_if};
ghost use Rattle.stamp_run.specs.Passes.{Delivers, PutsEvent};
ghost use Rattle.stamp_run.specs.Traces.{HasRoomFor, IsFullFor};

use crate::booked::BookedFor;
use crate::logged_event::LoggedEvent;
use crate::opening::Opening;
use crate::planned::Planned;
use crate::records::record;
use crate::run_marks::MarksOf;
use crate::run_pass::Pass;
use crate::trace::TraceOf;
use model_streams::Event;
use stamp_answers::{AnswerKey, answer_key};
use stamp_marks::Identity;
use stamp_traces::{Timed, TraceFault};
use std::alloc::Global;
use std::sync::Wait;
use wire::Packet;
use world_actors::{ActorInput, place_of};
use world_copies::packet as packet_copy;
use world_steps::ActorStep;

/// The delivery of a packet.
fn delivery(number: usize, packet: Packet) -> Planned
    ensures { result ≡ record { input = record { event = Deliver number; packet = Some packet }; logged = Deliver number } }
{
    Planned {
        input: ActorInput {
            event: Event::Deliver { number },
            packet: Some(packet),
        },
        logged: LoggedEvent::delivery(number),
    }
}

/// The first answer to a request: the number of the packet that is delivered.
#[derive(Clone, Copy)]
struct FirstAnswer {
    key: AnswerKey,
    number: usize,
}

impl<A: Timed<ActorInput, ActorStep>, K: Identity> TraceOf<A, K> {
    /// The request that a packet answers, if it is the first one that is delivered as its answer.
    fn new_key(&self, packet: &Packet) -> Option<AnswerKey>
        ensures some { IfSome result (λ key. (answer_key packet.now ≡ Some key) × (first_number key self.now.journal.entries ≡ None)) }
        ensures none { IfNone result ((k : AnswerKey) → answer_key packet.now ≡ Some k → first_number k self.now.journal.entries ≢ None) }
    {
        let key = answer_key(packet)?;
        match self.answers.number(&key) {
            None => Some(key),
            Some(_) => None,
        }
    }

    /// Appends the delivery of a packet that is the first answer to a request.
    fn note_answer<W: Wait + AllocGlobal>(
        &mut self,
        rt: &W,
        run: &MarksOf<A, K>,
        pass: &mut Pass<K>,
        planned: Planned,
        first: FirstAnswer,
    ) -> Result<(), TraceFault>
        requires event { planned.input.event ≡ Deliver first.number }
        requires logged { planned.logged ≡ planned.input.event }
        requires legal { IsLegalEntry K.numbers (sent_by self.old.journal.entries) (note_by pass.old.sight.number planned.input nothing) }
        requires brought { (k : AnswerKey) → first_number k (self.old.journal.entries ++ note_by pass.old.sight.number planned.input nothing ∷ []) ≡ option_or (first_number k self.old.journal.entries) (number_if k (Some first.key) first.number) }
        requires none { first_number first.key self.old.journal.entries ≡ None }
        requires room { HasRoomFor 0 self.old }
        ensures puts { OnOk result (PutsEvent pass.old.sight planned.input.event pass.new.sight) }
        ensures seen { OnOk result (pass.new.sight.seen ≡ self.new.journal.entries) }
        ensures answered { pass.new.answered ≡ pass.old.answered }
        ensures full { IfErr result (λ e. e ≢ TraceFault.Full) }
        ensures differ { IfErr result (λ e. e ≡ TraceFault.Stopped → PassDiffers self.old.journal pass.old.sight) }
        ensures err { OnErr result ((self.new ≡ self.old) × (pass.new ≡ pass.old)) }
    {
        let quiet = ActorStep::silent(rt.alloc());
        let Ok(()) = self.answers.keep(first.key, first.number) else {
            return Err(TraceFault::Memory);
        };
        let noted = self
            .journal
            .note(rt, run.marks(), &mut pass.pass, &planned.input, &quiet);
        if let Err(fault) = noted {
            self.answers.remove(&first.key);
            return Err(fault);
        }
        let number = pass.pass.number();
        let logged = planned.into_logged();
        record(&mut self.packets, &mut self.log, number, logged, quiet);
        Ok(())
    }

    /// Appends the delivery of a packet that no actor takes.
    fn note_delivery<W: Wait + AllocGlobal>(
        &mut self,
        rt: &W,
        run: &MarksOf<A, K>,
        pass: &mut Pass<K>,
        number: usize,
        packet: Packet,
    ) -> Result<(), TraceFault>
        requires sent { slice_get (sent_by self.old.journal.entries) number ≡ Some packet }
        requires nobody { place_in K.numbers packet.to ≡ None }
        ensures puts { OnOk result (PutsEvent pass.old.sight (Deliver number) pass.new.sight) }
        ensures seen { OnOk result (pass.new.sight.seen ≡ self.new.journal.entries) }
        ensures answered { pass.new.answered ≡ pass.old.answered }
        ensures full { IfErr result (λ e. e ≡ TraceFault.Full → IsFullFor 0 self.old) }
        ensures differ { IfErr result (λ e. e ≡ TraceFault.Stopped → PassDiffers self.old.journal pass.old.sight) }
        ensures err { OnErr result ((self.new ≡ self.old) × (pass.new ≡ pass.old)) }
    {
        if !self.has_room(0) {
            return Err(TraceFault::Full);
        }
        match self.new_key(&packet) {
            None => {
                let quiet = ActorStep::silent(rt.alloc());
                self.note(rt, run, pass, delivery(number, packet), quiet)
            }
            Some(key) => {
                let first = FirstAnswer { key, number };
                self.note_answer(rt, run, pass, delivery(number, packet), first)
            }
        }
    }

    /// Begins the delivery of the packet of this number. Where there is no such packet, the pass sees all entries; where no actor takes
    /// it, the delivery is appended, and the first answer to a request is kept. Else nothing has changed, and the number of the actor
    /// is given. 50 where there is no room for the entry, 52 where the pass's token is not the trace's, 22 where there was no memory.
    pub fn open_delivery<W: Wait + AllocGlobal>(
        &mut self,
        rt: &W,
        run: &MarksOf<A, K>,
        pass: &mut Pass<K>,
        number: usize,
    ) -> Result<Opening, TraceFault>
        ensures done { IfOk result (λ o. o ≡ Opening.Done → Delivers number pass.old.sight pass.new.sight) }
        ensures seen { IfOk result (λ o. o ≡ Opening.Done → pass.new.sight.seen ≡ self.new.journal.entries) }
        ensures at { IfOk result (λ o. (n : ℕ) → o ≡ Opening.At n → (pass.new ≡ pass.old) × (self.new ≡ self.old)) }
        ensures within { IfOk result (λ o. (n : ℕ) → o ≡ Opening.At n → n < count_of K.numbers) }
        ensures answered { pass.new.answered ≡ pass.old.answered }
        ensures full { IfErr result (λ e. e ≡ TraceFault.Full → IsFullFor 0 self.old) }
        ensures differ { IfErr result (λ e. e ≡ TraceFault.Stopped → PassDiffers self.old.journal pass.old.sight) }
        ensures err { OnErr result ((self.new ≡ self.old) × (pass.new ≡ pass.old)) }
    {
        let Some(packet) = self.packets.get(number) else {
            self.look(rt, run, pass)?;
            return Ok(Opening::Done);
        };
        if let Some(actor) = place_of(run.setup(), packet.to) {
            return Ok(Opening::At(actor));
        }
        let Ok(packet) = packet_copy(rt.alloc(), packet) else {
            return Err(TraceFault::Memory);
        };
        self.note_delivery(rt, run, pass, number, packet)?;
        Ok(Opening::Done)
    }

    /// Books the delivery of the packet of this number to this actor, with room for its entry and for 2,048 packets. 52 where there is no
    /// such packet, it is not for this actor, or the pass's token is not the trace's; 50 where there is no room; 22 where there was no
    /// memory for a copy of the packet or for the marks.
    pub fn book_delivery<W: Wait + AllocGlobal>(
        &mut self,
        rt: &W,
        run: &MarksOf<A, K>,
        pass: &Pass<K>,
        actor: usize,
        number: usize,
    ) -> Result<BookedFor<A, K>, TraceFault>
        ensures input { IfOk result (λ b. b.event ≡ Deliver number) }
        ensures taken { IfOk result (λ b. takers_in K.numbers b ≡ one_at (Some actor)) }
        ensures packet { IfOk result (λ b. b.packet ≡ slice_get (sent_by self.old.journal.entries) number) }
        ensures entries { self.new.journal.entries ≡ self.old.journal.entries }
        ensures full { IfErr result (λ e. e ≡ TraceFault.Full → IsFullFor 2048 self.old) }
        ensures err { OnErr result (self.new ≡ self.old) }
    {
        let Some(packet) = self.packets.get(number) else {
            return Err(TraceFault::Stopped);
        };
        if place_of(run.setup(), packet.to) != Some(actor) {
            return Err(TraceFault::Stopped);
        }
        let Ok(packet) = packet_copy(rt.alloc(), packet) else {
            return Err(TraceFault::Memory);
        };
        self.book(rt, run, pass, actor, delivery(number, packet))
    }
}
