//! Events that no actor takes.
ghost use Rattle.std.specs.Prelude.{◌≡◌, ◌≢◌, ◌≤◌, ℕ, [], ◌∷◌, ◌++◌, None, IfErr, IfOk, OnErr, OnOk, length};
ghost use Rattle.model_streams.specs.declared.event.Event.TheVariants.{Deliver, Submit};
ghost use Rattle.stamp_answers.specs.declared.key.AnswerKey.{AnswerKey};
ghost use Rattle.stamp_traces.specs.Journals.{PassDiffers};
ghost use Rattle.stamp_traces.specs.Traces.{note_by};
ghost use Rattle.world_actors.specs.Inputs.{nobody, takers_in};
ghost use Rattle.laws_traces.specs.Traces.{IsLegalEntry, sent_by, unheard};
ghost use Rattle.stamp_run.specs.Answers.{first_number};
ghost use Rattle.stamp_run.specs.Passes.{PutsEvent};
ghost use Rattle.stamp_run.specs.Traces.{HasRoomFor, IsFullFor, packets_for};

use crate::logged_event::LoggedEvent;
use crate::planned::Planned;
use crate::records::record;
use crate::run_marks::MarksOf;
use crate::run_pass::Pass;
use crate::trace::{MOST_PACKETS, TraceOf};
use model_streams::Event;
use stamp_marks::Identity;
use stamp_traces::{Timed, TraceFault};
use std::alloc::{AllocError, Global};
use std::sync::Wait;
use wire::{ActorId, Body, Packet, Packets};
use world_actors::ActorInput;
use world_copies::request as request_copy;
use world_steps::ActorStep;

/// How many packets there must be room for before an event that is no delivery is appended: 1 for what a user submits, and else 2,048.
fn packets_for(event: &Event) -> usize
    ensures { result ≡ packets_for event.now }
{
    match event {
        Event::Submit { .. } => 1,
        _ => MOST_PACKETS,
    }
}

/// The packet of what a user submits, where users may ask it. An error is out of memory (22).
fn submitted(alloc: Global, user: u64, to: ActorId, body: &Body) -> Result<ActorStep, AllocError>
    ensures { IfOk result (λ step. step ≡ unheard (Submit user to body.now)) }
{
    let mut packets = Packets::new(alloc);
    if let Some(body) = request_copy(alloc, body)? {
        packets.push(Packet {
            from: ActorId::User(user),
            to,
            body,
        })?;
    }
    Ok(ActorStep::of_packets(alloc, packets))
}

/// What comes of an event that no actor takes: the packet of a request, and else nothing. An error is out of memory (22).
fn unheard(alloc: Global, event: &Event) -> Result<ActorStep, AllocError>
    ensures { IfOk result (λ step. step ≡ unheard event.now) }
{
    match event {
        Event::Submit { user, to, body } => submitted(alloc, *user, *to, body),
        _ => Ok(ActorStep::silent(alloc)),
    }
}

impl<A: Timed<ActorInput, ActorStep>, K: Identity> TraceOf<A, K> {
    /// Appends an event that no actor takes, and that brings no first answer.
    pub(crate) fn note<W: Wait>(
        &mut self,
        rt: &W,
        run: &MarksOf<A, K>,
        pass: &mut Pass<K>,
        planned: Planned,
        reply: ActorStep,
    ) -> Result<(), TraceFault>
        requires legal { IsLegalEntry K.numbers (sent_by self.old.journal.entries) (note_by pass.old.sight.number planned.input reply) }
        requires logged { planned.logged ≡ planned.input.event }
        requires answers { (k : AnswerKey) → first_number k (self.old.journal.entries ++ note_by pass.old.sight.number planned.input reply ∷ []) ≡ first_number k self.old.journal.entries }
        requires room { HasRoomFor (length reply.packets) self.old }
        ensures puts { OnOk result (PutsEvent pass.old.sight planned.input.event pass.new.sight) }
        ensures seen { OnOk result (pass.new.sight.seen ≡ self.new.journal.entries) }
        ensures answered { pass.new.answered ≡ pass.old.answered }
        ensures full { IfErr result (λ e. e ≢ TraceFault.Full) }
        ensures differ { IfErr result (λ e. e ≡ TraceFault.Stopped → PassDiffers self.old.journal pass.old.sight) }
        ensures err { OnErr result ((self.new ≡ self.old) × (pass.new ≡ pass.old)) }
    {
        self.journal
            .note(rt, run.marks(), &mut pass.pass, &planned.input, &reply)?;
        let number = pass.pass.number();
        let logged = planned.into_logged();
        record(&mut self.packets, &mut self.log, number, logged, reply);
        Ok(())
    }

    /// Appends an event that no actor takes and that is no delivery: what a user submits, with its packet where users may ask it, or what
    /// is for an actor that is not there. Then the pass has seen all. 50 where there is no room for the entry, or for the packet of a
    /// `Submit`, or for 2,048 of any other; 52 where the pass's token is not the trace's; 22 where there was no memory.
    pub fn note_request<W: Wait + AllocGlobal>(
        &mut self,
        rt: &W,
        run: &MarksOf<A, K>,
        pass: &mut Pass<K>,
        request: Event,
    ) -> Result<(), TraceFault>
        requires nobody { takers_in K.numbers (record { event = request; packet = None }) ≡ nobody }
        requires asks { (number : ℕ) → request ≢ Deliver number }
        ensures puts { OnOk result (PutsEvent pass.old.sight request pass.new.sight) }
        ensures seen { OnOk result (pass.new.sight.seen ≡ self.new.journal.entries) }
        ensures answered { pass.new.answered ≡ pass.old.answered }
        ensures full { IfErr result (λ e. e ≡ TraceFault.Full → IsFullFor (packets_for request) self.old) }
        ensures differ { IfErr result (λ e. e ≡ TraceFault.Stopped → PassDiffers self.old.journal pass.old.sight) }
        ensures err { OnErr result ((self.new ≡ self.old) × (pass.new ≡ pass.old)) }
    {
        let input = ActorInput {
            event: request,
            packet: None,
        };
        let Ok(logged) = LoggedEvent::copy_of(rt.alloc(), &input.event) else {
            return Err(TraceFault::Memory);
        };
        let Ok(reply) = unheard(rt.alloc(), &input.event) else {
            return Err(TraceFault::Memory);
        };
        if !self.has_room(packets_for(&input.event)) {
            return Err(TraceFault::Full);
        }
        self.note(rt, run, pass, Planned { input, logged }, reply)
    }
}
