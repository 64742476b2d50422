//! What users ask.
ghost use Rattle.std.specs.Prelude.{◌≡◌, ◌+◌, ◌-◌, [], ◌∷◌, ◌++◌, IfNone, IfOk, IfSome, OnErr, OnOk, None, Some, length};
ghost use Rattle.stamp_answers.specs.Tickets.{ticket_of};
ghost use Rattle.stamp_traces.specs.Passes.{PassLooks};
ghost use Rattle.stamp_run.specs.Answers.{answer_in};
ghost use Rattle.stamp_run.specs.Passes.{PutsEvent};
ghost use Rattle.world_actors.specs.Inputs.{nobody, one_at, takers_in};
ghost use Rattle.stamp.specs.Handling.{IsRequestOf, PutsAt, told};

use crate::fault::StampFault;
use crate::gate::Gate;
use crate::guards::{has_stopped_for, note};
use crate::handling::{Handling, handling_of, placed, told};
use crate::stamp::Stamp;
use model_streams::Event;
use stamp_answers::{Answer, Ticket, ticket_of};
use stamp_marks::Identity;
use stamp_run::Pass;
use std::sync::Wait;
use world_actors::actor_of;

impl<G: Gate + Drop, K: Identity> Stamp<G, K> {
    /// Puts a request into the trace, after all that the pass has seen, and answers with what its answer is asked for ([`Stamp::take`]).
    /// It is any event but a delivery. A `Submit`, which bears the number of the pass's user, sends its packet; any other event is
    /// taken by its actor at once, if that is there, and a moment by the map and all servers. 52 where the actor has stopped, for any
    /// event but a restart and a moment, or where the pass is not of this stamp, else 50 where the trace has no room for the event and
    /// for as many packets as it may send, which are 1 for a `Submit` and else 2,048, else 22 where there was no memory. Then the pass is
    /// as it was, and the trace has no event more.
    pub fn submit<W: Wait + AllocGlobal>(
        &self,
        rt: &W,
        pass: &mut Pass<K>,
        request: Event,
    ) -> Result<Ticket, StampFault>
        requires asks { IsRequestOf (pass.old.sight.number + 1) request }
        ensures ok { IfOk result (λ t. PutsEvent pass.old.sight request pass.new.sight × (t ≡ ticket_of (pass.old.sight.number + 1) request (length pass.new.sight.seen - 1))) }
        ensures answered { pass.new.answered ≡ pass.old.answered }
        ensures err { OnErr result (pass.new ≡ pass.old) }
    {
        let ticket = ticket_of(pass.user(), &request, 0);
        match self.put(rt, pass, request) {
            Ok(place) => Ok(placed(ticket, place)),
            Err(fault) => Err(fault),
        }
    }

    /// Puts a request into the trace, and answers its place.
    fn put<W: Wait + AllocGlobal>(
        &self,
        rt: &W,
        pass: &mut Pass<K>,
        request: Event,
    ) -> Result<usize, StampFault>
        requires asks { IsRequestOf (pass.old.sight.number + 1) request }
        ensures puts { IfOk result (PutsAt pass.old.sight request pass.new.sight) }
        ensures answered { pass.new.answered ≡ pass.old.answered }
        ensures err { OnErr result (pass.new ≡ pass.old) }
    {
        let input = told(request);
        match handling_of(self.run.setup(), &input) {
            Handling::Moment(now) => self.show(rt, pass, now),
            Handling::Nobody => self.send(rt, pass, input.event),
            Handling::One(actor) => self.call(rt, pass, actor, input.event),
        }
    }

    /// Puts an event into the trace that no actor takes, and answers its place.
    fn send<W: Wait + AllocGlobal>(
        &self,
        rt: &W,
        pass: &mut Pass<K>,
        request: Event,
    ) -> Result<usize, StampFault>
        requires nobody { takers_in K.numbers (told request) ≡ nobody }
        requires asks { IsRequestOf (pass.old.sight.number + 1) request }
        ensures puts { IfOk result (PutsAt pass.old.sight request pass.new.sight) }
        ensures answered { pass.new.answered ≡ pass.old.answered }
        ensures err { OnErr result (pass.new ≡ pass.old) }
    {
        let mut trace = self.trace.lock(rt);
        note(&mut trace, rt, &self.run, pass, request)
    }

    /// Has an actor take an event that is no delivery, and answers its place.
    fn call<W: Wait + AllocGlobal>(
        &self,
        rt: &W,
        pass: &mut Pass<K>,
        actor: usize,
        request: Event,
    ) -> Result<usize, StampFault>
        requires taker { takers_in K.numbers (told request) ≡ one_at (Some actor) }
        requires asks { IsRequestOf (pass.old.sight.number + 1) request }
        ensures puts { IfOk result (PutsAt pass.old.sight request pass.new.sight) }
        ensures answered { pass.new.answered ≡ pass.old.answered }
        ensures err { OnErr result (pass.new ≡ pass.old) }
    {
        let Some(lock) = self.cells.get(actor) else {
            return Err(StampFault::Stopped);
        };
        let mut cell = lock.lock(rt);
        if has_stopped_for(&cell, &request) {
            return Err(StampFault::Stopped);
        }
        let booked = self
            .trace
            .lock(rt)
            .book_request(rt, &self.run, pass, actor, request)?;
        self.gate.enter(actor_of(self.run.setup(), actor));
        self.act(rt, &mut cell, pass, booked)
    }

    /// What the trace answers to a request: to a `Submit` the body of the first packet that was delivered as its answer, and to any
    /// other event that it was taken, or why it was refused. None where it has no answer yet. Then the pass has seen that, and all
    /// else that the trace has. 52 where the pass is not of this stamp, else 22 where there was no memory; then the pass is as it was.
    pub fn take<W: Wait + AllocGlobal>(
        &self,
        rt: &W,
        pass: &mut Pass<K>,
        ticket: &Ticket,
    ) -> Result<Option<Answer>, StampFault>
        ensures some { IfOk result (λ o. IfSome o (λ a. (answer_in ticket.now pass.new.sight.seen ≡ Some a) × (pass.new.answered ≡ pass.old.answered ++ (ticket.now, a) ∷ []))) }
        ensures none { IfOk result (λ o. IfNone o ((answer_in ticket.now pass.new.sight.seen ≡ None) × (pass.new.answered ≡ pass.old.answered))) }
        ensures looks { OnOk result (PassLooks pass.old.sight pass.new.sight) }
        ensures err { OnErr result (pass.new ≡ pass.old) }
    {
        let answer = self.trace.lock(rt).answer(rt, &self.run, pass, ticket);
        match answer {
            Ok(answer) => Ok(answer),
            Err(fault) => Err(StampFault::from(fault)),
        }
    }
}
