//! What passes see of the trace, and what they are answered.
ghost use Rattle.std.specs.Prelude.{◌≡◌, ◌≢◌, [], ◌∷◌, ◌++◌, IfErr, IfNone, IfOk, IfSome, MatchBool, OnErr, OnOk, None, Some, slice_get, true};
ghost use Rattle.stamp_traces.specs.Journals.{PassDiffers, with_look};
ghost use Rattle.stamp_traces.specs.Passes.{PassLooks, PassStands};
ghost use Rattle.laws_traces.specs.Traces.{sent_by};
ghost use Rattle.stamp_run.specs.Answers.{answer_in, answer_of, outcome_at};
ghost use Rattle.stamp_run.specs.Passes.{AreAnswers};

use crate::run_marks::MarksOf;
use crate::run_pass::Pass;
use crate::trace::TraceOf;
use stamp_answers::{Answer, Ticket, outcome_of};
use stamp_marks::Identity;
use stamp_traces::{Timed, TraceFault};
use std::alloc::Global;
use std::sync::Wait;
use world_actors::ActorInput;
use world_copies::body as body_copy;
use world_steps::ActorStep;

impl<A: Timed<ActorInput, ActorStep>, K: Identity> TraceOf<A, K> {
    /// Shows the pass all entries. 52 where its token is not the trace's, else 22 where there was no memory for the mark.
    pub fn look<W: Wait>(
        &mut self,
        rt: &W,
        run: &MarksOf<A, K>,
        pass: &mut Pass<K>,
    ) -> Result<(), TraceFault>
        ensures looks { OnOk result (PassLooks pass.old.sight pass.new.sight) }
        ensures seen { OnOk result (pass.new.sight.seen ≡ self.new.journal.entries) }
        ensures answered { pass.new.answered ≡ pass.old.answered }
        ensures ok { OnOk result (self.new ≡ record self.old { journal = with_look self.old.journal pass.new.sight }) }
        ensures room { IfErr result (λ e. e ≢ TraceFault.Full) }
        ensures differ { IfErr result (λ e. e ≡ TraceFault.Stopped → PassDiffers self.old.journal pass.old.sight) }
        ensures err { OnErr result ((self.new ≡ self.old) × (pass.new ≡ pass.old)) }
    {
        self.journal.look(rt, run.marks(), &mut pass.pass)
    }

    /// Whether the pass's token is the trace's; takes no memory.
    pub fn stands(&self, run: &MarksOf<A, K>, pass: &Pass<K>) -> bool
        ensures stands { MatchBool result (PassStands self.now.journal.entries pass.now.sight) (PassDiffers self.now.journal pass.now.sight) }
        ensures answers { result ≡ true → AreAnswers self.now.journal.entries pass.now.answered }
    {
        self.journal.stands(run.marks(), &pass.pass)
    }

    /// The answer that the packet of this number is.
    fn body_at(&self, alloc: Global, number: usize) -> Result<Option<Answer>, TraceFault>
        ensures body { IfOk result (λ o. o ≡ answer_of (slice_get (sent_by self.now.journal.entries) number)) }
        ensures memory { IfErr result (λ e. e ≡ TraceFault.Memory) }
    {
        let Some(packet) = self.packets.get(number) else {
            return Ok(None);
        };
        match body_copy(alloc, &packet.body) {
            Ok(body) => Ok(Some(Answer::Body(body))),
            Err(_full) => Err(TraceFault::Memory),
        }
    }

    /// Whether the event at this place was taken, or why it was refused.
    fn outcome_at(&self, place: usize) -> Option<Answer>
        ensures { result ≡ outcome_at (slice_get self.now.journal.entries place) }
    {
        match self.log.get(place) {
            None => None,
            Some(entry) => Some(outcome_of(entry.refusal)),
        }
    }

    /// What the trace answers a ticket. An error is out of memory (22).
    fn find_answer(&self, alloc: Global, ticket: &Ticket) -> Result<Option<Answer>, TraceFault>
        ensures answer { IfOk result (λ o. o ≡ answer_in ticket.now self.now.journal.entries) }
        ensures memory { IfErr result (λ e. e ≡ TraceFault.Memory) }
    {
        match ticket {
            Ticket::Event { place } => Ok(self.outcome_at(*place)),
            Ticket::Request { key } => match self.answers.number(key) {
                None => Ok(None),
                Some(number) => self.body_at(alloc, number),
            },
            Ticket::Unanswered => Ok(None),
        }
    }

    /// What the trace answers a ticket, which the pass then has been answered; none where there is no answer yet. The pass has seen all.
    /// 22 where there was no memory for the answer or for the mark, and 52 where the pass's token is not the trace's.
    pub fn answer<W: Wait + AllocGlobal>(
        &mut self,
        rt: &W,
        run: &MarksOf<A, K>,
        pass: &mut Pass<K>,
        ticket: &Ticket,
    ) -> Result<Option<Answer>, TraceFault>
        ensures some { IfOk result (λ o. IfSome o (λ a. (answer_in ticket.now pass.new.sight.seen ≡ Some a) × (pass.new.answered ≡ pass.old.answered ++ (ticket.now, a) ∷ []))) }
        ensures none { IfOk result (λ o. IfNone o ((answer_in ticket.now pass.new.sight.seen ≡ None) × (pass.new.answered ≡ pass.old.answered))) }
        ensures looks { OnOk result (PassLooks pass.old.sight pass.new.sight) }
        ensures seen { OnOk result (pass.new.sight.seen ≡ self.new.journal.entries) }
        ensures ok { OnOk result (self.new ≡ record self.old { journal = with_look self.old.journal pass.new.sight }) }
        ensures room { IfErr result (λ e. e ≢ TraceFault.Full) }
        ensures differ { IfErr result (λ e. e ≡ TraceFault.Stopped → PassDiffers self.old.journal pass.old.sight) }
        ensures err { OnErr result ((self.new ≡ self.old) × (pass.new ≡ pass.old)) }
    {
        let answer = self.find_answer(rt.alloc(), ticket)?;
        self.look(rt, run, pass)?;
        if let Some(answer) = &answer {
            pass.keep_answer(ticket, answer);
        }
        Ok(answer)
    }
}
