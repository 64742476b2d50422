//! Moments, which the map and all servers take.
ghost use Rattle.std.specs.Prelude.{◌≡◌, ◌⊎◌, ◌-◌, ◌+◌, true, None, [], IfErr, IfOk, OnErr, OnOk};
ghost use Rattle.model_streams.specs.declared.event.Event.TheVariants.{Moment};
ghost use Rattle.stamp_traces.specs.Journals.{PassDiffers};
ghost use Rattle.stamp_traces.specs.Moments.{MomentDiffers};
ghost use Rattle.world_actors.specs.Inputs.{clock_readers, is_moment};
ghost use Rattle.world_actors.specs.Numbers.{count_of, nodes_in};
ghost use Rattle.world_steps.specs.ActorStep.{nothing};
ghost use Rattle.stamp_run.specs.Passes.{PutsEvent};
ghost use Rattle.stamp_run.specs.Traces.{IsFullFor};

use crate::booked_moment::BookedMomentOf;
use crate::logged_event::LoggedEvent;
use crate::records::record;
use crate::run_marks::MarksOf;
use crate::run_pass::Pass;
use crate::trace::{MOST_PACKETS, TraceOf};
use model_streams::Event;
use stamp_marks::Identity;
use stamp_traces::{MomentBooking, Timed, TraceFault};
use std::alloc::Global;
use std::sync::Wait;
use world_actors::{ActorInput, takers_of};
use world_steps::ActorStep;

impl<A: Timed<ActorInput, ActorStep>, K: Identity> TraceOf<A, K> {
    /// Books a moment, with room for its entry and for 2,048 packets. 52 where the trace has no such actors or the pass's token is not the
    /// trace's, 50 where there is no room, 22 where there was no memory.
    pub fn book_moment<W: Wait + AllocGlobal>(
        &mut self,
        rt: &W,
        run: &MarksOf<A, K>,
        pass: &Pass<K>,
        now: u64,
    ) -> Result<BookedMomentOf<A, K>, TraceFault>
        requires moment { A.is_moment (record { event = Moment now; packet = None }) }
        ensures moment { IfOk result (λ b. b.moment ≡ record { takers = clock_readers K.numbers; event = record { event = Moment now; packet = None }; left = count_of K.numbers - (nodes_in K.numbers + 1); steps = [] }) }
        ensures logged { IfOk result (λ b. b.logged ≡ Moment now) }
        ensures ok { OnOk result (self.new ≡ record self.old { journal = record self.old.journal { booked = self.old.journal.booked + 1 } }) }
        ensures full { IfErr result (λ e. e ≡ TraceFault.Full → IsFullFor 2048 self.old) }
        ensures err { OnErr result (self.new ≡ self.old) }
    {
        let input = ActorInput {
            event: Event::Moment { now },
            packet: None,
        };
        let Ok(logged) = LoggedEvent::copy_of(rt.alloc(), &input.event) else {
            return Err(TraceFault::Memory);
        };
        if !self.has_room(MOST_PACKETS) {
            return Err(TraceFault::Full);
        }
        let takers = takers_of(run.setup(), &input);
        let moment = self
            .journal
            .book_moment(rt, run.marks(), &pass.pass, takers, input)?;
        Ok(BookedMomentOf { moment, logged })
    }

    /// Gives the room of a moment's booking back.
    pub fn unbook_moment(&mut self)
        ensures { self.new ≡ record self.old { journal = record self.old.journal { booked = self.old.journal.booked - 1 } } }
    {
        self.journal.unbook_moment();
    }

    /// Appends a moment that all clock readers took, after all that the pass has seen; then the pass has seen all. 52, and nothing is
    /// appended, where a token of one of the steps or of the pass is not the trace's, or a step is still to come. The booking stays
    /// then. Takes no memory.
    pub fn append_moment(
        &mut self,
        alloc: Global,
        run: &MarksOf<A, K>,
        pass: &mut Pass<K>,
        moment: MomentBooking<A, ActorInput, ActorStep, K>,
        logged: LoggedEvent,
    ) -> Result<(), TraceFault>
        requires quiet { A.quiet ≡ nothing }
        requires takers { moment.takers ≡ clock_readers K.numbers }
        requires moment { is_moment moment.event.event ≡ true }
        requires bare { moment.event.packet ≡ None }
        requires logged { logged ≡ moment.event.event }
        ensures puts { OnOk result (PutsEvent pass.old.sight moment.event.event pass.new.sight) }
        ensures seen { OnOk result (pass.new.sight.seen ≡ self.new.journal.entries) }
        ensures answered { pass.new.answered ≡ pass.old.answered }
        ensures differ { IfErr result (λ e. e ≡ TraceFault.Stopped → MomentDiffers self.old.journal moment ⊎ PassDiffers self.old.journal pass.old.sight) }
        ensures few { IfErr result (λ e. (e ≡ TraceFault.Stopped) ⊎ (e ≡ TraceFault.Spent)) }
        ensures err { OnErr result ((self.new ≡ self.old) × (pass.new ≡ pass.old)) }
    {
        let quiet = ActorStep::silent(alloc);
        let appended = self
            .journal
            .append_moment(run.marks(), &mut pass.pass, moment, &quiet);
        if let Err(fault) = appended {
            return Err(fault);
        }
        let number = pass.pass.number();
        record(&mut self.packets, &mut self.log, number, logged, quiet);
        Ok(())
    }
}
