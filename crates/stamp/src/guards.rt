//! What is done while the guards of a cell and of the trace are lent.
ghost use Rattle.std.specs.Prelude.{◌≡◌, ◌+◌, IfOk, OnErr, true};
ghost use Rattle.model_streams.specs.declared.event.Event.TheVariants.{Moment};
ghost use Rattle.world_actors.specs.Inputs.{nobody, takers_in};
ghost use Rattle.world_steps.specs.ActorStep.{IsFew};
ghost use Rattle.world_actors.specs.Actors.{is_stopped};
ghost use Rattle.stamp.specs.Handling.{IsRequestOf, PutsAt, told};
ghost use Rattle.stamp.specs.Moments.{IsMomentOf};

use crate::fault::StampFault;
use crate::stamp::RunCell;
use model_streams::Event;
use stamp_marks::Identity;
use stamp_run::{Announcement, Booked, BookedMoment, Pass, RunMarks, Trace, commit};
use stamp_traces::{CellStep, TraceFault};
use std::alloc::Global;
use std::sync::Wait;
use world_actors::{ActorInput, RunActor};
use world_steps::ActorStep;

/// A step on its way from its cell to the trace, with what it is told with.
pub(crate) struct Stepped<K: Identity> {
    pub step: CellStep<RunActor, ActorInput, ActorStep, K>,
    pub announcement: Announcement<K>,
}

/// Whether the actor of the cell has stopped, and the event does not have it come back.
pub(crate) fn has_stopped_for<K: Identity>(cell: &RunCell<K>, event: &Event) -> bool
    ensures { result ≡ true → is_stopped cell.now.actor ≡ true }
{
    cell.actor().is_stopped() && !matches!(event, Event::Restart { .. })
}

/// Has the actor of a cell take what was booked for it.
pub(crate) fn step_booked<K: Identity>(
    cell: &mut RunCell<K>,
    alloc: Global,
    run: &RunMarks<K>,
    booked: Booked<K>,
) -> Result<Stepped<K>, TraceFault>
    ensures of { IfOk result (λ s. (cell.new.number ≡ s.step.number) × (cell.new.actor ≡ s.step.state)) }
    ensures event { IfOk result (λ s. (s.step.event ≡ booked) × (s.announcement ≡ booked.event)) }
    ensures few { IfOk result (λ s. IsFew s.step.reply) }
{
    let Booked {
        mark,
        input,
        announcement,
    } = booked;
    match cell.step(alloc, &run.marks().events, mark, input) {
        Ok(step) => Ok(Stepped { step, announcement }),
        Err(fault) => Err(fault),
    }
}

/// Appends a step of the cell to the trace, and answers its place, or stops the cell for good and gives the room back.
pub(crate) fn append<K: Identity>(
    cell: &mut RunCell<K>,
    trace: &mut Trace<K>,
    run: &RunMarks<K>,
    pass: &mut Pass<K>,
    stepped: Stepped<K>,
) -> Result<usize, StampFault>
    requires of { (cell.old.number ≡ stepped.step.number) × (cell.old.actor ≡ stepped.step.state) }
    requires announced { stepped.announcement ≡ stepped.step.event.event }
    requires few { IsFew stepped.step.reply }
    ensures puts { IfOk result (PutsAt pass.old.sight stepped.step.event.event pass.new.sight) }
    ensures answered { pass.new.answered ≡ pass.old.answered }
    ensures err { OnErr result (pass.new ≡ pass.old) }
{
    let Stepped { step, announcement } = stepped;
    match commit(cell, trace, run, pass, step, announcement) {
        Ok(()) => Ok(trace.len().saturating_sub(1)),
        Err(fault) => {
            trace.unbook(cell.number());
            Err(StampFault::from(fault))
        }
    }
}

/// Shows a moment to the actor of a cell, which is the next one.
pub(crate) fn tick<K: Identity>(
    cell: &mut RunCell<K>,
    run: &RunMarks<K>,
    now: u64,
    mut booked: BookedMoment<K>,
) -> Result<BookedMoment<K>, StampFault>
    requires moment { IsMomentOf K.numbers now booked.moment }
    requires logged { booked.logged ≡ Moment now }
    ensures moment { IfOk result (λ b. IsMomentOf K.numbers now b.moment) }
    ensures logged { IfOk result (λ b. b.logged ≡ Moment now) }
{
    match cell.tick(&run.marks().events, &mut booked.moment) {
        Ok(()) => Ok(booked),
        Err(fault) => Err(StampFault::from(fault)),
    }
}

/// Appends a moment that the actors took, and answers its place.
pub(crate) fn append_moment<K: Identity>(
    trace: &mut Trace<K>,
    alloc: Global,
    run: &RunMarks<K>,
    pass: &mut Pass<K>,
    now: u64,
    booked: BookedMoment<K>,
) -> Result<usize, StampFault>
    requires moment { IsMomentOf K.numbers now booked.moment }
    requires logged { booked.logged ≡ Moment now }
    ensures puts { IfOk result (PutsAt pass.old.sight (Moment now) pass.new.sight) }
    ensures answered { pass.new.answered ≡ pass.old.answered }
    ensures err { OnErr result (pass.new ≡ pass.old) }
{
    let BookedMoment { moment, logged } = booked;
    match trace.append_moment(alloc, run, pass, moment, logged) {
        Ok(()) => Ok(trace.len().saturating_sub(1)),
        Err(fault) => Err(StampFault::from(fault)),
    }
}

/// Appends an event that no actor takes, and answers its place.
pub(crate) fn note<K: Identity, W: Wait + AllocGlobal>(
    trace: &mut Trace<K>,
    rt: &W,
    run: &RunMarks<K>,
    pass: &mut Pass<K>,
    request: Event,
) -> Result<usize, StampFault>
    requires nobody { takers_in K.numbers (told request) ≡ nobody }
    requires asks { IsRequestOf (pass.old.sight.number + 1) request }
    ensures puts { IfOk result (PutsAt pass.old.sight request pass.new.sight) }
    ensures answered { pass.new.answered ≡ pass.old.answered }
    ensures err { OnErr result (pass.new ≡ pass.old) }
{
    match trace.note_request(rt, run, pass, request) {
        Ok(()) => Ok(trace.len().saturating_sub(1)),
        Err(fault) => Err(StampFault::from(fault)),
    }
}
