//! An actor in its cell.
ghost use Rattle.std.specs.Prelude.{◌≡◌, ◌≢◌, ◌⊎◌, ◌+◌, true, false, Some, None, [], ◌∷◌, ◌++◌, IfOk, IfErr, OnErr, OnOk, length};
ghost use Rattle.boxcar.specs.Table.{Shows};
ghost use Rattle.stamp_marks.specs.Tokens.{IsOf};
ghost use Rattle.stamp_traces.specs.Cells.{stopped_cell};
ghost use Rattle.stamp_traces.specs.Moments.{AddsStep};
ghost use Rattle.stamp_traces.specs.Shown.{shown_by};

use crate::actor::{Actor, Timed};
use crate::cell_step::CellStep;
use crate::fault::TraceFault;
use crate::moment_booking::MomentBooking;
use crate::moment_step::MomentStep;
use stamp_marks::{Booking, History, Identity, MarkList, Token, with_event};
use std::alloc::Global;
use std::marker::{Model, PhantomData};
use std::snapshot::Snapshot;

/// An actor, with a token of its history, none while it has taken nothing.
#[derive(Drop)]
pub struct Cell<A: Actor<E, R>, E: Drop, R: Drop, K: Identity> {
    number: usize,
    actor: A,
    token: Option<Token<E, History<E, A>>>,
    halted: bool,
    of: PhantomData<(R, K)>,
}

impl<A: Actor<E, R>, E: Drop, R: Drop, K: Identity> Model for Cell<A, E, R, K> {
    ghost use Rattle.std.specs.Prelude.{◌≡◌, false};
    ghost use Rattle.stamp_marks.specs.Tokens.{index_of, IsOf};
    ghost use Rattle.stamp_marks.specs.Histories.{state_after};
    ghost use Rattle.stamp_traces.specs.Shown.{shown_by};
    ghost use Rattle.stamp_traces.specs.Cells.{CellState};

    ghost Value = { CellState A E };

    ghost view = { λ c. record { number = c.number; actor = c.actor; events = shown_by c.token; index = index_of c.token; halted = c.halted } };

    ghost invariant = { λ c. IsOf c.token K.events × (c.halted ≡ false → c.actor ≡ state_after (A.first K.numbers c.number) (shown_by c.token)) };
}

/// The history that a token shows, with one event more.
fn next_history<E, S>(
    marks: &MarkList<E, History<E, S>>,
    token: &Option<Token<E, History<E, S>>>,
    event: &E,
    state: &S,
) -> Snapshot<History<E, S>>
    requires { IsOf token.now marks.now }
    ensures { result.value ≡ shown_by token.now ++ (event.now, state.now) ∷ [] }
{
    let earlier = match token {
        None => None,
        Some(token) => Some(marks.value(token)),
    };
    with_event(earlier, event, state)
}

impl<A: Actor<E, R>, E: Drop, R: Drop, K: Identity> Cell<A, E, R, K> {
    /// The cell of an actor that has taken nothing.
    pub fn new(number: usize, actor: A) -> Cell<A, E, R, K>
        requires { actor ≡ A.first K.numbers number }
        ensures { result ≡ record { number = number; actor = actor; events = []; index = None; halted = false } }
    {
        Cell {
            number,
            actor,
            token: None,
            halted: false,
            of: PhantomData,
        }
    }

    /// The number of its actor.
    pub fn number(&self) -> usize
        ensures { result ≡ self.now.number }
    {
        self.number
    }

    /// The actor as it is now.
    pub fn actor(&self) -> &A
        ensures { result.now ≡ self.now.actor }
    {
        &self.actor
    }

    /// Lets the actor take an event, and fixes its history at the mark that was booked for it. 52 where the cell is stopped.
    pub fn step(
        &mut self,
        alloc: Global,
        marks: &MarkList<E, History<E, A>>,
        booking: Booking<E, History<E, A>>,
        event: E,
    ) -> Result<CellStep<A, E, R, K>, TraceFault>
        requires named { marks.now ≡ K.events }
        requires booked { Shows marks.now booking × (booking.value.subject.value ≡ event) }
        ensures step { IfOk result (λ s. (s.number ≡ self.old.number) × (s.event ≡ event) × (s.before ≡ self.old.events) × (s.index ≡ self.old.index) × (s.was ≡ self.old.actor) × (s.state ≡ self.new.actor) × (s.mark ≡ booking.index)) }
        ensures goes { IfOk result (λ s. A.goes self.old.actor event self.new.actor s.reply) }
        ensures ok { OnOk result ((self.new.number ≡ self.old.number) × (self.new.events ≡ self.old.events ++ (event, self.new.actor) ∷ []) × (self.new.index ≡ Some booking.index) × (self.new.halted ≡ false)) }
        ensures running { OnOk result (self.old.halted ≡ false) }
        ensures err { OnErr result ((self.new ≡ self.old) ⊎ (self.new.halted ≡ true)) }
    {
        if self.halted {
            return Err(TraceFault::Stopped);
        }
        let reply = self.actor.step(alloc, &event)?;
        let history = next_history(marks, &self.token, &event, &self.actor);
        let Some(after) = marks.fix(booking, history) else {
            self.halted = true;
            return Err(TraceFault::Spent);
        };
        let before = self.token.replace(after.again());
        Ok(CellStep {
            number: self.number,
            event,
            reply,
            before,
            after,
            state: Snapshot::of(&self.actor),
            of: PhantomData,
        })
    }

    /// Stops the cell for good.
    pub fn stop(&mut self)
        ensures { self.new ≡ stopped_cell self.old }
    {
        self.halted = true;
    }
}

impl<A: Timed<E, R>, E: Drop, R: Drop, K: Identity> Cell<A, E, R, K> {
    /// Lets the actor take the event of a moment, fixes its history at one of the moment's marks, and adds its step to the moment's.
    /// 52 where the cell is stopped, or its actor is not the one that takes the event next.
    pub fn tick(
        &mut self,
        marks: &MarkList<E, History<E, A>>,
        moment: &mut MomentBooking<A, E, R, K>,
    ) -> Result<(), TraceFault>
        requires named { marks.now ≡ K.events }
        ensures step { OnOk result (AddsStep moment.old self.old moment.new self.new) }
        ensures goes { OnOk result (A.goes self.old.actor moment.old.event self.new.actor A.quiet) }
        ensures ok { OnOk result ((self.new.number ≡ self.old.number) × (self.new.events ≡ self.old.events ++ (moment.old.event, self.new.actor) ∷ []) × (self.new.halted ≡ false)) }
        ensures running { OnOk result (self.old.halted ≡ false) }
        ensures turn { OnOk result (self.old.number ≡ moment.old.takers.first + length moment.old.steps) }
        ensures differ { IfErr result (λ e. e ≡ TraceFault.Stopped → (self.old.halted ≡ true) ⊎ ((self.old.number ≢ moment.old.takers.first + length moment.old.steps) ⊎ (moment.old.left ≡ 0))) }
        ensures few { IfErr result (λ e. (e ≡ TraceFault.Stopped) ⊎ (e ≡ TraceFault.Spent)) }
        ensures err { OnErr result (((self.new ≡ self.old) × (moment.new ≡ moment.old)) ⊎ (self.new.halted ≡ true)) }
    {
        if self.halted || !moment.is_next(self.number) {
            return Err(TraceFault::Stopped);
        }
        let Some(booking) = moment.marks.pop() else {
            return Err(TraceFault::Stopped);
        };
        self.actor.tick(&moment.event);
        let history = next_history(marks, &self.token, &moment.event, &self.actor);
        let Some(after) = marks.fix(booking, history) else {
            self.halted = true;
            return Err(TraceFault::Spent);
        };
        let before = self.token.replace(after.again());
        moment.steps.push_reserved(MomentStep {
            number: self.number,
            before,
            after,
            state: Snapshot::of(&self.actor),
        });
        Ok(())
    }
}
