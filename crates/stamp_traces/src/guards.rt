//! What is done while the guards of a cell and of the trace are lent.
ghost use Rattle.std.specs.Prelude.{◌≡◌, ◌⊎◌, ◌<◌, true, false, [], ◌∷◌, ◌++◌, Some, OnOk, OnErr, IfErr, IfOk, slice_get};
ghost use Rattle.boxcar.specs.Table.{Shows};
ghost use Rattle.stamp_traces.specs.Cells.{booking_for, stopped_cell};
ghost use Rattle.stamp_traces.specs.Journals.{PassDiffers, StepDiffers, with_step};
ghost use Rattle.stamp_traces.specs.Passes.{PassPuts};
ghost use Rattle.stamp_traces.specs.Traces.{LeavesAt, entry_of, entry_by};

use crate::actor::Actor;
use crate::bookings::EventBooking;
use crate::cell::Cell;
use crate::cell_step::CellStep;
use crate::entry::Entry;
use crate::fault::TraceFault;
use crate::journal::Journal;
use crate::pass::Pass;
use stamp_marks::{Booking, Identity, Marks, Prefix};
use std::alloc::Global;
use std::sync::Wait;

/// Appends a step of the cell to the trace, or stops the cell for good: then nothing is appended, and 52 is answered.
pub fn commit<A: Actor<E, R>, E: Drop, R: Drop, K: Identity>(
    cell: &mut Cell<A, E, R, K>,
    journal: &mut Journal<A, E, R, K>,
    marks: &Marks<E, A, Entry<E, R>>,
    pass: &mut Pass<E, R, K>,
    step: CellStep<A, E, R, K>,
    booking: Booking<usize, Prefix<Entry<E, R>>>,
) -> Result<(E, R), TraceFault>
    requires named { (marks.now.events ≡ K.events) × (marks.now.prefixes ≡ K.prefixes) }
    requires booked { Shows K.prefixes booking }
    requires of { (cell.old.number ≡ step.number) × (cell.old.actor ≡ step.state) }
    ensures appended { OnOk result (journal.new ≡ with_step journal.old step pass.new) }
    ensures reply { IfOk result (λ p. (p.0 ≡ step.event) × (p.1 ≡ step.reply)) }
    ensures event { OnOk result (slice_get journal.old.bookings step.number ≡ Some (Some (booking_for step))) }
    ensures booked { OnOk result (0 < journal.old.booked) }
    ensures found { OnOk result (LeavesAt A.goes (A.first K.numbers) journal.old.entries cell.old.number step.was) }
    ensures leaves { OnOk result (LeavesAt A.goes (A.first K.numbers) journal.new.entries cell.new.number cell.new.actor) }
    ensures kept { OnOk result (cell.new ≡ cell.old) }
    ensures puts { OnOk result (PassPuts pass.old (entry_of pass.old.number step) pass.new) }
    ensures seen { OnOk result (pass.new.seen ≡ journal.new.entries) }
    ensures differ { IfErr result (λ e. e ≡ TraceFault.Stopped → StepDiffers journal.old step ⊎ PassDiffers journal.old pass.old) }
    ensures err { OnErr result ((journal.new ≡ journal.old) × (pass.new ≡ pass.old) × (cell.new ≡ stopped_cell cell.old)) }
{
    match journal.append(marks, pass, step, booking) {
        Ok(given) => Ok(given),
        Err(fault) => {
            cell.stop();
            Err(fault)
        }
    }
}

/// Has the actor of a cell take an event, from the state in which the trace's earlier events leave it, and appends it.
pub fn act<A: Actor<E, R>, E: Drop, R: Drop, K: Identity, W: Wait + AllocGlobal>(
    cell: &mut Cell<A, E, R, K>,
    journal: &mut Journal<A, E, R, K>,
    rt: &W,
    marks: &Marks<E, A, Entry<E, R>>,
    pass: &mut Pass<E, R, K>,
    event: E,
) -> Result<(E, R), TraceFault>
    requires named { (marks.now.events ≡ K.events) × (marks.now.prefixes ≡ K.prefixes) }
    ensures found { OnOk result (LeavesAt A.goes (A.first K.numbers) journal.old.entries cell.old.number cell.old.actor) }
    ensures goes { IfOk result (λ p. A.goes cell.old.actor event cell.new.actor p.1) }
    ensures appended { IfOk result (λ p. journal.new.entries ≡ journal.old.entries ++ entry_by pass.old.number cell.old.number event p.1 ∷ []) }
    ensures leaves { OnOk result (LeavesAt A.goes (A.first K.numbers) journal.new.entries cell.new.number cell.new.actor) }
    ensures running { OnOk result (cell.old.halted ≡ false) }
    ensures seen { OnOk result (pass.new.seen ≡ journal.new.entries) }
    ensures err { OnErr result ((journal.new.entries ≡ journal.old.entries) × (journal.new.booked ≡ journal.old.booked) × (pass.new ≡ pass.old)) }
    ensures cell { OnErr result ((cell.new ≡ cell.old) ⊎ (cell.new.halted ≡ true)) }
{
    let number = cell.number();
    let EventBooking {
        event: mark,
        prefix,
    } = journal.book(rt, marks, pass, number, &event)?;
    match cell.step(rt.alloc(), &marks.events, mark, event) {
        Ok(step) => match commit(cell, journal, marks, pass, step, prefix) {
            Ok(given) => Ok(given),
            Err(fault) => {
                journal.unbook(number);
                Err(fault)
            }
        },
        Err(fault) => {
            journal.unbook(number);
            Err(fault)
        }
    }
}
