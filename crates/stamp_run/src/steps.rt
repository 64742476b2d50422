//! What is done while the guards of a cell and of the trace are lent.
ghost use Rattle.std.specs.Prelude.{◌≡◌, ◌⊎◌, [], ◌∷◌, ◌++◌, IfErr, OnErr, OnOk};
ghost use Rattle.stamp_traces.specs.Cells.{stopped_cell};
ghost use Rattle.stamp_traces.specs.Journals.{PassDiffers, StepDiffers};
ghost use Rattle.stamp_traces.specs.Traces.{LeavesAt, entry_of};
ghost use Rattle.world_steps.specs.ActorStep.{IsFew};
ghost use Rattle.stamp_run.specs.Passes.{PutsEvent};

use crate::booked::Announcement;
use crate::records::record;
use crate::run_marks::MarksOf;
use crate::run_pass::Pass;
use crate::trace::TraceOf;
use stamp_marks::Identity;
use stamp_traces::{Cell, CellStep, Timed, TraceFault, commit as commit_step};
use world_actors::ActorInput;
use world_steps::ActorStep;

/// The second of the two.
fn reply_of(given: (ActorInput, ActorStep)) -> ActorStep
    ensures { result ≡ given.1 }
{
    let (_, reply) = given;
    reply
}

/// Appends a step of the cell to the trace, with its packets, after all that the pass has seen, or stops the cell for good: then nothing
/// is appended, the booking stays, and 52 is answered. Takes no memory.
pub fn commit<A: Timed<ActorInput, ActorStep>, K: Identity>(
    cell: &mut Cell<A, ActorInput, ActorStep, K>,
    trace: &mut TraceOf<A, K>,
    run: &MarksOf<A, K>,
    pass: &mut Pass<K>,
    step: CellStep<A, ActorInput, ActorStep, K>,
    announcement: Announcement<K>,
) -> Result<(), TraceFault>
    requires of { (cell.old.number ≡ step.number) × (cell.old.actor ≡ step.state) }
    requires few { IsFew step.reply }
    requires logged { announcement ≡ step.event.event }
    ensures puts { OnOk result (PutsEvent pass.old.sight step.event.event pass.new.sight) }
    ensures seen { OnOk result (pass.new.sight.seen ≡ trace.new.journal.entries) }
    ensures appended { OnOk result (trace.new.journal.entries ≡ trace.old.journal.entries ++ entry_of pass.old.sight.number step ∷ []) }
    ensures found { OnOk result (LeavesAt A.goes (A.first K.numbers) trace.old.journal.entries cell.old.number step.was) }
    ensures leaves { OnOk result (LeavesAt A.goes (A.first K.numbers) trace.new.journal.entries cell.new.number cell.new.actor) }
    ensures kept { OnOk result (cell.new ≡ cell.old) }
    ensures answered { pass.new.answered ≡ pass.old.answered }
    ensures differ { IfErr result (λ e. e ≡ TraceFault.Stopped → StepDiffers trace.old.journal step ⊎ PassDiffers trace.old.journal pass.old.sight) }
    ensures err { OnErr result ((trace.new ≡ trace.old) × (pass.new ≡ pass.old) × (cell.new ≡ stopped_cell cell.old)) }
{
    let Announcement {
        prefix,
        logged,
        of: _,
    } = announcement;
    let journal = &mut trace.journal;
    let given = match commit_step(cell, journal, run.marks(), &mut pass.pass, step, prefix) {
        Ok(given) => given,
        Err(fault) => return Err(fault),
    };
    let number = pass.pass.number();
    let reply = reply_of(given);
    record(&mut trace.packets, &mut trace.log, number, logged, reply);
    Ok(())
}
