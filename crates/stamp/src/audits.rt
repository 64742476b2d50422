//! What is seen of the whole trace at one time.
ghost use Rattle.std.specs.Prelude.{◌≡◌, ◌⊎◌, IfErr, IfOk, OnErr, OnOk};
ghost use Rattle.model_streams.specs.Honest.{Agree, Kept};
ghost use Rattle.model_partition.specs.Cluster.{AreUnmerged};
ghost use Rattle.model_partition.specs.Honest.{Honest};
ghost use Rattle.laws_traces.specs.Traces.{IsLegalTrace, events_of, first_cluster_of};
ghost use Rattle.stamp_traces.specs.Passes.{PassLooks};
ghost use Rattle.world.specs.Cluster.{ReachedBy};
ghost use Rattle.world_actors.specs.Numbers.{numbers_of};
ghost use Rattle.stamp.specs.Endings.{passes_of};

use crate::fault::StampFault;
use crate::gate::Gate;
use crate::stamp::Stamp;
use model_streams::Event;
use stamp_marks::Identity;
use stamp_run::{Pass, RunMarks, Trace};
use std::alloc::Global;
use std::sync::Wait;
use world::{Observation, Run, run};
use world_setup::Setup;

/// All events that a trace has, beside each the number of the pass that put it there, and the run of them.
pub struct Audit {
    pub events: Vec<Event>,
    pub passes: Vec<usize>,
    pub run: Run,
}

// Written out, so that a crate above that lets one go has no proof of what is in it.
impl Drop for Audit {
    fn drop(self) {
        let Audit {
            events: _,
            passes: _,
            run: _,
        } = self;
    }
}

impl Audit {
    /// What the events show, in order. All that is shown of an extent agrees, and every acknowledged append stands in it at its
    /// answered offset.
    pub fn observations(&self) -> &[Observation]
        ensures notes { result.now ≡ self.now.run.stream_layer.notes }
        ensures agree { Agree result.now }
        ensures kept { Kept result.now }
    {
        self.run.observations()
    }
}

/// All events of a trace, and beside each the number of the pass that put it there.
pub(crate) type Log = (Vec<Event>, Vec<usize>);

/// Shows the pass all that the trace has, and copies the events. 52 where the pass is not of this trace, else 22 where there was no
/// memory; then the pass is as it was, or has seen all.
fn copied<K: Identity, W: Wait + AllocGlobal>(
    trace: &mut Trace<K>,
    rt: &W,
    run: &RunMarks<K>,
    pass: &mut Pass<K>,
) -> Result<Log, StampFault>
    ensures events { IfOk result (λ l. l.0.items ≡ events_of pass.new.sight.seen) }
    ensures passes { IfOk result (λ l. l.1.items ≡ passes_of pass.new.sight.seen) }
    ensures looks { OnOk result (PassLooks pass.old.sight pass.new.sight) }
    ensures legal { OnOk result (IsLegalTrace K.numbers pass.new.sight.seen) }
    ensures answered { pass.new.answered ≡ pass.old.answered }
    ensures err { OnErr result ((pass.new ≡ pass.old) ⊎ PassLooks pass.old.sight pass.new.sight) }
{
    match trace.look(rt, run, pass) {
        Ok(()) => {}
        Err(fault) => return Err(StampFault::from(fault)),
    }
    // Asked for, so that the proof knows that the trace is legal.
    let _packets = trace.packets();
    match trace.copy_log(rt.alloc()) {
        Ok(log) => Ok(log),
        Err(_full) => Err(StampFault::Memory),
    }
}

/// The run of these events.
pub(crate) fn audit_of(alloc: Global, setup: &Setup, log: Log) -> Result<Audit, StampFault>
    ensures events { IfOk result (λ a. (a.events.items ≡ log.0.items) × (a.passes.items ≡ log.1.items)) }
    ensures run { IfOk result (λ a. ReachedBy a.events.items (first_cluster_of (numbers_of setup.now)) a.run) }
    ensures agree { IfOk result (λ a. Agree a.run.stream_layer.notes) }
    ensures kept { IfOk result (λ a. Kept a.run.stream_layer.notes) }
    ensures honest { IfOk result (λ a. AreUnmerged a.events.items → Honest a.run.stream_layer.notes) }
    ensures memory { IfErr result (λ e. e ≡ StampFault.Memory) }
{
    let (events, passes) = log;
    match run(alloc, setup, events.as_slice()) {
        Ok(run) => Ok(Audit {
            events,
            passes,
            run,
        }),
        Err(_full) => Err(StampFault::Memory),
    }
}

impl<G: Gate + Drop, K: Identity> Stamp<G, K> {
    /// All events of the trace so far, beside each the number of the pass that put it there, and what the run of them shows. They begin
    /// with all that the pass had seen, and the pass has then seen them. Only copies are made under the lock. 52 where the pass is not of
    /// this stamp, else 22 where there was no memory; then the pass is as it was, or has seen all.
    pub fn audit<W: Wait + AllocGlobal>(
        &self,
        rt: &W,
        pass: &mut Pass<K>,
    ) -> Result<Audit, StampFault>
        ensures events { IfOk result (λ a. a.events.items ≡ events_of pass.new.sight.seen) }
        ensures passes { IfOk result (λ a. a.passes.items ≡ passes_of pass.new.sight.seen) }
        ensures looks { OnOk result (PassLooks pass.old.sight pass.new.sight) }
        ensures legal { OnOk result (IsLegalTrace K.numbers pass.new.sight.seen) }
        ensures run { IfOk result (λ a. ReachedBy a.events.items (first_cluster_of K.numbers) a.run) }
        ensures agree { IfOk result (λ a. Agree a.run.stream_layer.notes) }
        ensures kept { IfOk result (λ a. Kept a.run.stream_layer.notes) }
        ensures honest { IfOk result (λ a. AreUnmerged a.events.items → Honest a.run.stream_layer.notes) }
        ensures answered { pass.new.answered ≡ pass.old.answered }
        ensures err { OnErr result ((pass.new ≡ pass.old) ⊎ PassLooks pass.old.sight pass.new.sight) }
    {
        let log = self.copied(rt, pass)?;
        audit_of(rt.alloc(), self.run.setup(), log)
    }

    /// The same as `copied`, under the lock.
    fn copied<W: Wait + AllocGlobal>(&self, rt: &W, pass: &mut Pass<K>) -> Result<Log, StampFault>
        ensures events { IfOk result (λ l. l.0.items ≡ events_of pass.new.sight.seen) }
        ensures passes { IfOk result (λ l. l.1.items ≡ passes_of pass.new.sight.seen) }
        ensures looks { OnOk result (PassLooks pass.old.sight pass.new.sight) }
        ensures legal { OnOk result (IsLegalTrace K.numbers pass.new.sight.seen) }
        ensures answered { pass.new.answered ≡ pass.old.answered }
        ensures err { OnErr result ((pass.new ≡ pass.old) ⊎ PassLooks pass.old.sight pass.new.sight) }
    {
        let mut trace = self.trace.lock(rt);
        copied(&mut trace, rt, &self.run, pass)
    }
}
