//! What is left of a stamp that no thread uses any more.
ghost use Rattle.std.specs.Prelude.{◌≡◌, IfErr, IfOk, MatchBool, true};
ghost use Rattle.model_streams.specs.Honest.{Agree, Kept};
ghost use Rattle.model_partition.specs.Cluster.{AreUnmerged};
ghost use Rattle.model_partition.specs.Honest.{Honest};
ghost use Rattle.laws_traces.specs.Traces.{first_cluster_of};
ghost use Rattle.world.specs.Cluster.{ReachedBy};
ghost use Rattle.stamp.specs.Endings.{AllAnswered, AllStand, HasStray, IsTraceOf};

use crate::audits::{Audit, audit_of};
use crate::fault::StampFault;
use crate::gate::Gate;
use crate::stamp::Stamp;
use stamp_marks::Identity;
use stamp_run::{Pass, RunMarks, Trace};
use std::alloc::Global;

/// All events of a finished trace, beside each the number of the pass that put it there, and the run of them.
pub type FinalTrace = Audit;

/// Whether all passes are of this trace, each as it is now.
fn all_stand<K: Identity>(trace: &Trace<K>, run: &RunMarks<K>, passes: &[Pass<K>]) -> bool
    ensures stand { MatchBool result (AllStand trace.now.journal.entries passes.now) (HasStray trace.now.journal passes.now) }
    ensures answered { result ≡ true → AllAnswered trace.now.journal.entries passes.now }
{
    for pass in passes {
        if !trace.stands(run, pass) {
            return false;
        }
    }
    true
}

/// The whole trace, in which these passes stand. 52 where one of them is not of this trace, else 22 where there was no memory.
fn ended<K: Identity>(
    trace: &Trace<K>,
    alloc: Global,
    run: &RunMarks<K>,
    passes: &[Pass<K>],
) -> Result<FinalTrace, StampFault>
    ensures of { IfOk result (λ f. IsTraceOf K.numbers passes.now f.events.items f.passes.items) }
    ensures run { IfOk result (λ f. ReachedBy f.events.items (first_cluster_of K.numbers) f.run) }
    ensures agree { IfOk result (λ f. Agree f.run.stream_layer.notes) }
    ensures kept { IfOk result (λ f. Kept f.run.stream_layer.notes) }
    ensures honest { IfOk result (λ f. AreUnmerged f.events.items → Honest f.run.stream_layer.notes) }
    ensures differ { IfErr result (λ e. e ≡ StampFault.Stopped → HasStray trace.now.journal passes.now) }
{
    if !all_stand(trace, run, passes) {
        return Err(StampFault::Stopped);
    }
    // Asked for, so that the proof knows that the trace is legal.
    let _packets = trace.packets();
    match trace.copy_log(alloc) {
        Ok(log) => audit_of(alloc, run.setup(), log),
        Err(_full) => Err(StampFault::Memory),
    }
}

impl<G: Gate + Drop, K: Identity> Stamp<G, K> {
    /// The whole trace, once no thread uses the stamp. Of each pass handed in, the trace begins with what it had seen and has just what
    /// it put there; and each answer that it took is the trace's. The shelf is let go. 52 where a pass is not of this stamp, else 22 where
    /// there was no memory.
    pub fn finish(self, alloc: Global, passes: Vec<Pass<K>>) -> Result<FinalTrace, StampFault>
        ensures of { IfOk result (λ f. IsTraceOf K.numbers passes.items f.events.items f.passes.items) }
        ensures run { IfOk result (λ f. ReachedBy f.events.items (first_cluster_of K.numbers) f.run) }
        ensures agree { IfOk result (λ f. Agree f.run.stream_layer.notes) }
        ensures kept { IfOk result (λ f. Kept f.run.stream_layer.notes) }
        ensures honest { IfOk result (λ f. AreUnmerged f.events.items → Honest f.run.stream_layer.notes) }
    {
        let (run, trace) = self.into_trace();
        ended(&trace, alloc, &run, passes.as_slice())
    }
}
