//! What is told of a trace, at any moment.
ghost use Rattle.std.specs.Prelude.{◌≡◌, IfOk, map, []};
ghost use Rattle.model_streams.specs.Honest.{Agree, Kept};
ghost use Rattle.model_partition.specs.Cluster.{AreUnmerged};
ghost use Rattle.model_partition.specs.Honest.{Honest};
ghost use Rattle.laws_traces.specs.Traces.{AreNumbers, IsLegalTrace, RunEntry, events_of, observed, sent_by};
ghost use Rattle.stamp_run.specs.Logs.{Logged};

use crate::log_entry::LogEntry;
use crate::trace::TraceOf;
use model_streams::Event;
use stamp_marks::Identity;
use stamp_traces::Timed;
use std::alloc::{AllocError, Global};
use wire::Packet;
use world_actors::{ActorInput, RunActor};
use world_steps::ActorStep;

/// The events of a log. An error is out of memory (22).
fn copy_events(alloc: Global, log: &[LogEntry]) -> Result<Vec<Event>, AllocError>
    ensures { IfOk result (λ v. v.items ≡ map (λ (l : Logged). l.event) log.now) }
{
    let mut events = Vec::new(alloc);
    for entry in log {
        events.push(entry.event.event(alloc)?)?;
    }
    Ok(events)
}

/// The passes of a log. An error is out of memory (22).
fn copy_passes(alloc: Global, log: &[LogEntry]) -> Result<Vec<usize>, AllocError>
    ensures { IfOk result (λ v. v.items ≡ map (λ (l : Logged). l.pass) log.now) }
{
    let mut passes = Vec::new(alloc);
    for entry in log {
        passes.push(entry.pass)?;
    }
    Ok(passes)
}

impl<K: Identity> TraceOf<RunActor, K> {
    /// All packets that were sent, in order. Whatever the trace holds is legal: so all that is shown of an extent agrees, every
    /// acknowledged append stands in it at its answered offset, and, where no event merges ranges, what is observed of tables replays.
    pub fn packets(&self) -> &[Packet]
        ensures packets { result.now ≡ sent_by self.now.journal.entries }
        ensures legal { IsLegalTrace K.numbers self.now.journal.entries }
        ensures agree { AreNumbers K.numbers → Agree (observed [] self.now.journal.entries) }
        ensures kept { AreNumbers K.numbers → Kept (observed [] self.now.journal.entries) }
        ensures honest { AreNumbers K.numbers → AreUnmerged (events_of self.now.journal.entries) → Honest (observed [] self.now.journal.entries) }
    {
        // Its clause says that the entries lead from the first actors.
        let _entries = self.journal.entries();
        self.packets.as_slice()
    }
}

impl<A: Timed<ActorInput, ActorStep>, K: Identity> TraceOf<A, K> {
    /// A copy of all events, and the pass that put each there, in order. An error is out of memory (22).
    pub fn copy_log(&self, alloc: Global) -> Result<(Vec<Event>, Vec<usize>), AllocError>
        ensures events { IfOk result (λ l. l.0.items ≡ events_of self.now.journal.entries) }
        ensures passes { IfOk result (λ l. l.1.items ≡ map (λ (x : RunEntry). x.pass) self.now.journal.entries) }
    {
        let events = copy_events(alloc, self.log.as_slice())?;
        let passes = copy_passes(alloc, self.log.as_slice())?;
        Ok((events, passes))
    }
}
