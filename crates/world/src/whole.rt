//! Whole runs.
ghost use Rattle.std.specs.Prelude.{◌≡◌, IfOk};
ghost use Rattle.model_streams.specs.Honest.{Agree, Kept};
ghost use Rattle.model_partition.specs.Cluster.{AreUnmerged, cluster_after_all, first_cluster};
ghost use Rattle.model_partition.specs.Honest.{Honest};
ghost use Rattle.world.specs.Cluster.{ReachedBy};

// A function and a type of one module may not differ in case alone.
use crate::running::Run as Finished;
use model_streams::Event;
use std::alloc::Global;
use world_streams::{Setup, WorldFault};

/// The run of these events, from the start of a setup. An error is out of memory (22). It is what the events make of the
/// model's cluster, and nothing else. Whatever was delivered, again and in any order, and whatever was split or merged, all that is
/// shown of an extent agrees, and every acknowledged append stands in it at its answered offset. Where no event merges ranges,
/// whatever is split, what is observed of tables replays too: each table that is loaded is, within the range's keys, that of a line
/// of transactions that has every one that was acknowledged under an earlier generation, of the range or of one that it was split
/// from, in order, each once; and each Get that is answered shows what is stored under its key after every transaction that was
/// acknowledged so far.
pub fn run(alloc: Global, setup: &Setup, events: &[Event]) -> Result<Finished, WorldFault>
    ensures led { IfOk result (λ r. ReachedBy events.now (first_cluster setup.now.nodes setup.now.servers setup.now.target setup.now.batch) r) }
    // what it shows is what the events make of the model's cluster
    ensures shown { IfOk result (λ r. r.stream_layer.notes
        ≡ (cluster_after_all (first_cluster setup.now.nodes setup.now.servers setup.now.target setup.now.batch) events.now).stream_layer.notes) }
    ensures agree { IfOk result (λ r. Agree r.stream_layer.notes) }
    ensures kept { IfOk result (λ r. Kept r.stream_layer.notes) }
    ensures honest { IfOk result (λ r. AreUnmerged events.now → Honest r.stream_layer.notes) }
{
    let mut made = Finished::start(alloc, setup)?;
    for event in events {
        made.step(alloc, event)?;
    }
    Ok(made)
}
