//! How one event of a run happens, and what is printed of it.
ghost use Rattle.std.specs.Prelude.{◌≡◌, IfErr, IfOk, OnOk, Some, option_map};
ghost use Rattle.script_reports.specs.declared.report.Report.TheVariants.{Refused};
ghost use Rattle.script_run.specs.Failures.{IsRunFailure};
ghost use Rattle.script_run.specs.Output.{Prints, PrintsEvent, node_report, replica_report, standing_of};
ghost use Rattle.enode.specs.Node.{find};
ghost use Rattle.world_streams.specs.Nodes.{running_at};
ghost use Rattle.model_streams.specs.Node.{contents};
ghost use Rattle.model_streams.specs.declared.event.Event.TheVariants as events;
ghost use Rattle.replica.specs.State.{content_of};
ghost use Rattle.world.specs.Cluster.{ClusterSimulates, refusal_of};

use crate::error::Failure;
use crate::printing::{print_since, print_some};
use disk::MemDisk;
use enode::Node;
use replica::{Phase, Replica};
use script_reports::{Report, ShortLine, Standing};
use std::alloc::Global;
use std::io::Write;
use wire::ExtentId;
use world::{Event, Run};

/// The event happens, and what is printed where it is refused. It is handed over whole, since one that lives on is dropped
/// at each exit.
fn step(run: &mut Run, alloc: Global, event: Event) -> Result<Option<Report>, Failure>
    ensures came { OnOk result (ClusterSimulates run.old run.new event) }
    ensures refusal { IfOk result (λ report. report ≡ option_map Refused (refusal_of run.old event)) }
    ensures failed { IfErr result IsRunFailure }
{
    let refusal = run.advance(alloc, &event)?;
    Ok(refusal.map(Report::Refused))
}

/// An event happens: where it is refused that is printed, and then what is observed of it.
pub fn happen<W: Write>(
    run: &mut Run,
    alloc: Global,
    event: Event,
    short: &mut ShortLine,
    writer: &mut W,
) -> Result<(), Failure>
    ensures told { OnOk result (Prints (W.contents writer.old) (W.contents writer.new) (λ text. PrintsEvent run.old event text run.new)) }
    ensures failed { IfErr result IsRunFailure }
{
    let shown = run.observations().len();
    let refused = step(run, alloc, event)?;
    print_some(&refused, short, writer)?;
    print_since(alloc, run.observations(), shown, short, writer)
}

/// The packet of this number comes to whom it is for, and what is observed of it is printed.
pub fn deliver<W: Write>(
    run: &mut Run,
    alloc: Global,
    number: usize,
    short: &mut ShortLine,
    writer: &mut W,
) -> Result<(), Failure>
    ensures told { OnOk result (Prints (W.contents writer.old) (W.contents writer.new)
        (λ text. PrintsEvent run.old (events.Deliver number) text run.new)) }
    ensures failed { IfErr result IsRunFailure }
{
    let shown = run.observations().len();
    run.deliver(alloc, number)?;
    print_since(alloc, run.observations(), shown, short, writer)
}

fn standing_of(phase: Phase) -> Standing
    ensures { result ≡ standing_of phase }
{
    match phase {
        Phase::Open => Standing::Open,
        Phase::Frozen => Standing::Frozen,
        Phase::Sealed => Standing::Sealed,
    }
}

fn replica_report(node: u8, extent: u64, replica: &Replica) -> Report
    ensures { result ≡ replica_report node extent (Some (content_of replica.now)) }
{
    Report::Replica {
        node,
        extent,
        standing: standing_of(replica.state()),
        length: replica.len(),
        fence: replica.fence(),
    }
}

/// What a node that runs has of an extent.
fn look_at(looked: &Node<MemDisk>, node: u8, extent: u64) -> Report
    ensures { result ≡ replica_report node extent (contents (find looked.now.replicas extent)) }
{
    match looked.replica(ExtentId(extent)) {
        Some(replica) => replica_report(node, extent, replica),
        None => Report::NoReplica { node, extent },
    }
}

/// What a node has of an extent.
pub fn look(run: &Run, node: u8, extent: u64) -> Report
    ensures { result ≡ node_report node extent (running_at run.now.stream_layer.nodes node) }
{
    match run.node(node) {
        Some(looked) => look_at(looked, node, extent),
        None => Report::Stopped { node, extent },
    }
}
