//! Which answers a split waits for.
ghost use Rattle.std.specs.Prelude.{◌≡◌};
ghost use Rattle.model_partition.specs.Splits.{phase_awaits};

use model_partition::{SplitJob, SplitPhase};
use wire::ReqNo;

/// Whether the split waits for an answer of this number. While the range itself is at work for it, it waits for none.
pub fn awaits(job: &SplitJob, number: &ReqNo) -> bool
    ensures { result ≡ phase_awaits job.now.phase number.now }
{
    match &job.phase {
        SplitPhase::Begin { request } => request == number,
        SplitPhase::Checkpoint => false,
        SplitPhase::Queue => false,
        SplitPhase::Record => false,
        SplitPhase::Seal { kind: _, request } => request == number,
        SplitPhase::Build { request } => request == number,
        SplitPhase::Keys { side: _, metadata } => metadata.awaits(number),
        SplitPhase::Complete { request } => request == number,
    }
}
