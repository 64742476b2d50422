//! Which answers a merge waits for.
ghost use Rattle.std.specs.Prelude.{◌≡◌};
ghost use Rattle.model_partition.specs.Merges.{phase_awaits};

use model_partition::{MergeJob, MergePhase};
use wire::ReqNo;

/// Whether the merge waits for an answer of this number. While a range itself is at work for it, it waits for none.
pub fn awaits(job: &MergeJob, number: &ReqNo) -> bool
    ensures { result ≡ phase_awaits job.now.phase number.now }
{
    match &job.phase {
        MergePhase::Begin { request } => request == number,
        MergePhase::Checkpoint { side: _ } => false,
        MergePhase::Queue => false,
        MergePhase::Seal {
            side: _,
            kind: _,
            request,
        } => request == number,
        MergePhase::Build { request } => request == number,
        MergePhase::Create { request } => request == number,
        MergePhase::Write {
            record: _,
            metadata,
        } => metadata.awaits(number),
        MergePhase::Complete { request } => request == number,
    }
}
