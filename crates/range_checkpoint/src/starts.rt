//! What a checkpoint notes as it begins.
ghost use Rattle.std.specs.Prelude.{◌≡◌, ◌&&◌};

use model_partition::CheckpointJob;
use streams::Position;

/// What a checkpoint notes as it begins: where a load that begins with it reads the log from, the number that is then to be
/// applied next, and whether it is to combine the indexes below.
#[derive(Clone, Copy)]
pub struct CheckpointStart {
    pub position: Position,
    pub next: u64,
    pub combine: bool,
}

/// The same of a checkpoint that is under way, which may combine only where this fits.
pub(crate) fn start_of(job: &CheckpointJob, fits: bool) -> CheckpointStart
    ensures { result ≡ record { position = job.now.position; next = job.now.next; combine = job.now.combine && fits } }
{
    let combine = job.combine && fits;
    CheckpointStart {
        position: job.position,
        next: job.next,
        combine,
    }
}
