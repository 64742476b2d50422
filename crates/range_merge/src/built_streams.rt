//! The streams of the new range that are built, each from those of the two of its kind.
ghost use Rattle.std.specs.Prelude.{◌≡◌, IfOk};
ghost use Rattle.model_partition.specs.Merges as rules;

use model_partition::MergeJob;
use std::alloc::{AllocError, Global};
use wire::{Fence, Modifies, Modify, RangeId, Source, Sources, StreamKind, StreamName};

fn source(range: RangeId, generation: Fence, kind: StreamKind) -> Source
    ensures { result ≡ rules.source range generation kind }
{
    Source {
        stream: StreamName { range, kind },
        generation,
    }
}

fn built_stream(alloc: Global, job: &MergeJob, kind: StreamKind) -> Result<Modify, AllocError>
    ensures { IfOk result (λ built. built ≡ rules.built_stream job.now kind) }
{
    let mut items = Vec::with_capacity(alloc, 2)?;
    items.push(source(job.left, job.left_generation, kind))?;
    items.push(source(job.right, job.right_generation, kind))?;
    Ok(Modify {
        stream: StreamName {
            range: job.into,
            kind,
        },
        sources: Sources { items },
    })
}

/// Its log, its row data and its blob data. An error is out of memory (22).
pub(crate) fn all_streams(alloc: Global, job: &MergeJob) -> Result<Modifies, AllocError>
    ensures { IfOk result (λ list. list ≡ rules.all_streams job.now) }
{
    let mut items = Vec::with_capacity(alloc, 3)?;
    items.push(built_stream(alloc, job, StreamKind::Log)?)?;
    items.push(built_stream(alloc, job, StreamKind::RowData)?)?;
    items.push(built_stream(alloc, job, StreamKind::BlobData)?)?;
    Ok(Modifies { items })
}
