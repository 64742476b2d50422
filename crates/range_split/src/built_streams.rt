//! The streams of the two ranges, each built from the range's own of its kind.
ghost use Rattle.std.specs.Prelude.{◌≡◌, IfOk};
ghost use Rattle.model_partition.specs.Splits as rules;

use model_partition::SplitJob;
use std::alloc::{AllocError, Global};
use wire::{Modifies, Modify, RangeId, Source, Sources, StreamKind, StreamName};

fn built_stream(
    alloc: Global,
    job: &SplitJob,
    side: RangeId,
    kind: StreamKind,
) -> Result<Modify, AllocError>
    ensures { IfOk result (λ built. built ≡ rules.built_stream job.now side kind) }
{
    let mut items = Vec::with_capacity(alloc, 1)?;
    items.push(Source {
        stream: StreamName {
            range: job.range,
            kind,
        },
        generation: job.generation,
    })?;
    Ok(Modify {
        stream: StreamName { range: side, kind },
        sources: Sources { items },
    })
}

fn built_streams(alloc: Global, job: &SplitJob, side: RangeId) -> Result<Vec<Modify>, AllocError>
    ensures { IfOk result (λ built. built.items ≡ rules.built_streams job.now side) }
{
    let mut items = Vec::with_capacity(alloc, 4)?;
    items.push(built_stream(alloc, job, side, StreamKind::Metadata)?)?;
    items.push(built_stream(alloc, job, side, StreamKind::Log)?)?;
    items.push(built_stream(alloc, job, side, StreamKind::RowData)?)?;
    items.push(built_stream(alloc, job, side, StreamKind::BlobData)?)?;
    Ok(items)
}

/// The streams of the lower range, and then those of the higher one. An error is out of memory (22).
pub(crate) fn all_streams(alloc: Global, job: &SplitJob) -> Result<Modifies, AllocError>
    ensures { IfOk result (λ list. list ≡ rules.all_streams job.now) }
{
    let mut items = built_streams(alloc, job, job.low)?;
    let mut high = built_streams(alloc, job, job.high)?;
    items.append(&mut high)?;
    Ok(Modifies { items })
}
